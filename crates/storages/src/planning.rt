// A net planned on both storages.
use compared::answers::Planned;
use rooms::{PLACEMENT_ROOM, WORDS_AREA, WORK_ROOM};
use rules::Net;
use writing::{Figures, Marks, Refused, say};

fn line(storage: &str, planned: Planned) {
    match planned.answer {
        Err(r) => say!("{storage} {}\n", Refused(r)),
        Ok(timed) => say!(
            "{storage} {} marks {}\n",
            Figures(timed),
            Marks(planned.placement)
        ),
    }
}

fn in_columns(net: &Net<'_>) -> Planned {
    let mut placement = [0u64; PLACEMENT_ROOM];
    let mut loads = [0u32; WORK_ROOM];
    let mut times = [0i64; WORK_ROOM];
    let mut words = [0u64; WORDS_AREA];
    let answer = plan::plan_net(net, &mut placement, &mut loads, &mut times, &mut words);
    Planned { answer, placement }
}

fn in_records(net: &Net<'_>) -> Planned {
    let mut placement = [0u64; PLACEMENT_ROOM];
    let answer = held::plan_held(net, &mut placement);
    Planned { answer, placement }
}

// Whether both give the same figures and the same placement.
pub fn alike(net: &Net<'_>) -> bool {
    let ours = in_columns(net);
    let theirs = in_records(net);
    line("columns", ours);
    line("records", theirs);
    ours == theirs
}
