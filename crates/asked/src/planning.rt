// plan_net asked.
use crate::work;
use lending::stamps;
use lending::work::{Left, Lent};
use rooms::PLACEMENT_ROOM;
use rules::{Net, Refusal, Timed};

// What it gave, and what it left.
#[derive(Clone, Copy)]
pub struct Planned {
    pub answer: Result<Timed, Refusal>,
    pub left: Left,
}

// The placement lent at a length, and the work area. The words of a placement that is given are kept for later questions.
pub fn plan(net: &Net<'_>, long: usize, lent: Lent, best: &mut [u64; PLACEMENT_ROOM]) -> Planned {
    let mut placement = [0u64; 6];
    stamps::stamp(&mut placement);
    let part = &mut placement[..long.min(6)];
    let (answer, left) = work::on_work(lent, |loads, times, words| {
        plan::plan_net(net, part, loads, times, words)
    });
    let mut from = 0;
    if answer.is_ok() {
        best.copy_from_slice(&placement[..PLACEMENT_ROOM]);
        from = PLACEMENT_ROOM;
    }
    Planned {
        answer,
        left: left.beside(stamps::kept(&placement, from)),
    }
}
