// list_at and loads_at asked.
use crate::work;
use lending::stamps;
use lending::work::{Left, Lent};
use rules::{Net, Refusal};

// Places of a list's areas: more than its room.
pub const LIST: usize = 300;

// What list_at gave, and what it left: the length, and the areas of the list.
#[derive(Clone, Copy)]
pub struct Listed {
    pub answer: Result<u32, Refusal>,
    pub loads: [u32; LIST],
    pub times: [i64; LIST],
    pub left: Left,
}

// The same of loads_at.
#[derive(Clone, Copy)]
pub struct Loaded {
    pub answer: Result<u32, Refusal>,
    pub loads: [u32; LIST],
    pub left: Left,
}

// How many places of the list's areas an answer fills.
fn filled(answer: Result<u32, Refusal>) -> usize {
    answer.map_or(0, |length| length as usize)
}

// The list at a row: its loads and times lent at these lengths, and the work area.
pub fn list(net: &Net<'_>, row: usize, list_loads: usize, list_times: usize, lent: Lent) -> Listed {
    let mut loads = [0u32; LIST];
    let mut times = [0i64; LIST];
    stamps::stamp(&mut loads);
    stamps::stamp(&mut times);
    let load_part = &mut loads[..list_loads.min(LIST)];
    let time_part = &mut times[..list_times.min(LIST)];
    let (answer, left) = work::on_work(lent, |loads, times, words| {
        plan::list_at(net, row, load_part, time_part, loads, times, words)
    });
    let from = filled(answer);
    let kept = stamps::kept(&loads, from) && stamps::kept(&times, from);
    Listed {
        answer,
        loads,
        times,
        left: left.beside(kept),
    }
}

// The loads of the list at a row: lent at this length, and the work area.
pub fn loads_alone(net: &Net<'_>, row: usize, list_loads: usize, lent: Lent) -> Loaded {
    let mut loads = [0u32; LIST];
    stamps::stamp(&mut loads);
    let load_part = &mut loads[..list_loads.min(LIST)];
    let (answer, left) = work::on_work(lent, |loads, times, words| {
        plan::loads_at(net, row, load_part, loads, times, words)
    });
    let kept = stamps::kept(&loads, filled(answer));
    Loaded {
        answer,
        loads,
        left: left.beside(kept),
    }
}
