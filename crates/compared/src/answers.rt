// What is compared of a storage: its answer, and the whole of the areas that it was lent for it.
use rooms::{LIST_ROOM, PLACEMENT_ROOM};
use rules::{Refusal, Timed};

#[derive(Clone, Copy, PartialEq, Eq)]
pub struct Planned {
    pub answer: Result<Timed, Refusal>,
    pub placement: [u64; PLACEMENT_ROOM],
}

#[derive(PartialEq, Eq, Drop)]
pub struct Listed {
    pub answer: Result<u32, Refusal>,
    pub loads: [u32; LIST_ROOM],
    pub times: [i64; LIST_ROOM],
}
