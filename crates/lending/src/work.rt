// A work area: stamped before it is lent, and looked at after.
ghost use Rattle.std.specs.Prelude.{◌≡◌, ◌&&◌};

use crate::stamps;
use rooms::{WORDS_AREA, WORK_ROOM};

// How many words of each of its areas are lent: a length past the area lends all of it.
#[derive(Clone, Copy)]
pub struct Lent {
    pub loads: usize,
    pub times: usize,
    pub words: usize,
}

// More than its room: memory is fixed.
#[derive(Drop)]
pub struct Work {
    pub loads: [u32; 800],
    pub times: [i64; 800],
    pub words: [u64; 3100],
}

// What a call left: whether each word holds its stamp where the paper leaves it as it was, and whether the room of the work area is all
// zero.
#[derive(Clone, Copy)]
pub struct Left {
    pub kept: bool,
    pub cleared: bool,
}

impl Left {
    // With what the call left of its other areas.
    pub fn beside(self, kept: bool) -> Left
        ensures kept { result.kept ≡ self.kept && kept }
        ensures cleared { result.cleared ≡ self.cleared }
    {
        Left {
            kept: self.kept && kept,
            cleared: self.cleared,
        }
    }
}

impl Work {
    pub fn stamped() -> Work {
        let mut work = Work {
            loads: [0; 800],
            times: [0; 800],
            words: [0; 3100],
        };
        stamps::stamp(&mut work.loads);
        stamps::stamp(&mut work.times);
        stamps::stamp(&mut work.words);
        work
    }

    // A refusal leaves the whole area as it was, any other answer what is past its room.
    pub fn seen(&self, refused: bool) -> Left {
        let (room, words) = if refused {
            (0, 0)
        } else {
            (WORK_ROOM, WORDS_AREA)
        };
        Left {
            kept: stamps::kept(&self.loads, room)
                && stamps::kept(&self.times, room)
                && stamps::kept(&self.words, words),
            cleared: stamps::cleared(&self.loads, WORK_ROOM)
                && stamps::cleared(&self.times, WORK_ROOM)
                && stamps::cleared(&self.words, WORDS_AREA),
        }
    }
}
