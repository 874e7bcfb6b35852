// What is done with a row's own list, by value: the job, what each of its passes begins with, and what a pass has made of it.
#![tactic(auto)]

ghost use Rattle.std.specs.Prelude.{◌≤◌};
ghost use Rattle.rules.specs.Quantities.{types_room};
ghost use Rattle.stages.specs.Stages.{StageOf};

use rooms::TYPES_ROOM;
use rules::{Cand, Femtofarad, Ohm};

pub mod begins;
pub mod ends;

// The row's list stands `later` places past `low`, where the list of the later rows beside it waits.
// The passes are counted in `step`, as the theorems of `stands` count them; what a number means is said in one place, `stage_of`. A sink's
// pin has its flag, and the best behind each type their count, as the definition `site_job` has them: memory is fixed.
#[derive(Clone, Copy)]
pub struct Job {
    pub step: usize,
    pub steps: usize,
    pub low: usize,
    pub later: usize,
    pub own: usize,
    pub made: usize,
    pub count: usize,
    pub site: usize,
    pub sink: bool,
    pub pin: Cand,
    pub resistance: Ohm,
    pub capacitance: Femtofarad,
    pub best: [Cand; TYPES_ROOM],
}

// Which pass is next: a sink's pin is put down, the best behind a type is chosen, the best behind a type is put in, the list goes through
// the wire, is joined with the list that waits, and is moved down.
#[derive(Clone, Copy)]
enum Stage {
    Pin,
    Choice(usize),
    Insert(usize),
    Wire,
    Branch,
    Move,
}

// What the number of a job's pass means, with so many types at its site.
fn stage_of(step: usize, types: usize) -> Stage
    requires { types ≤ types_room }
    ensures { StageOf step types result }
{
    if step < 1 {
        Stage::Pin
    } else if step < types + 1 {
        Stage::Choice(step - 1)
    } else if step < types + types + 1 {
        Stage::Insert(step - types - 1)
    } else if step < types + types + 2 {
        Stage::Wire
    } else if step < types + types + 3 {
        Stage::Branch
    } else {
        Stage::Move
    }
}
