// What each pass begins with.
ghost use Rattle.std.specs.Prelude.{◌≡◌};
ghost use Rattle.stages.specs.Stages.{Inside, begin_of};

use crate::{Job, Stage};
use turns::{Pass, Step};

// The next pass. Unless it is said otherwise it goes over the row's own list.
#[tactic(auto, unfolding(crate::specs::Stages::begin_of))]
pub fn begin(types: &[u32], j: Job) -> Pass
    requires { Inside types.now j }
    ensures { result ≡ begin_of types.now j }
{
    let at = j.low + j.later;
    let end = at + j.own;
    let whole = Pass {
        left: j.own,
        ..turns::idle_at(at)
    };
    match crate::stage_of(j.step, j.count) {
        Stage::Pin => Pass {
            left: usize::from(j.sink),
            held: j.pin,
            ..whole
        },
        Stage::Choice(t) => {
            let b = repeaters::type_at(types, t);
            Pass {
                step: Step::FirstChoice(b.own, b.resistance),
                ..whole
            }
        }
        Stage::Insert(t) => Pass {
            step: Step::Insert,
            left: j.own + 1,
            held: j.best[t],
            ..whole
        },
        Stage::Wire => Pass {
            step: Step::FirstWire(j.resistance, j.capacitance),
            ..whole
        },
        Stage::Branch => Pass {
            step: Step::Branch(end, at),
            left: j.later + j.own,
            with: j.low,
            to: end,
            ..whole
        },
        Stage::Move => Pass {
            step: Step::Move,
            left: j.made,
            from: end,
            with: j.low,
            to: j.low,
            ..whole
        },
    }
}
