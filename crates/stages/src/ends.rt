// What a pass has made of a job.
ghost use Rattle.stages.specs.Stages.{Inside, Ends, Ended};

use crate::{Job, Stage};
use turns::Pass;

// What the pass has made of it.
#[tactic(auto, unfolding(crate::specs::Stages::Ended))]
pub fn end(types: &[u32], j: Job, e: Pass) -> Job
    requires { Inside types.now j × Ends j e }
    ensures { Ended types.now j e result }
{
    let mut j = j;
    let at = j.low + j.later;
    match crate::stage_of(j.step, j.count) {
        Stage::Pin => {
            if j.sink {
                j.own = 1;
            }
            j.made = 0;
        }
        Stage::Choice(t) => {
            let input = repeaters::type_at(types, t).input;
            j.best[t] = values::typed(e.held, input, e.worth, j.site, t as u64 + 1);
        }
        Stage::Insert(_) | Stage::Wire => {
            j.own = e.to - at;
            j.made = 0;
        }
        Stage::Branch => j.made = e.to - (at + j.own),
        Stage::Move => j.own = j.made,
    }
    j.step += 1;
    j
}
