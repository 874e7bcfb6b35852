// Of a list of candidates at the driver the first greatest behind the driver, and its placement put down.
#![tactic(auto)]

ghost use Rattle.std.specs.Prelude.{◌≡◌, ◌+◌, ◌*◌, ◌≤◌, length};
ghost use Rattle.rules.specs.Lists.{written};
ghost use Rattle.rules.specs.Quantities.{placement_room};
ghost use Rattle.columns.specs.Run.{run};
ghost use Rattle.picked.specs.Picked.{four_at, Ready, Choice};

use rooms::PLACEMENT_ROOM;
use rules::{Femtofarad, Net, Timed};

// The four words of candidate b, put at the start of a placement.
fn put_placement(words: &[u64], b: usize, placement: &mut [u64])
    requires { (placement_room * b + placement_room ≤ length words.now) × (placement_room ≤ length placement.old) }
    ensures { placement.new ≡ written (four_at words.now b) placement.old }
{
    let at = PLACEMENT_ROOM * b;
    placement[0] = words[at];
    placement[1] = words[at + 1];
    placement[2] = words[at + 2];
    placement[3] = words[at + 3];
}

// Of the list at the driver the first greatest behind the driver, its placement put down: its slack, and the load on the driver.
pub fn choose(
    net: &Net<'_>,
    loads: &[u32],
    times: &[i64],
    words: &[u64],
    len: usize,
    placement: &mut [u64],
) -> Timed
    requires { Ready net.now.rows.now net.now.due.now loads.now times.now words.now len placement.old }
    ensures { Choice net.now.rows.now net.now.due.now (run loads.now times.now words.now) len placement.old placement.new result.slack.0 result.load.0 }
{
    let driver = rows::row_at(net, 0);
    let best = columns::choices::best_at(loads, times, 0, len, driver.resistance);
    put_placement(words, best.at, placement);
    Timed {
        slack: best.value,
        load: Femtofarad(loads[best.at]),
    }
}
