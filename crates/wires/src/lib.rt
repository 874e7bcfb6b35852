// A list through a wire, in place. A wire can turn a kept pair into a beaten one, so a candidate is kept only if it is later than the
// last one kept: behind a wire loads rise strictly.
#![tactic(auto)]

ghost use Rattle.std.specs.Prelude.{map, ◌+◌, ◌≤◌};
ghost use Rattle.rules.specs.Quantities.{most_ohms};
ghost use Rattle.rules.specs.Lists.{All};
ghost use Rattle.laws.specs.Moves.{behind, wire_step};
ghost use Rattle.columns.specs.Parts.{part};
ghost use Rattle.columns.specs.Run.{run};
ghost use Rattle.columns.specs.Made.{Fit, Room, Stand, Gives, wire_of};

use columns::cells;
use rules::{Femtofarad, Ohm};

// The n candidates at `at`, behind the wire; how many are left.
pub fn wire_list(
    loads: &mut [u32],
    times: &mut [i64],
    words: &mut [u64],
    at: usize,
    n: usize,
    r: Ohm,
    c: Femtofarad,
) -> usize
    requires room { Room loads.old times.old words.old }
    requires stand { Stand (run loads.old times.old words.old) at n }
    requires r_le_most_ohms { r.0 ≤ most_ohms }
    requires all { All Fit (map (behind (wire_of r.0 c.0)) (part at (at + n) (run loads.old times.old words.old))) }
    ensures { Gives (run loads.old times.old words.old) (run loads.new times.new words.new) at result (wire_step (wire_of r.0 c.0) (part at (at + n) (run loads.old times.old words.old))) }
{
    cells::wired_at(loads, times, words, at, at, r, c);
    let mut last = at;
    for i in at + 1..at + n {
        cells::wired_at(loads, times, words, i, last + 1, r, c);
        last += cells::later_at(times, last, last + 1);
    }
    last + 1 - at
}
