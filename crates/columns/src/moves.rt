// A list moved to another place of the run. Where it stays nothing is copied. A candidate is moved at a time: the library's `copy_within` on
// each column is slower on lists as short as most are.
ghost use Rattle.std.specs.Prelude.{◌+◌, ◌≤◌};
ghost use Rattle.rules.specs.Quantities.{work_room};
ghost use Rattle.columns.specs.Run.{run};
ghost use Rattle.columns.specs.Made.{Room};
ghost use Rattle.columns.specs.Moving.{Moved};

use crate::cells;

// To a lower place, or the same: the first candidate first.
pub fn move_down(
    loads: &mut [u32],
    times: &mut [i64],
    words: &mut [u64],
    from: usize,
    to: usize,
    k: usize,
)
    requires room { Room loads.old times.old words.old }
    requires to_le_from { (to ≤ from) × (from + k ≤ work_room) }
    ensures { Moved (run loads.old times.old words.old) (run loads.new times.new words.new) from to k }
{
    for p in 0..k {
        cells::copy_at(loads, times, words, from + p, to + p);
    }
}

// To a higher place, or the same: the last candidate first.
pub fn move_up(
    loads: &mut [u32],
    times: &mut [i64],
    words: &mut [u64],
    from: usize,
    to: usize,
    k: usize,
)
    requires room { Room loads.old times.old words.old }
    requires from_le_to { (from ≤ to) × (to + k ≤ work_room) }
    ensures { Moved (run loads.old times.old words.old) (run loads.new times.new words.new) from to k }
{
    for p in (0..k).rev() {
        cells::copy_at(loads, times, words, from + p, to + p);
    }
}

pub fn move_list(
    loads: &mut [u32],
    times: &mut [i64],
    words: &mut [u64],
    from: usize,
    to: usize,
    k: usize,
)
    requires room { Room loads.old times.old words.old }
    requires k_bound { (from + k ≤ work_room) × (to + k ≤ work_room) }
    ensures { Moved (run loads.old times.old words.old) (run loads.new times.new words.new) from to k }
{
    if to < from {
        move_down(loads, times, words, from, to, k);
    } else if from < to {
        move_up(loads, times, words, from, to, k);
    }
}
