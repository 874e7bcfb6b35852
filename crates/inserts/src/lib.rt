// One candidate put into a list. The list may start later than its place while this goes on, so that as a rule only what stands
// before the new one has to move.
#![tactic(auto)]

pub mod gaps;

ghost use Rattle.std.specs.Prelude.{◌+◌, ◌≤◌, ◌<◌};
ghost use Rattle.rules.specs.Quantities.{work_room};
ghost use Rattle.laws.specs.Lists.{EveryTwo};
ghost use Rattle.laws.specs.Candidates.{Below};
ghost use Rattle.columns.specs.Parts.{part};
ghost use Rattle.columns.specs.Run.{run};
ghost use Rattle.columns.specs.Made.{Room};
ghost use Rattle.inserts.specs.Gaps.{Grows, Fills, Thins};

use columns::{cells, moves};
use gaps::Gap;

// Where a list starts and ends.
#[derive(Clone, Copy)]
pub struct Bounds {
    pub start: usize,
    pub end: usize,
}

// Where nothing is dropped and there is no room before the list, what comes after the new one moves up; how far.
pub fn grow(
    loads: &mut [u32],
    times: &mut [i64],
    words: &mut [u64],
    at: usize,
    list: Bounds,
    gap: Gap,
    by: usize,
) -> usize
    requires room { Room loads.old times.old words.old }
    requires at_le_start { (at ≤ list.start) × ((list.start ≤ gap.from) × ((gap.from ≤ gap.past) × (gap.past ≤ list.end))) }
    requires le_by { (1 ≤ by) × (list.end + by + at ≤ work_room + list.start) }
    ensures { Grows (run loads.old times.old words.old) (run loads.new times.new words.new) at list.start gap.from gap.past list.end by result }
{
    if gap.from < gap.past || at < list.start {
        return 0;
    }
    moves::move_up(
        loads,
        times,
        words,
        gap.past,
        gap.past + by,
        list.end - gap.past,
    );
    by
}

// The candidate at `from` put right before the end of the gap, and what stands from `start` to the gap right before it; where the list
// starts now.
pub fn fill(
    loads: &mut [u32],
    times: &mut [i64],
    words: &mut [u64],
    from: usize,
    start: usize,
    gap: Gap,
) -> usize
    requires room { Room loads.old times.old words.old }
    requires start_le_p { (start ≤ gap.from) × ((gap.from < gap.past + start) × ((gap.from ≤ gap.past) × ((gap.past ≤ from) × (from < work_room)))) }
    ensures { Fills (run loads.old times.old words.old) (run loads.new times.new words.new) from start gap.from gap.past result }
{
    let k = gap.from - start;
    let to = gap.past - 1 - k;
    moves::move_list(loads, times, words, start, to, k);
    cells::copy_at(loads, times, words, from, gap.past - 1);
    to
}

// The candidate at `from` put into a list, which may go down to `at`, and up by `by` where it must.
pub fn put_in(
    loads: &mut [u32],
    times: &mut [i64],
    words: &mut [u64],
    from: usize,
    at: usize,
    list: Bounds,
    by: usize,
) -> Bounds
    requires room { Room loads.old times.old words.old }
    requires at_le_start { (at ≤ list.start) × ((list.start < list.end) × ((1 ≤ by) × ((list.end + by + at ≤ from + list.start) × ((list.end ≤ from) × (from < work_room))))) }
    requires every_two { EveryTwo Below (part list.start list.end (run loads.old times.old words.old)) }
    ensures { Thins (run loads.old times.old words.old) (run loads.new times.new words.new) from at list.start list.end by result.start result.end }
{
    let new = cells::pair_at(loads, times, from);
    let Some(gap) = gaps::gap_from(loads, times, list, new) else {
        return list;
    };
    let up = grow(loads, times, words, at, list, gap, by);
    let past = gap.past + up;
    let start = fill(
        loads,
        times,
        words,
        from,
        list.start,
        Gap {
            from: gap.from,
            past,
        },
    );
    Bounds {
        start,
        end: list.end + up,
    }
}
