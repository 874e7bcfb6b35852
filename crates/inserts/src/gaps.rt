// Where a new candidate belongs in a list: past those with less of both, before those with more of both; what stands between it
// beats. Where one of the list covers it, its equal too, it belongs nowhere: what stands stays.
ghost use Rattle.std.specs.Prelude.{◌≡◌, Bool, true, false, cond, ℕ, ◌≤◌, ◌<◌, ltb, pos, MatchOption, length, get_or};
ghost use Rattle.rules.specs.Quantities.{work_room};
ghost use Rattle.pairs.specs.Stands.{is_covered};
ghost use Rattle.columns.specs.Run.{pair_of};
ghost use Rattle.inserts.specs.Gaps.{Stops, GapAt};

use crate::Bounds;
use columns::cells;
use pairs::Pair;

// The first place from `start` on whose candidate fails the test.
fn first_not<F: Fn(Pair) -> bool>(
    loads: &[u32],
    times: &[i64],
    start: usize,
    end: usize,
    passes: F,
) -> usize
    requires in_bounds { (start ≤ end) × ((end ≤ length loads.now) × (end ≤ length times.now)) }
    requires callable { F.IsAlwaysCallable passes }
    ensures within { (start ≤ result) × (result ≤ end) }
    ensures stops { (test : ℕ → Bool) → ((j : ℕ) (b : Bool) → F.post passes (pair_of loads.now times.now j) b → b ≡ test j) → Stops test start end result }
{
    for p in start..end {
        if !passes(cells::pair_at(loads, times, p)) {
            return p;
        }
    }
    end
}

// Whether there is a candidate at i and it covers the new one.
pub fn covered_at(loads: &[u32], times: &[i64], i: usize, end: usize, new: Pair) -> bool
    requires { (end ≤ length loads.now) × (end ≤ length times.now) }
    ensures { result ≡ cond (ltb i end) (is_covered new.load.0 new.time.0 (get_or loads.now i 0) (get_or times.now i (pos 0))) false }
{
    i < end && new.is_covered(cells::pair_at(loads, times, i))
}

// The new one belongs between `from` and `past`.
#[derive(Clone, Copy)]
pub struct Gap {
    pub from: usize,
    pub past: usize,
}

// Where the new one belongs in a list: nowhere if one of the list covers it.
pub fn gap_from(loads: &[u32], times: &[i64], list: Bounds, new: Pair) -> Option<Gap>
    requires start_le_end { (list.start ≤ list.end) × (list.end ≤ work_room) }
    requires work_room_in_bounds { (work_room ≤ length loads.now) × (work_room ≤ length times.now) }
    ensures { MatchOption result ((p : ℕ) × GapAt loads.now times.now list.start list.end new.load.0 new.time.0 true p p) (λ g. GapAt loads.now times.now list.start list.end new.load.0 new.time.0 false g.from g.past) }
{
    let from = first_not(loads, times, list.start, list.end, |x| x.is_below(new));
    if covered_at(loads, times, from, list.end, new) {
        return None;
    }
    let past = first_not(loads, times, from, list.end, |x| new.is_covering(x));
    Some(Gap { from, past })
}
