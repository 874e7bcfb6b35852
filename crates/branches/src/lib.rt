// Where two lists meet: both are walked together, each once, always moving past the earlier time. Nothing that is so made is ever
// beaten, so there is no thinning.
#![tactic(auto)]

ghost use Rattle.std.specs.Prelude.{◌≡◌, ◌+◌, ◌≤◌, ◌<◌, length, get_or, set};
ghost use Rattle.rules.specs.Quantities.{work_room};
ghost use Rattle.laws.specs.Ranges.{most_load};
ghost use Rattle.laws.specs.Integers.{minℤ};
ghost use Rattle.laws.specs.Joining.{join_marks};
ghost use Rattle.laws.specs.Steps.{joined, merge};
ghost use Rattle.columns.specs.Parts.{part};
ghost use Rattle.columns.specs.Run.{blank, run};
ghost use Rattle.columns.specs.Made.{Fit, Room, Gives};
ghost use Rattle.branches.specs.Branching.{Pair, Merged};

use columns::{cells, moves, placements};

// A turn: two candidates joined, their load and time put at the start of what is unused of the columns.
fn join_turn(x: pairs::Pair, y: pairs::Pair, loads: &mut [u32], times: &mut [i64])
    requires loads_nonzero { (0 < length loads.old) × (0 < length times.old) }
    requires load_bound { x.load.0 + y.load.0 ≤ most_load }
    ensures loads { loads.new ≡ set loads.old 0 (x.load.0 + y.load.0) }
    ensures times { times.new ≡ set times.old 0 (minℤ x.time.0 y.time.0) }
{
    let pair = x.joined(y);
    loads[0] = pair.load.0;
    times[0] = pair.time.0;
}

// The candidates at i and j joined, put at o, the first unused place: the turn is lent the loads and times from there on, and the
// words are joined in their column.
fn turn_at(loads: &mut [u32], times: &mut [i64], words: &mut [u64], i: usize, j: usize, o: usize)
    requires room { Room loads.old times.old words.old }
    requires i_lt_work_room { (i < work_room) × ((j < work_room) × (o < work_room)) }
    requires fit { Fit (joined join_marks (get_or (run loads.old times.old words.old) i blank) (get_or (run loads.old times.old words.old) j blank)) }
    ensures { run loads.new times.new words.new ≡ set (run loads.old times.old words.old) o (joined join_marks (get_or (run loads.old times.old words.old) i blank) (get_or (run loads.old times.old words.old) j blank)) }
{
    let x = cells::pair_at(loads, times, i);
    let y = cells::pair_at(loads, times, j);
    join_turn(x, y, &mut loads[o..], &mut times[o..]);
    placements::join_words(words, i, j, o);
}

// Two lists, the second after the first at `at`: their joined list, written past both; its end.
pub fn merge_lists(
    loads: &mut [u32],
    times: &mut [i64],
    words: &mut [u64],
    at: usize,
    m: usize,
    n: usize,
) -> usize
    requires room { Room loads.old times.old words.old }
    requires pair { Pair (run loads.old times.old words.old) at m n }
    ensures { Merged (run loads.old times.old words.old) (run loads.new times.new words.new) at m n result }
{
    let mid = at + m;
    let end = mid + n;
    let mut i = mid;
    let mut j = at;
    let mut o = end;
    // Which index goes on hangs on the two times, so no range is walked.
    while i < end && j < mid {
        turn_at(loads, times, words, i, j, o);
        let first = 1 - cells::later_at(times, i, j);
        let second = 1 - cells::later_at(times, j, i);
        i += second;
        j += first;
        o += 1;
    }
    o
}

// Two lists, the second after the first at `at`, become their joined list there; its length.
pub fn join_lists(
    loads: &mut [u32],
    times: &mut [i64],
    words: &mut [u64],
    at: usize,
    m: usize,
    n: usize,
) -> usize
    requires room { Room loads.old times.old words.old }
    requires pair { Pair (run loads.old times.old words.old) at m n }
    ensures { Gives (run loads.old times.old words.old) (run loads.new times.new words.new) at result (merge join_marks (part (at + m) (at + m + n) (run loads.old times.old words.old)) (part at (at + m) (run loads.old times.old words.old))) }
{
    let end = at + m + n;
    let o = merge_lists(loads, times, words, at, m, n);
    let count = o - end;
    moves::move_down(loads, times, words, end, at, count);
    count
}
