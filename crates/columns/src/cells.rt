// One candidate in the columns: copied, put behind a wire or a repeater; a sink's own.
ghost use Rattle.std.specs.Prelude.{◌≡◌, cond, ◌+◌, ◌*◌, ◌≤◌, ◌<◌, pos, length, get_or, set};
ghost use Rattle.std.specs.Int.Signed.{lt_z, mag};
ghost use Rattle.rules.specs.Quantities.{◌⊖◌, most_ohms, sites_room, work_room};
ghost use Rattle.laws.specs.Ranges.{most_load};
ghost use Rattle.marks.specs.Marks.{marks_end};
ghost use Rattle.units.specs.Times.{Own, far_time};
ghost use Rattle.laws.specs.Joining.{with_mark};
ghost use Rattle.laws.specs.Moves.{behind};
ghost use Rattle.columns.specs.Run.{blank, candidate, run, pair_of};
ghost use Rattle.columns.specs.Made.{Fit, Room, wire_of};

use crate::placements;
use pairs::Pair;
use rooms::PLACEMENT_ROOM;
use rules::{Femtofarad, Femtosecond, Ohm};

// The load and the time of candidate i.
pub fn pair_at(loads: &[u32], times: &[i64], i: usize) -> Pair
    requires { (i < length loads.now) × (i < length times.now) }
    ensures { result ≡ pair_of loads.now times.now i }
{
    Pair {
        load: Femtofarad(loads[i]),
        time: Femtosecond(times[i]),
    }
}

// A load and a time put at place i.
fn put_pair(loads: &mut [u32], times: &mut [i64], i: usize, pair: Pair)
    requires { (i < length loads.old) × (i < length times.old) }
    ensures loads { loads.new ≡ set loads.old i pair.load.0 }
    ensures times { times.new ≡ set times.old i pair.time.0 }
{
    loads[i] = pair.load.0;
    times[i] = pair.time.0;
}

// The candidate at `from` put at `to`.
pub fn copy_at(loads: &mut [u32], times: &mut [i64], words: &mut [u64], from: usize, to: usize)
    requires room { Room loads.old times.old words.old }
    requires from_lt_work_room { (from < work_room) × (to < work_room) }
    ensures { run loads.new times.new words.new ≡ set (run loads.old times.old words.old) to (get_or (run loads.old times.old words.old) from blank) }
{
    put_pair(loads, times, to, pair_at(loads, times, from));
    placements::copy_words(words, from, to);
}

// The candidate at `from`, behind a wire, put at `to`.
pub fn wired_at(
    loads: &mut [u32],
    times: &mut [i64],
    words: &mut [u64],
    from: usize,
    to: usize,
    r: Ohm,
    c: Femtofarad,
)
    requires room { Room loads.old times.old words.old }
    requires from_lt_work_room { (from < work_room) × ((to < work_room) × (r.0 ≤ most_ohms)) }
    requires fit { Fit (get_or (run loads.old times.old words.old) from blank) }
    requires fit_2 { Fit (behind (wire_of r.0 c.0) (get_or (run loads.old times.old words.old) from blank)) }
    ensures { run loads.new times.new words.new ≡ set (run loads.old times.old words.old) to (behind (wire_of r.0 c.0) (get_or (run loads.old times.old words.old) from blank)) }
{
    let own = pair_at(loads, times, from);
    let load = units::together(c, own.load);
    let time = pairs::time_before(own.time, r, load);
    put_pair(loads, times, to, Pair { load, time });
    placements::copy_words(words, from, to);
}

// A sink's one candidate, with no marks, put at a place.
pub fn put_pin(
    loads: &mut [u32],
    times: &mut [i64],
    words: &mut [u64],
    at: usize,
    load: Femtofarad,
    due: Femtosecond,
)
    requires room { Room loads.old times.old words.old }
    requires at_lt_work_room { at < work_room }
    ensures { run loads.new times.new words.new ≡ set (run loads.old times.old words.old) at (candidate load.0 due.0 (λ j. 0)) }
{
    put_pair(loads, times, at, Pair { load, time: due });
    placements::put_words(words, at, [0; PLACEMENT_ROOM]);
}

// 1 if the candidate at j is later than the one at i: a number and no bool, since it is added to a place.
pub fn later_at(times: &[i64], i: usize, j: usize) -> usize
    requires { (i < length times.now) × (j < length times.now) }
    ensures small { result ≤ 1 }
    ensures value { result ≡ cond (lt_z (get_or times.now i (pos 0)) (get_or times.now j (pos 0))) 1 0 }
{
    pairs::later(Femtosecond(times[i]), Femtosecond(times[j]))
}

// What a repeater's or the driver's input sees of candidate i: its time before the delay.
pub fn value_at(loads: &[u32], times: &[i64], i: usize, own: Femtosecond, r: Ohm) -> Femtosecond
    requires i_in_bounds { (i < length loads.now) × (i < length times.now) }
    requires i_bound { (get_or loads.now i 0 ≤ most_load) × (mag (get_or times.now i (pos 0)) ≤ far_time) }
    requires own { Own own.0 × (r.0 ≤ most_ohms) }
    ensures { result.0 ≡ get_or times.now i (pos 0) ⊖ (mag own.0 + r.0 * get_or loads.now i 0) }
{
    let pair = pair_at(loads, times, i);
    pairs::time_before_repeater(pair.time, own, r, pair.load)
}

// The candidate at `from` behind a repeater of type m at site k: it shows the type's input load, and has the time that was worked
// out from the load driven.
pub fn typed_at(
    loads: &mut [u32],
    times: &mut [i64],
    words: &mut [u64],
    from: usize,
    to: usize,
    input: Femtofarad,
    time: Femtosecond,
    k: usize,
    m: u64,
)
    requires room { Room loads.old times.old words.old }
    requires from_lt_work_room { (from < work_room) × (to < work_room) }
    requires k_lt_sites_room { (k < sites_room) × (m < marks_end) }
    ensures { run loads.new times.new words.new ≡ set (run loads.old times.old words.old) to (candidate input.0 time.0 (with_mark k m (get_or (run loads.old times.old words.old) from blank).place)) }
{
    put_pair(loads, times, to, Pair { load: input, time });
    placements::copy_words(words, from, to);
    placements::mark_words(words, to, k, m);
}
