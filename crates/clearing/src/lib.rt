// The work area left all zero.
#![tactic(auto)]

ghost use Rattle.std.specs.Prelude.{◌≡◌, ◌++◌, ◌*◌, ◌≤◌, pos, length, drop, replicate};
ghost use Rattle.rules.specs.Quantities.{placement_room};

use rooms::PLACEMENT_ROOM;

// Zero over n places of the three columns.
pub fn clear(loads: &mut [u32], times: &mut [i64], words: &mut [u64], n: usize)
    requires { (n ≤ length loads.old) × ((n ≤ length times.old) × (placement_room * n ≤ length words.old)) }
    ensures loads { loads.new ≡ replicate n 0 ++ drop n loads.old }
    ensures times { times.new ≡ replicate n (pos 0) ++ drop n times.old }
    ensures words { words.new ≡ replicate (placement_room * n) 0 ++ drop (placement_room * n) words.old }
{
    loads[..n].fill(0);
    times[..n].fill(0);
    words[..PLACEMENT_ROOM * n].fill(0);
}
