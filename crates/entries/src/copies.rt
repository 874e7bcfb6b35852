// An area's start copied.
ghost use Rattle.std.specs.Prelude.{◌≡◌, ◌++◌, ◌≤◌, length, take, drop};

// The first places of an area, copied to the start of another. The library's `copy_from_slice` calls `memmove`, which a caller in C need not have.
#[tactic(auto, using(crate::specs::Words::copy_more))]
pub fn copy_start<T: Copy>(from: &[T], to: &mut [T], count: usize)
    requires { (count ≤ length from.now) × (count ≤ length to.old) }
    ensures { to.new ≡ take count from.now ++ drop count to.old }
{
    for i in 0..count {
        to[i] = from[i];
    }
}
