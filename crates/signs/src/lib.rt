// A number without its sign, for the programs that write it.
#![tactic(auto)]

ghost use Rattle.std.specs.Prelude.{◌≡◌, nat_abs};

// How far from zero, for every number: where it is negative, one more than its distance from -1.
pub fn magnitude(z: i64) -> u64
    ensures { result ≡ nat_abs z }
{
    if z < 0 {
        let past = -1 - z;
        return past as u64 + 1;
    }
    z as u64
}
