// The arithmetic of ohms, femtofarads and femtoseconds. They stay apart: only `delay` makes a time from the other two.
#![tactic(auto)]

ghost use Rattle.std.specs.Prelude.{◌≡◌, ◌+◌, ◌*◌, ◌≤◌, ◌<◌, max, pos, ◌-ℤ◌};
ghost use Rattle.std.specs.Int.Signed.{mag, lt_z};
ghost use Rattle.rules.specs.Quantities.{most_ohms};
ghost use Rattle.laws.specs.Ranges.{most_load};
ghost use Rattle.laws.specs.Integers.{minℤ};
ghost use Rattle.units.specs.Times.{most_delay, farthest};

use rules::{Femtofarad, Femtosecond, Ohm};

// One ohm times one femtofarad is one femtosecond.
pub fn delay(r: Ohm, c: Femtofarad) -> Femtosecond
    requires { (r.0 ≤ most_ohms) × (c.0 ≤ most_load) }
    ensures value { result.0 ≡ pos (r.0 * c.0) }
    ensures size { mag result.0 ≤ most_delay }
{
    Femtosecond(i64::from(r.0) * i64::from(c.0))
}

// A time less another. Neither reaches so far from zero that the difference would not fit.
pub fn less(t: Femtosecond, d: Femtosecond) -> Femtosecond
    requires { (mag t.0 < farthest) × (mag d.0 < farthest) }
    ensures value { result.0 ≡ t.0 -ℤ d.0 }
    ensures size { mag result.0 ≤ mag t.0 + mag d.0 + 1 }
{
    Femtosecond(t.0 - d.0)
}

// The one comparison of times: every branch on times is on its answer. A derived order would only move the body.
pub fn is_later(a: Femtosecond, b: Femtosecond) -> bool
    ensures { result ≡ lt_z b.0 a.0 }
{
    a.0 > b.0
}

// The lesser of two times: where branches meet it counts for both.
pub fn earlier(a: Femtosecond, b: Femtosecond) -> Femtosecond
    ensures value { result.0 ≡ minℤ a.0 b.0 }
    ensures size { mag result.0 ≤ max (mag a.0) (mag b.0) }
{
    if is_later(a, b) { b } else { a }
}

// Loads beside each other, or a wire's capacitance and the load at its far end.
pub fn together(a: Femtofarad, b: Femtofarad) -> Femtofarad
    requires { a.0 + b.0 ≤ most_load }
    ensures { result.0 ≡ a.0 + b.0 }
{
    Femtofarad(a.0 + b.0)
}

// A field that is a time already: a type's own delay.
pub fn time_of(x: u32) -> Femtosecond
    ensures value { result.0 ≡ pos x }
    ensures size { mag result.0 ≡ x }
{
    Femtosecond(i64::from(x))
}
