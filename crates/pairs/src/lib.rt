// What is worked out from the numbers of one or two candidates, with no storage in the way.
#![tactic(auto)]

ghost use Rattle.std.specs.Prelude.{◌≡◌, cond, ◌+◌, ◌*◌, ◌≤◌, ◌<◌};
ghost use Rattle.std.specs.Int.Signed.{mag, lt_z};
ghost use Rattle.rules.specs.Quantities.{◌⊖◌, most_ohms, most_own};
ghost use Rattle.laws.specs.Ranges.{most_load};
ghost use Rattle.laws.specs.Integers.{minℤ};
ghost use Rattle.units.specs.Times.{Own};
ghost use Rattle.pairs.specs.Reach.{near};
ghost use Rattle.pairs.specs.Stands.{is_below, is_covering, is_covered};

use rules::{Femtofarad, Femtosecond, Ohm};

// The time before a resistance that drives a load: a wire's, a repeater's or the driver's.
pub fn time_before(time: Femtosecond, r: Ohm, load: Femtofarad) -> Femtosecond
    requires { (mag time.0 < near) × ((r.0 ≤ most_ohms) × (load.0 ≤ most_load)) }
    ensures { result.0 ≡ time.0 ⊖ (r.0 * load.0) }
{
    units::less(time, units::delay(r, load))
}

// The time before a repeater, which has a delay of its own too.
pub fn time_before_repeater(
    time: Femtosecond,
    own: Femtosecond,
    r: Ohm,
    load: Femtofarad,
) -> Femtosecond
    requires most_own_bound { (mag time.0 + most_own + 1 < near) × Own own.0 }
    requires r_le_most_ohms { (r.0 ≤ most_ohms) × (load.0 ≤ most_load) }
    ensures { result.0 ≡ time.0 ⊖ (mag own.0 + r.0 * load.0) }
{
    time_before(units::less(time, own), r, load)
}

// The load and the time of a candidate.
#[derive(Clone, Copy)]
pub struct Pair {
    pub load: Femtofarad,
    pub time: Femtosecond,
}

impl Pair {
    // Two candidates where branches meet: the earlier of their times, and their loads together.
    pub fn joined(self, other: Pair) -> Pair
        requires { self.load.0 + other.load.0 ≤ most_load }
        ensures time { result.time.0 ≡ minℤ self.time.0 other.time.0 }
        ensures load { result.load.0 ≡ self.load.0 + other.load.0 }
    {
        Pair {
            load: units::together(self.load, other.load),
            time: units::earlier(self.time, other.time),
        }
    }

    // Whether it has less of both than the other.
    #[tactic(auto, unfolding(crate::specs::Stands::is_below))]
    pub fn is_below(self, other: Pair) -> bool
        ensures { result ≡ is_below self.load.0 self.time.0 other.load.0 other.time.0 }
    {
        self.load.0 < other.load.0 && units::is_later(other.time, self.time)
    }

    // Whether its load is no greater than the other's and its time no less.
    #[tactic(auto, unfolding(crate::specs::Stands::is_covering))]
    pub fn is_covering(self, other: Pair) -> bool
        ensures { result ≡ is_covering self.load.0 self.time.0 other.load.0 other.time.0 }
    {
        self.load.0 <= other.load.0 && !units::is_later(other.time, self.time)
    }

    // Whether the other covers it.
    #[tactic(auto, unfolding(crate::specs::Stands::is_covered))]
    pub fn is_covered(self, other: Pair) -> bool
        ensures { result ≡ is_covered self.load.0 self.time.0 other.load.0 other.time.0 }
    {
        other.is_covering(self)
    }
}

// 1 if the second time is later than the first, or else 0: how much longer a list is with the second kept after the first. A number, so
// that a walk over a list adds it and has no branch there.
pub fn later(first: Femtosecond, second: Femtosecond) -> usize
    ensures small { result ≤ 1 }
    ensures value { result ≡ cond (lt_z first.0 second.0) 1 0 }
{
    usize::from(units::is_later(second, first))
}

// A place of a list, and what the candidate there is worth.
#[derive(Clone, Copy)]
pub struct Choice {
    pub at: usize,
    pub value: Femtosecond,
}

// The first of the greatest: a later one takes over only if it is worth more.
pub fn better(best: Choice, i: usize, value: Femtosecond) -> Choice
    ensures place { result.at ≡ cond (lt_z best.value.0 value.0) i best.at }
    ensures value { result.value.0 ≡ cond (lt_z best.value.0 value.0) value.0 best.value.0 }
{
    if units::is_later(value, best.value) {
        Choice { at: i, value }
    } else {
        best
    }
}
