// The best of a list behind a repeater or the driver: the first of those whose time is the greatest.
ghost use Rattle.std.specs.Prelude.{◌+◌, ◌*◌, ◌≤◌};
ghost use Rattle.std.specs.Int.Signed.{mag};
ghost use Rattle.rules.specs.Quantities.{most_ohms};
ghost use Rattle.units.specs.Times.{Own};
ghost use Rattle.laws.specs.Steps.{best, value};
ghost use Rattle.columns.specs.Choosing.{Columns, Chosen, delay_of};

use crate::cells;
use pairs::Choice;
use rules::{Femtosecond, Ohm};

// The first greatest of the n candidates at `at`, behind a repeater.
pub fn best_from(
    loads: &[u32],
    times: &[i64],
    at: usize,
    n: usize,
    own: Femtosecond,
    r: Ohm,
) -> Choice
    requires columns { Columns loads.now times.now at n }
    requires own { Own own.0 × (r.0 ≤ most_ohms) }
    ensures { Chosen (delay_of (mag own.0) r.0) loads.now times.now at n result.at result.value.0 }
{
    let value = cells::value_at(loads, times, at, own, r);
    let mut best = Choice { at, value };
    for i in at + 1..at + n {
        let value = cells::value_at(loads, times, i, own, r);
        best = pairs::better(best, i, value);
    }
    best
}

// The first greatest of the n candidates at `at`, behind the driver, which has no delay of its own.
pub fn best_at(loads: &[u32], times: &[i64], at: usize, n: usize, r: Ohm) -> Choice
    requires columns { Columns loads.now times.now at n }
    requires r_le_most_ohms { r.0 ≤ most_ohms }
    ensures { Chosen (λ m. r.0 * m) loads.now times.now at n result.at result.value.0 }
{
    best_from(loads, times, at, n, Femtosecond(0), r)
}
