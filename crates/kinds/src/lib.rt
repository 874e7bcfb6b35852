// What a row is by its numbers: a driver, a plain point or a sink, and how it moves the number of the next site on.
#![tactic(auto)]

ghost use Rattle.std.specs.Prelude.{◌≡◌, ◌+◌, ◌≤◌};
ghost use Rattle.rules.specs.Entries.{site_count};
ghost use Rattle.rules.specs.Quantities.{rows_room};
ghost use Rattle.rules.specs.Refusals.{is_sink};
ghost use Rattle.laws.specs.Tabled.{kind_of};

use rooms::words::{DRIVER, POINT};
use rules::{Femtofarad, Femtosecond, Kind, Pin};

// The numbers are the words that C lends. Neither a driver's nor a plain point's is a sink's.
#[tactic(auto, unfolding(laws::specs::Tabled::kind_of))]
pub fn kind_of(kind: u32, pin: u32, due: i64) -> Kind
    ensures { result ≡ kind_of kind pin due }
{
    match kind {
        DRIVER => Kind::Driver,
        POINT => Kind::Point,
        _ => Kind::Sink(Pin {
            load: Femtofarad(pin),
            due: Femtosecond(due),
        }),
    }
}

pub fn is_sink(kind: Kind) -> bool
    ensures { result ≡ is_sink kind }
{
    matches!(kind, Kind::Sink(_))
}

// The number of the next site, after a row that has one or none.
pub fn next_site(site: bool, k: usize) -> usize
    requires { k ≤ rows_room }
    ensures { result ≡ k + site_count site }
{
    k + usize::from(site)
}
