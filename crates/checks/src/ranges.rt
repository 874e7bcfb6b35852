// The ranges of a line's numbers: refusal 2.
ghost use Rattle.std.specs.Prelude.{◌≡◌, ◌||◌};
ghost use Rattle.rules.specs.Refusals.{wire_out};
ghost use Rattle.checks.specs.Checks.{type_out, pin_out};

use super::Wire;
use repeaters::Buffer;
use rooms::ranges::{
    EARLIEST_DUE, LATEST_DUE, MOST_FEMTOFARADS, MOST_OHMS, MOST_OWN, MOST_PARENT, MOST_SITE,
};
use rules::Pin;

pub fn type_out(t: Buffer) -> bool
    ensures { result ≡ type_out t }
{
    MOST_FEMTOFARADS < t.input.0 || MOST_OHMS < t.resistance.0 || MOST_OWN < t.own.0
}

pub fn wire_out(w: Wire) -> bool
    ensures { result ≡ wire_out w.parent w.resistance.0 w.capacitance.0 w.site }
{
    MOST_PARENT < w.parent
        || MOST_OHMS < w.resistance.0
        || MOST_FEMTOFARADS < w.capacitance.0
        || MOST_SITE < w.site
}

fn pin_out(p: Pin) -> bool
    ensures { result ≡ pin_out p }
{
    MOST_FEMTOFARADS < p.load.0 || p.due.0 < EARLIEST_DUE || LATEST_DUE < p.due.0
}

pub fn sink_out(w: Wire, p: Pin) -> bool
    ensures { result ≡ (wire_out w.parent w.resistance.0 w.capacitance.0 w.site || pin_out p) }
{
    wire_out(w) || pin_out(p)
}
