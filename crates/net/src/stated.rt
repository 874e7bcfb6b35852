// What the numbers of a line make: a type, a wire, a pin. A number too large for any range is cut to one that is still out of range.
ghost use Rattle.std.specs.Prelude.{◌≡◌};
ghost use Rattle.repeaters.specs.Repeaters.{buffer_of};
ghost use Rattle.entries.specs.Lines.{word, wire_of, pin_of};

use checks::Wire;
use repeaters::{Buffer, repeater};
use rooms::ranges::WORD_CAP;
use rules::{Femtofarad, Femtosecond, Ohm, Pin};

pub fn word_of(n: u64) -> u32
    ensures { result ≡ word n }
{
    n.min(WORD_CAP) as u32
}

pub fn repeater_read(input: u64, resistance: u64, own: u64) -> Buffer
    ensures { result ≡ buffer_of (word input) (word resistance) (word own) }
{
    repeater(word_of(input), word_of(resistance), word_of(own))
}

#[tactic(auto, unfolding(entries::specs::Lines::wire_of))]
pub fn wire_read(parent: u64, resistance: u64, capacitance: u64, site: u64) -> Wire
    ensures { result ≡ wire_of (word parent) (word resistance) (word capacitance) (word site) }
{
    Wire {
        parent: word_of(parent),
        resistance: Ohm(word_of(resistance)),
        capacitance: Femtofarad(word_of(capacitance)),
        site: word_of(site),
    }
}

#[tactic(auto, unfolding(entries::specs::Lines::pin_of))]
pub fn pin_read(load: u64, due: i64) -> Pin
    ensures { result ≡ pin_of (word load) due }
{
    Pin {
        load: Femtofarad(word_of(load)),
        due: Femtosecond(due),
    }
}
