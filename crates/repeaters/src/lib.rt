// A type of repeater by value, and the one reader of it from the tables.
#![tactic(auto)]

ghost use Rattle.std.specs.Prelude.{◌≡◌, ◌+◌, ◌*◌, ◌≤◌, ◌<◌, length};
ghost use Rattle.rules.specs.Quantities.{types_room};
ghost use Rattle.rules.specs.Tables.{words_a_type};
ghost use Rattle.repeaters.specs.Repeaters.{buffer_of, buffer_at};

use rooms::TYPE_WORDS;
use rooms::words::{TYPE_OWN, TYPE_RESISTANCE};
use rules::{Femtofarad, Femtosecond, Ohm};

// A type of repeater, its three quantities apart.
#[derive(Clone, Copy)]
pub struct Buffer {
    pub input: Femtofarad,
    pub resistance: Ohm,
    pub own: Femtosecond,
}

// The type that three numbers state.
pub fn repeater(input: u32, resistance: u32, own: u32) -> Buffer
    ensures { result ≡ buffer_of input resistance own }
{
    Buffer {
        input: Femtofarad(input),
        resistance: Ohm(resistance),
        own: units::time_of(own),
    }
}

// Type i of the tables, from 0.
pub fn type_at(types: &[u32], i: usize) -> Buffer
    requires { (i < types_room) × (words_a_type * i + words_a_type ≤ length types.now) }
    ensures { result ≡ buffer_at types.now i }
{
    let at = TYPE_WORDS * i;
    repeater(types[at], types[at + TYPE_RESISTANCE], types[at + TYPE_OWN])
}
