// Areas of words: an entry stored after those that have passed.
ghost use Rattle.std.specs.Prelude.{◌≡◌, [], ◌∷◌, ◌++◌, ◌+◌, ◌*◌, ◌≤◌, ◌<◌, pos, length, take};
ghost use Rattle.rules.specs.Tables.{words_a_type, words_a_row};
ghost use Rattle.rules.specs.Quantities.{types_room, rows_room};
ghost use Rattle.rooms.specs.Cap.{word_cap};
ghost use Rattle.entries.specs.Lines.{pin_of, wire_of};
ghost use Rattle.entries.specs.Held.{own_word, words_of_type, words_of_row, Roomy, Grown};

use checks::{Line, Passed, Wire};
use repeaters::Buffer;
use rooms::words::{
    DRIVER, POINT, ROW_CAPACITANCE, ROW_PARENT, ROW_PIN, ROW_RESISTANCE, ROW_SITE, SINK, TYPE_OWN,
    TYPE_RESISTANCE,
};
use rooms::{ROW_WORDS, TYPE_WORDS};
use rules::{Femtofarad, Femtosecond, Ohm, Pin, Refusal};

fn own_word(t: Femtosecond) -> u32
    requires { own_word t.0 < word_cap }
    ensures { result ≡ own_word t.0 }
{
    if t.0 < 0 { 0 } else { t.0 as u32 }
}

fn store_type(types: &mut [u32], i: usize, t: Buffer)
    requires { (i < types_room) × ((words_a_type * i + words_a_type ≤ length types.old) × (own_word t.own.0 < word_cap)) }
    ensures { take (words_a_type * (i + 1)) types.new ≡ take (words_a_type * i) types.old ++ words_of_type t }
{
    let at = TYPE_WORDS * i;
    types[at] = t.input.0;
    types[at + TYPE_RESISTANCE] = t.resistance.0;
    types[at + TYPE_OWN] = own_word(t.own);
}

fn store_words(rows: &mut [u32], i: usize, kind: u32, w: Wire, pin: u32)
    requires { (i < rows_room) × (words_a_row * i + words_a_row ≤ length rows.old) }
    ensures { take (words_a_row * (i + 1)) rows.new ≡ take (words_a_row * i) rows.old ++ words_of_row kind w pin }
{
    let at = ROW_WORDS * i;
    rows[at] = kind;
    rows[at + ROW_PARENT] = w.parent;
    rows[at + ROW_RESISTANCE] = w.resistance.0;
    rows[at + ROW_CAPACITANCE] = w.capacitance.0;
    rows[at + ROW_SITE] = w.site;
    rows[at + ROW_PIN] = pin;
}

fn store_due(due: &mut [i64], i: usize, time: i64)
    requires { i < length due.old }
    ensures { take (i + 1) due.new ≡ take i due.old ++ (time ∷ []) }
{
    due[i] = time;
}

fn store_row(rows: &mut [u32], due: &mut [i64], i: usize, kind: u32, w: Wire, p: Pin)
    requires { (i < rows_room) × ((words_a_row * i + words_a_row ≤ length rows.old) × (i < length due.old)) }
    ensures words { take (words_a_row * (i + 1)) rows.new ≡ take (words_a_row * i) rows.old ++ words_of_row kind w p.load.0 }
    ensures time { take (i + 1) due.new ≡ take i due.old ++ (p.due.0 ∷ []) }
{
    store_words(rows, i, kind, w, p.load.0);
    store_due(due, i, p.due.0);
}

// What a row without a pin has there.
#[tactic(auto, unfolding(crate::specs::Lines::pin_of))]
fn no_pin() -> Pin
    ensures { result ≡ pin_of 0 (pos 0) }
{
    Pin {
        load: Femtofarad(0),
        due: Femtosecond(0),
    }
}

// A driver has a resistance and no wire above it.
#[tactic(auto, unfolding(crate::specs::Lines::wire_of))]
fn no_wire(resistance: Ohm) -> Wire
    ensures { result ≡ wire_of 0 resistance.0 0 0 }
{
    Wire {
        parent: 0,
        resistance,
        capacitance: Femtofarad(0),
        site: 0,
    }
}

// The line's entry, stored after those that have passed; a refused line has none, and the areas stay as they are. The three areas are lent: a
// struct of three `&mut` would need a clause for each that it is still the same.
pub fn store_line(
    types: &mut [u32],
    rows: &mut [u32],
    due: &mut [i64],
    n: Passed,
    line: Result<Line, Refusal>,
)
    requires { Roomy n line × ((words_a_type * types_room ≤ length types.old) × ((words_a_row * rows_room ≤ length rows.old) × (rows_room ≤ length due.old))) }
    ensures { Grown n line types.old types.new rows.old rows.new due.old due.new }
{
    match line {
        Ok(Line::Repeater(t)) => store_type(types, n.types, t),
        Ok(Line::Driver(o)) => store_row(rows, due, n.rows, DRIVER, no_wire(o), no_pin()),
        Ok(Line::Point(w)) => store_row(rows, due, n.rows, POINT, w, no_pin()),
        Ok(Line::Sink(w, p)) => store_row(rows, due, n.rows, SINK, w, p),
        Err(_) => {}
    }
}
