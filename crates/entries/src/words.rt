// The rows of a table checked by their words.
ghost use Rattle.std.specs.Prelude.{◌≡◌, ◌+◌, ◌*◌, ◌≤◌, ◌<◌, length, get_or};
ghost use Rattle.rules.specs.Tables.{words_a_row, point_kind, sink_kind, row_parent, row_resistance, row_capacitance, row_site};
ghost use Rattle.rules.specs.Quantities.{rows_room};
ghost use Rattle.checks.specs.Checks.{FewPassed};
ghost use Rattle.entries.specs.Lines.{wire_of};
ghost use Rattle.entries.specs.Entries.{words_check, DriverChecked, row_check};

use checks::lines::{check_driver, check_row, place_of};
use checks::ranges::{sink_out, wire_out};
use checks::{Passed, Wire};
use rooms::ROW_WORDS;
use rooms::words::{
    DRIVER, POINT, ROW_CAPACITANCE, ROW_PARENT, ROW_PIN, ROW_RESISTANCE, ROW_SITE, SINK,
};
use rules::{Femtofarad, Femtosecond, Net, Ohm, Pin, Refusal};

#[tactic(auto, unfolding(crate::specs::Lines::wire_of))]
fn wire_at(rows: &[u32], i: usize) -> Wire
    requires { (i < rows_room) × (words_a_row * i + words_a_row ≤ length rows.now) }
    ensures { result ≡ wire_of (get_or rows.now (words_a_row * i + row_parent) 0) (get_or rows.now (words_a_row * i + row_resistance) 0) (get_or rows.now (words_a_row * i + row_capacitance) 0) (get_or rows.now (words_a_row * i + row_site) 0) }
{
    let at = ROW_WORDS * i;
    Wire {
        parent: rows[at + ROW_PARENT],
        resistance: Ohm(rows[at + ROW_RESISTANCE]),
        capacitance: Femtofarad(rows[at + ROW_CAPACITANCE]),
        site: rows[at + ROW_SITE],
    }
}

// A driver's line has a resistance and nothing else.
fn check_driver_words(n: Passed, w: Wire, pin: u32, due: i64) -> Result<(), Refusal>
    requires { FewPassed n }
    ensures { DriverChecked n w pin due result }
{
    if w.parent != 0 || w.capacitance.0 != 0 || w.site != 0 || pin != 0 || due != 0 {
        return Err(Refusal::Form(place_of(n)));
    }
    check_driver(n, w.resistance)
}

// A plain point's line has no pin and no required time.
fn check_point_words(rows: &[u32], n: Passed, w: Wire, pin: u32, due: i64) -> Result<(), Refusal>
    requires { FewPassed n × (words_a_row * n.rows ≤ length rows.now) }
    ensures { result ≡ words_check rows.now n point_kind w pin due }
{
    if pin != 0 || due != 0 {
        return Err(Refusal::Form(place_of(n)));
    }
    check_row(rows, n, w, wire_out(w))
}

fn check_sink_words(rows: &[u32], n: Passed, w: Wire, pin: u32, due: i64) -> Result<(), Refusal>
    requires { FewPassed n × (words_a_row * n.rows ≤ length rows.now) }
    ensures { result ≡ words_check rows.now n sink_kind w pin due }
{
    let p = Pin {
        load: Femtofarad(pin),
        due: Femtosecond(due),
    };
    check_row(rows, n, w, sink_out(w, p))
}

// A row's words, checked as the line that they state would be; no line is made of them, for speed.
fn check_words(
    rows: &[u32],
    n: Passed,
    kind: u32,
    w: Wire,
    pin: u32,
    due: i64,
) -> Result<(), Refusal>
    requires { FewPassed n × (words_a_row * n.rows ≤ length rows.now) }
    ensures { result ≡ words_check rows.now n kind w pin due }
{
    match kind {
        DRIVER => check_driver_words(n, w, pin, due),
        POINT => check_point_words(rows, n, w, pin, due),
        SINK => check_sink_words(rows, n, w, pin, due),
        _ => Err(Refusal::Form(place_of(n))),
    }
}

// Row i of the tables, checked after those that have passed.
pub fn check_row_at(net: &Net<'_>, n: Passed, i: usize) -> Result<(), Refusal>
    requires { (FewPassed n × (words_a_row * n.rows ≤ length net.now.rows.now)) × ((i < rows_room) × ((words_a_row * i + words_a_row ≤ length net.now.rows.now) × (i < length net.now.due.now))) }
    ensures { result ≡ row_check net.now.rows.now net.now.due.now n i }
{
    let rows = net.rows;
    let at = ROW_WORDS * i;
    let time = net.due[i];
    check_words(
        rows,
        n,
        rows[at],
        wire_at(rows, i),
        rows[at + ROW_PIN],
        time,
    )
}
