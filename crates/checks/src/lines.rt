// The checks of one line after those that have passed, shared by texts and tables: in one line 1, 2, 3, 4.
ghost use Rattle.std.specs.Prelude.{◌≡◌, false, ◌+◌, ◌*◌, ◌≤◌, ◌<◌, ltb, leb, eqb, length};
ghost use Rattle.rules.specs.Tables.{words_a_row};
ghost use Rattle.rules.specs.Quantities.{most_ohms, rows_room, types_room};
ghost use Rattle.checks.specs.Checks.{checking, first_of, type_out, many_rows, no_parent_in, place_at, check_of, FewPassed};

use super::ranges::{sink_out, type_out, wire_out};
use super::{Line, Passed, Wire};
use repeaters::Buffer;
use rooms::ranges::MOST_OHMS;
use rooms::words::SINK;
use rooms::{ROW_WORDS, ROWS_ROOM, SITES_ROOM, TYPES_ROOM};
use rules::{Ohm, Refusal};

// The number of the line after those that have passed.
pub fn place_of(n: Passed) -> u32
    requires { FewPassed n }
    ensures { result ≡ place_at n }
{
    (n.types + n.rows + 1) as u32
}

fn first_of(form: bool, range: bool, room: bool, parent: bool, place: u32) -> Result<(), Refusal>
    ensures { result ≡ checking (first_of form range room parent place) }
{
    if form {
        return Err(Refusal::Form(place));
    }
    if range {
        return Err(Refusal::Range(place));
    }
    if room {
        return Err(Refusal::Room(place));
    }
    if parent {
        return Err(Refusal::Parent(place));
    }
    Ok(())
}

fn many_rows(n: Passed, site: u32) -> bool
    ensures { result ≡ many_rows n site }
{
    ROWS_ROOM <= n.rows || site == 1 && SITES_ROOM <= n.sites
}

fn no_parent(rows: &[u32], count: usize, parent: u32) -> bool
    requires { (count ≤ rows_room) × (words_a_row * count ≤ length rows.now) }
    ensures { result ≡ no_parent_in rows.now count parent }
{
    let above = parent as usize;
    count <= above || rows[ROW_WORDS * above] == SINK
}

pub fn check_type(n: Passed, t: Buffer) -> Result<(), Refusal>
    requires { FewPassed n }
    ensures { result ≡ checking (first_of (ltb 0 n.rows) (type_out t) (leb types_room n.types) false (place_at n)) }
{
    first_of(
        0 < n.rows,
        type_out(t),
        TYPES_ROOM <= n.types,
        false,
        place_of(n),
    )
}

pub fn check_driver(n: Passed, o: Ohm) -> Result<(), Refusal>
    requires { FewPassed n }
    ensures { result ≡ checking (first_of (ltb 0 n.rows) (ltb most_ohms o.0) false false (place_at n)) }
{
    first_of(0 < n.rows, MOST_OHMS < o.0, false, false, place_of(n))
}

// A row whose fields are out of range, or are not.
pub fn check_row(rows: &[u32], n: Passed, w: Wire, out: bool) -> Result<(), Refusal>
    requires { FewPassed n × (words_a_row * n.rows ≤ length rows.now) }
    ensures { result ≡ checking (first_of (eqb n.rows 0) out (many_rows n w.site) (no_parent_in rows.now n.rows w.parent) (place_at n)) }
{
    let many = many_rows(n, w.site);
    let orphan = no_parent(rows, n.rows, w.parent);
    first_of(n.rows == 0, out, many, orphan, place_of(n))
}

// The first of 1, 2, 3, 4 that a line is refused for, after those that have passed and whose rows stand in `rows`. One that its reader refused
// keeps that refusal.
pub fn check_line(rows: &[u32], n: Passed, line: Result<Line, Refusal>) -> Result<(), Refusal>
    requires { FewPassed n × (words_a_row * n.rows ≤ length rows.now) }
    ensures { result ≡ check_of rows.now n line }
{
    match line? {
        Line::Repeater(t) => check_type(n, t),
        Line::Driver(o) => check_driver(n, o),
        Line::Point(w) => check_row(rows, n, w, wire_out(w)),
        Line::Sink(w, p) => check_row(rows, n, w, sink_out(w, p)),
    }
}
