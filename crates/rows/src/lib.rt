// One row of a table by value, and where the rows below each row stand, so that a walk over the tree reads each row once.
#![tactic(auto)]

ghost use Rattle.std.specs.Prelude.{◌≡◌, ◌+◌, ◌*◌, ◌≤◌, ◌<◌, length, get_or};
ghost use Rattle.rules.specs.Quantities.{rows_room};
ghost use Rattle.rules.specs.Tables.{words_a_row};
ghost use Rattle.rooms.specs.Links.{next_at, sites_at};
ghost use Rattle.laws.specs.Tabled.{row_at, rows_from};
ghost use Rattle.rows.specs.Links.{Links, Earlier, Counted, Standing};

use rooms::ROW_WORDS;
use rooms::links::{LINKS_ROOM, NEXT_AT, SITES_AT};
use rooms::words::{ROW_CAPACITANCE, ROW_PARENT, ROW_PIN, ROW_RESISTANCE, ROW_SITE};
use rules::{Femtofarad, Net, Ohm, Row};

pub mod backward;

pub fn row_at(net: &Net<'_>, i: usize) -> Row
    requires { (i < rows_room) × ((words_a_row * i + words_a_row ≤ length net.now.rows.now) × (i < length net.now.due.now)) }
    ensures { result ≡ row_at net.now.rows.now net.now.due.now i }
{
    let rows = net.rows;
    let at = ROW_WORDS * i;
    Row {
        parent: rows[at + ROW_PARENT],
        resistance: Ohm(rows[at + ROW_RESISTANCE]),
        capacitance: Femtofarad(rows[at + ROW_CAPACITANCE]),
        site: rows[at + ROW_SITE] == 1,
        kind: kinds::kind_of(rows[at], rows[at + ROW_PIN], net.due[i]),
    }
}

// How many sites come before each row; and no row is below any row so far.
fn count_sites(net: &Net<'_>, links: &mut [u16; LINKS_ROOM])
    requires standing { Standing net.now.rows.now net.now.due.now net.now.row_count }
    ensures { Counted (rows_from net.now.rows.now net.now.due.now 0 net.now.row_count) links.new }
{
    let n = net.row_count;
    let mut k = 0;
    for i in 0..n {
        links[i] = n as u16;
        links[SITES_AT + i] = k as u16;
        k = kinds::next_site(row_at(net, i).site, k);
    }
}

// From the last row to the first, each is put before the rows below its parent that are linked already.
fn link_rows(net: &Net<'_>, links: &mut [u16; LINKS_ROOM])
    requires standing { Standing net.now.rows.now net.now.due.now net.now.row_count }
    requires earlier { Earlier (rows_from net.now.rows.now net.now.due.now 0 net.now.row_count) }
    requires counted { Counted (rows_from net.now.rows.now net.now.due.now 0 net.now.row_count) links.old }
    ensures { Links (rows_from net.now.rows.now net.now.due.now 0 net.now.row_count) links.new }
{
    let n = net.row_count;
    for m in (1..n).rev() {
        let x = row_at(net, m);
        let p = x.parent as usize;
        links[NEXT_AT + m] = links[p];
        links[p] = m as u16;
    }
}

// Where the rows below each row stand, for a table whose rows hang under earlier ones.
pub fn link(net: &Net<'_>, links: &mut [u16; LINKS_ROOM])
    requires standing { Standing net.now.rows.now net.now.due.now net.now.row_count }
    requires earlier { Earlier (rows_from net.now.rows.now net.now.due.now 0 net.now.row_count) }
    ensures { Links (rows_from net.now.rows.now net.now.due.now 0 net.now.row_count) links.new }
{
    count_sites(net, links);
    link_rows(net, links);
}

// The first row below a row, as the links lead, or the number past the last row: no `Option`, since it promises what stands in the links,
// and the walks count on to that number.
pub fn first_below(links: &[u16; LINKS_ROOM], row: usize) -> usize
    requires { row < rows_room }
    ensures { result ≡ get_or links.now row 0 }
{
    usize::from(links[row])
}

// The next row below the same parent, or the number past the last row.
pub fn next_beside(links: &[u16; LINKS_ROOM], row: usize) -> usize
    requires { row < rows_room }
    ensures { result ≡ get_or links.now (next_at + row) 0 }
{
    usize::from(links[NEXT_AT + row])
}

// How many sites come before a row: the number of its own, if it has one.
pub fn sites_before(links: &[u16; LINKS_ROOM], row: usize) -> usize
    requires { row < rows_room }
    ensures { result ≡ get_or links.now (sites_at + row) 0 }
{
    usize::from(links[SITES_AT + row])
}
