// Where the rows below each row stand, in the order in which the planner takes them: later ones before earlier ones, but for sinks.
ghost use Rattle.std.specs.Prelude.{◌≡◌, ◌+◌, ◌≤◌, ◌<◌, get_or, set};
ghost use Rattle.rules.specs.Quantities.{rows_room};
ghost use Rattle.rooms.specs.Links.{next_at, sites_at};
ghost use Rattle.laws.specs.Tabled.{rows_from};
ghost use Rattle.rows.specs.Links.{Earlier, Standing};
ghost use Rattle.rows.specs.Backward.{Backward, Slot};

use crate::{first_below, row_at};
use rooms::links::{LINKS_ROOM, NEXT_AT, SITES_AT};
use rules::{Net, Row};

// Where a row is put into the links: as the first of the rows below its parent, or, if it is a sink and the first is none, right after the
// first. So a walk that goes down along first rows comes to a sink only where all rows below the same parent are sinks.
fn slot(net: &Net<'_>, links: &[u16; LINKS_ROOM], x: &Row) -> usize
    requires standing { Standing net.now.rows.now net.now.due.now net.now.row_count }
    requires parent_lt_n { x.now.parent < net.now.row_count }
    ensures { Slot links.now net.now.row_count x.now.parent result }
{
    let p = x.parent as usize;
    let first = first_below(links, p);
    if kinds::is_sink(x.kind) && first < net.row_count && !kinds::is_sink(row_at(net, first).kind) {
        return NEXT_AT + first;
    }
    p
}

// Row i is put into the links at place q, before what stood there; nothing is below it so far.
fn put_row(links: &mut [u16; LINKS_ROOM], n: usize, i: usize, q: usize, k: usize)
    requires q_lt_sites_at { (q < sites_at) × ((i < n) × (n ≤ rows_room)) }
    requires k_le_rows_room { k ≤ rows_room }
    ensures { links.new ≡ set (set (set (set links.old (next_at + i) (get_or links.old q 0)) q i) i n) (sites_at + i) k }
{
    links[NEXT_AT + i] = links[q];
    links[q] = i as u16;
    links[i] = n as u16;
    links[SITES_AT + i] = k as u16;
}

// Where the rows below each row stand, in one pass, for a table whose rows hang under earlier ones.
pub fn link_back(net: &Net<'_>, links: &mut [u16; LINKS_ROOM])
    requires standing { Standing net.now.rows.now net.now.due.now net.now.row_count }
    requires earlier { Earlier (rows_from net.now.rows.now net.now.due.now 0 net.now.row_count) }
    ensures { Backward (rows_from net.now.rows.now net.now.due.now 0 net.now.row_count) links.new }
{
    let n = net.row_count;
    links[0] = n as u16;
    links[SITES_AT] = 0;
    let mut k = kinds::next_site(row_at(net, 0).site, 0);
    for i in 1..n {
        let x = row_at(net, i);
        let q = slot(net, links, &x);
        put_row(links, n, i, q, k);
        k = kinds::next_site(x.site, k);
    }
}
