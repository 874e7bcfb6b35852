// The planner's recursion over the table, in the run: the list of what hangs from a row on, and the list at a row.
#![tactic(auto)]

ghost use Rattle.std.specs.Prelude.{◌≡◌};
ghost use Rattle.laws.specs.Tabled.{rows_from};
ghost use Rattle.rows.specs.Links.{Standing, Earlier, Links};
ghost use Rattle.jobs.specs.Jobs.{RowOf};
ghost use Rattle.sights.specs.Hanging.{next_of, first_in, HangsIn, HungIn, FollowsIn, SeesIn, SeenIn, MakesIn};

use rooms::links::LINKS_ROOM;
use rules::{Cand, Net};

// The first row below row c, or the number past the last row: a sink has none below it.
pub fn first_at(net: &Net<'_>, links: &[u16; LINKS_ROOM], c: usize) -> usize
    requires { RowOf net.now links.now c }
    ensures { result ≡ first_in net.now links.now c }
{
    if kinds::is_sink(rows::row_at(net, c).kind) {
        net.row_count
    } else {
        rows::first_below(links, c)
    }
}

// The list of row c behind its wire and of the rows after it under the same parent, made at a place: the later rows first, the row's own
// after them. Past the last row there is nothing.
#[cycle(below_beside_seen)]
pub fn below(
    run: &mut [Cand],
    net: &Net<'_>,
    links: &[u16; LINKS_ROOM],
    c: usize,
    at: usize,
) -> usize
    requires { HangsIn net.now links.now c at run.old }
    ensures { HungIn net.now c at run.old run.new result }
{
    if c < net.row_count {
        let later = beside(run, net, links, c, at);
        let own = seen(run, net, links, c, at + later);
        jobs::hang(run, net, links, c, at, later, own)
    } else {
        0
    }
}

// The list of the rows after row c under the same parent.
#[cycle(below_beside_seen)]
pub fn beside(
    run: &mut [Cand],
    net: &Net<'_>,
    links: &[u16; LINKS_ROOM],
    c: usize,
    at: usize,
) -> usize
    requires { FollowsIn net.now links.now c at run.old }
    ensures { HungIn net.now (next_of links.now c) at run.old run.new result }
{
    let next = rows::next_beside(links, c);
    below(run, net, links, next, at)
}

// The list at row c: its pin, or what hangs under it, and its site.
#[cycle(below_beside_seen)]
pub fn seen(
    run: &mut [Cand],
    net: &Net<'_>,
    links: &[u16; LINKS_ROOM],
    c: usize,
    at: usize,
) -> usize
    requires { SeesIn net.now links.now c at run.old }
    ensures { SeenIn net.now c at run.old run.new result }
{
    let first = first_at(net, links, c);
    let under = below(run, net, links, first, at);
    jobs::site(run, net, links, c, at, under)
}

// Where the rows below each row stand.
pub fn links_of(net: &Net<'_>) -> [u16; LINKS_ROOM]
    requires { Standing net.now.rows.now net.now.due.now net.now.row_count × Earlier (rows_from net.now.rows.now net.now.due.now 0 net.now.row_count) }
    ensures { Links (rows_from net.now.rows.now net.now.due.now 0 net.now.row_count) result }
{
    let mut links = [0; LINKS_ROOM];
    rows::link(net, &mut links);
    links
}

// The list at a row of a net that was accepted.
pub fn make(run: &mut [Cand], net: &Net<'_>, row: usize) -> usize
    requires { MakesIn net.now row run.old }
    ensures { SeenIn net.now row 0 run.old run.new result }
{
    seen(run, net, &links_of(net), row, 0)
}
