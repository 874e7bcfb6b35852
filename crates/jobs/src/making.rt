// The jobs of a row.
ghost use Rattle.std.specs.Prelude.{◌≡◌, ◌≤◌};
ghost use Rattle.rules.specs.Quantities.{types_room};
ghost use Rattle.jobs.specs.Jobs.{RowOf, pin_of, begun, site_in, hang_in};

use rooms::TYPES_ROOM;
use rooms::links::LINKS_ROOM;
use rules::{Cand, Kind, Net, Row};
use stages::Job;

fn pin_of(kind: Kind) -> Cand
    ensures { result ≡ pin_of kind }
{
    match kind {
        Kind::Driver | Kind::Point => values::blank(),
        Kind::Sink(pin) => values::unmarked(pin.load, pin.due),
    }
}

// On the list of row x, with no pass to make and nothing chosen.
fn begun(x: Row, at: usize, own: usize) -> Job
    ensures { result ≡ begun x at own }
{
    let none = values::blank();
    Job {
        step: 0,
        steps: 0,
        low: at,
        later: 0,
        own,
        made: 0,
        count: 0,
        site: 0,
        sink: false,
        pin: none,
        resistance: x.resistance,
        capacitance: x.capacitance,
        best: [none; TYPES_ROOM],
    }
}

// At row c: its pin or what hangs under it, and its site.
pub fn site_job(net: &Net<'_>, links: &[u16; LINKS_ROOM], c: usize, at: usize, own: usize) -> Job
    requires { RowOf net.now links.now c × (net.now.type_count ≤ types_room) }
    ensures { result ≡ site_in net.now links.now c at own }
{
    let x = rows::row_at(net, c);
    let count = if x.site { net.type_count } else { 0 };
    Job {
        steps: count + count + 1,
        count,
        site: rows::sites_before(links, c),
        sink: kinds::is_sink(x.kind),
        pin: pin_of(x.kind),
        ..begun(x, at, own)
    }
}

// Behind row c's wire, and joined with the list that waits before it if there is a later row.
pub fn hang_job(
    net: &Net<'_>,
    links: &[u16; LINKS_ROOM],
    c: usize,
    at: usize,
    later: usize,
    own: usize,
) -> Job
    requires { RowOf net.now links.now c }
    ensures { result ≡ hang_in net.now links.now c at later own }
{
    let x = rows::row_at(net, c);
    let waits = rows::next_beside(links, c) < net.row_count;
    Job {
        step: 1,
        steps: if waits { 4 } else { 2 },
        later,
        ..begun(x, at, own)
    }
}
