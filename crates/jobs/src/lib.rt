// What is done with a row's own list, pass by pass. At its site: its pin is put down, the best behind each type is chosen, and each is put
// in. Then it goes through the row's wire, and is joined with the list that waits before it.
#![tactic(auto)]

ghost use Rattle.std.specs.Prelude.{◌≤◌};
ghost use Rattle.rules.specs.Quantities.{types_room};
ghost use Rattle.jobs.specs.Jobs.{Able, Worked, RowOf, site_in, hang_in};

use rooms::links::LINKS_ROOM;
use rules::{Cand, Net};
use stages::Job;

pub mod making;

// All passes of a job; the length of the list that they leave. The job says whether a pass is left, as `Worked` does: a `for` would count
// beside it.
pub fn work(run: &mut [Cand], types: &[u32], job: Job) -> usize
    requires { Able types.now job run.old }
    ensures { Worked types.now job run.old run.new result }
{
    let mut j = job;
    while j.step < j.steps {
        let p = stages::begins::begin(types, j);
        let e = runs::passes::sweep(run, p);
        j = stages::ends::end(types, j, e);
    }
    j.own
}

// The list at row c: its pin, or what hangs under it, and its site. `RowOf` stays a clause: a net and its links are lent on as they are, and
// the row is another one at each call.
pub fn site(
    run: &mut [Cand],
    net: &Net<'_>,
    links: &[u16; LINKS_ROOM],
    c: usize,
    at: usize,
    under: usize,
) -> usize
    requires { RowOf net.now links.now c × ((net.now.type_count ≤ types_room) × Able net.now.types.now (site_in net.now links.now c at under) run.old) }
    ensures { Worked net.now.types.now (site_in net.now links.now c at under) run.old run.new result }
{
    let job = making::site_job(net, links, c, at, under);
    work(run, net.types, job)
}

// Row c's list behind its wire, and joined with the list that waits before it if there is a later row.
pub fn hang(
    run: &mut [Cand],
    net: &Net<'_>,
    links: &[u16; LINKS_ROOM],
    c: usize,
    at: usize,
    later: usize,
    own: usize,
) -> usize
    requires { RowOf net.now links.now c × Able net.now.types.now (hang_in net.now links.now c at later own) run.old }
    ensures { Worked net.now.types.now (hang_in net.now links.now c at later own) run.old run.new result }
{
    let job = making::hang_job(net, links, c, at, later, own);
    work(run, net.types, job)
}
