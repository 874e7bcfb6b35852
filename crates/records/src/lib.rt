// Planning over a lent run of records: `plan_records` keeps the promise that `plan_net` keeps on columns. Another way to store, and not the same
// code at another type: `stands` proves the two alike.
#![tactic(auto)]

ghost use Rattle.std.specs.Prelude.{◌≡◌, ◌≤◌, length, Ok};
ghost use Rattle.rules.specs.Promises.{PlanPromise, lent_net};
ghost use Rattle.rules.specs.Quantities.{placement_room, work_room};
ghost use Rattle.rules.specs.Areas.{records, plan_areas};
ghost use Rattle.rules.specs.Answers.{plan_figures};
ghost use Rattle.rules.specs.Tables.{net_tables, net_counts, table_entries};
ghost use Rattle.laws.specs.Picked.{Picks};
ghost use Rattle.runs.specs.Passes.{Swept};
ghost use Rattle.records.specs.Entries.{ChoosesIn, driver_in, cleared, PlansIn, ChoseIn, Told, VerdictIn};

use rooms::{PLACEMENT_ROOM, WORK_ROOM};
use rules::{Cand, Femtosecond, Net, Refusal, Timed};
use turns::{Pass, Step};

pub mod listing;

// The first greatest of the list at the driver is held.
fn choose(run: &mut [Cand], net: &Net<'_>, len: usize) -> Pass
    requires { ChoosesIn net.now len run.old }
    ensures { Swept (driver_in net.now len) run.old result run.new }
{
    let driver = rows::row_at(net, 0);
    let best = Pass {
        step: Step::FirstChoice(Femtosecond(0), driver.resistance),
        left: len,
        ..turns::idle_at(0)
    };
    runs::passes::sweep(run, best)
}

// The room is left all zero.
fn clear(run: &mut [Cand])
    requires { work_room ≤ length run.old }
    ensures { run.new ≡ cleared run.old }
{
    let zeros = Pass {
        left: WORK_ROOM,
        ..turns::idle_at(0)
    };
    runs::passes::sweep(run, zeros);
}

// The list at the driver, the first greatest of it, and the run left all zero.
fn plan_in(run: &mut [Cand], net: &Net<'_>) -> Pass
    requires { PlansIn net.now run.old }
    ensures { ChoseIn net.now run.old run.new result }
{
    let len = sights::make(run, net, 0);
    let e = choose(run, net, len);
    clear(run);
    e
}

// The placement of the one held, put down, and its figures.
fn tell(placement: &mut [u64], e: Pass) -> Timed
    requires { placement_room ≤ length placement.old }
    ensures { Told e placement.old placement.new (Ok result) }
{
    placement[..PLACEMENT_ROOM].copy_from_slice(&e.held.words);
    Timed {
        slack: e.worth,
        load: e.held.load,
    }
}

// Refusal 7 for the entry's own areas comes first.
fn judge(net: &Net<'_>, placement: usize, work: usize) -> Result<(), Refusal>
    ensures { VerdictIn net.now placement work result }
{
    if rooms::short_placement(placement) || rooms::short_run(work) {
        return Err(Refusal::Short);
    }
    net::check_net(net)
}

// A placement of greatest slack, and of those the least load on the driver; its slack and that load.
pub fn plan_records(
    net: &Net<'_>,
    placement: &mut [u64],
    work: &mut [Cand],
) -> Result<Timed, Refusal>
    ensures planned { PlanPromise records (lent_net net.now) (plan_areas placement.old work.old) result (plan_areas placement.new work.new) }
    ensures picked { Picks (table_entries (net_tables net.now) (net_counts net.now)) placement.old placement.new (plan_figures result).number }
{
    judge(net, placement.len(), work.len())?;
    let best = plan_in(work, net);
    Ok(tell(placement, best))
}
