// The planner on a run of records of its own: each entry holds the run for its call, all zero, and lends it to the planner over records.
#![tactic(auto)]

ghost use Rattle.rules.specs.Promises.{PlanPromise, ListPromise, lent_net};
ghost use Rattle.rules.specs.Areas.{records, lent_of, list_areas, plan_areas, blank_run};
ghost use Rattle.rules.specs.Answers.{plan_figures};
ghost use Rattle.rules.specs.Tables.{net_tables, net_counts, table_entries};
ghost use Rattle.laws.specs.Picked.{Picks};

use rooms::WORK_ROOM;
use rules::{Net, Refusal, Timed};

// A placement of greatest slack, and of those the least load on the driver; its slack and that load.
pub fn plan_held(net: &Net<'_>, placement: &mut [u64]) -> Result<Timed, Refusal>
    ensures planned { PlanPromise records (lent_net net.now) (plan_areas placement.old blank_run) result (plan_areas placement.new blank_run) }
    ensures picked { Picks (table_entries (net_tables net.now) (net_counts net.now)) placement.old placement.new (plan_figures result).number }
{
    let mut run = [values::blank(); WORK_ROOM];
    records::plan_records(net, placement, &mut run)
}

// The unbeaten pairs at a row, written to the lent areas; how many there are.
pub fn list_held(
    net: &Net<'_>,
    row: usize,
    list_loads: &mut [u32],
    list_times: &mut [i64],
) -> Result<u32, Refusal>
    ensures { ListPromise records (lent_net net.now) row (list_areas (lent_of list_loads.old list_times.old) blank_run) result (list_areas (lent_of list_loads.new list_times.new) blank_run) }
{
    let mut run = [values::blank(); WORK_ROOM];
    records::listing::list_records(net, row, list_loads, list_times, &mut run)
}
