// Planning a net: what is refused, and the work areas lent on at exactly their room. Of a longer work area the part beyond its room is not
// lent on.
#![tactic(auto)]

ghost use Rattle.std.specs.Prelude.{◌≡◌, ◌≤◌, ◌<◌, length, Ok};
ghost use Rattle.rules.specs.Quantities.{placement_room, list_room};
ghost use Rattle.rules.specs.Promises.{PlanPromise, ListPromise, LoadsPromise, lent_net};
ghost use Rattle.rules.specs.Areas.{columns, columns_of, lent_of, list_areas, loads_areas, plan_areas};
ghost use Rattle.rules.specs.Tables.{net_tables, net_counts, table_entries};
ghost use Rattle.rules.specs.Answers.{plan_figures};
ghost use Rattle.laws.specs.Checked.{Passed};
ghost use Rattle.laws.specs.Picked.{Picks, PickedOf};
ghost use Rattle.columns.specs.Made.{Room};
ghost use Rattle.plan.specs.Refusing.{judged_by};

use rooms::{WORDS_AREA, WORK_ROOM};
use rules::{Net, Refusal, Timed};

// Of a net that was accepted, in areas that have their room.
fn plan_accepted(
    net: &Net<'_>,
    placement: &mut [u64],
    loads: &mut [u32],
    times: &mut [i64],
    words: &mut [u64],
) -> Timed
    requires passed { Passed (net_tables net.now) (net_counts net.now) }
    requires placement_room_in_bounds { placement_room ≤ length placement.old }
    requires room { Room loads.old times.old words.old }
    ensures planned { PlanPromise columns (lent_net net.now) (plan_areas placement.old (columns_of loads.old times.old words.old)) (Ok result) (plan_areas placement.new (columns_of loads.new times.new words.new)) }
    ensures picked { PickedOf (table_entries (net_tables net.now) (net_counts net.now)) placement.old placement.new }
{
    chosen::plan_in(
        net,
        placement,
        &mut loads[..WORK_ROOM],
        &mut times[..WORK_ROOM],
        &mut words[..WORDS_AREA],
    )
}

// A placement of greatest slack, and of those the least load on the driver; its slack and that load.
pub fn plan_net(
    net: &Net<'_>,
    placement: &mut [u64],
    loads: &mut [u32],
    times: &mut [i64],
    words: &mut [u64],
) -> Result<Timed, Refusal>
    ensures planned { PlanPromise columns (lent_net net.now) (plan_areas placement.old (columns_of loads.old times.old words.old)) result (plan_areas placement.new (columns_of loads.new times.new words.new)) }
    ensures picked { Picks (table_entries (net_tables net.now) (net_counts net.now)) placement.old placement.new (plan_figures result).number }
{
    let own = rooms::short_placement(placement.len());
    let work = rooms::short_work(loads.len(), times.len(), words.len());
    net::check_tables(own | work, net)?;
    Ok(plan_accepted(net, placement, loads, times, words))
}

// What a list, or its loads alone, is refused for, of a net that was checked: 7 for an area that is lent comes first, and 8 last.
fn judged(
    checked: Result<(), Refusal>,
    own: bool,
    work: bool,
    n: usize,
    row: usize,
) -> Result<(), Refusal>
    ensures { result ≡ judged_by checked own work n row }
{
    if own || work {
        return Err(Refusal::Short);
    }
    checked?;
    if n <= row {
        return Err(Refusal::NoRow);
    }
    Ok(())
}

// Of a net that was accepted, in areas that have their room.
fn list_accepted(
    net: &Net<'_>,
    row: usize,
    list_loads: &mut [u32],
    list_times: &mut [i64],
    loads: &mut [u32],
    times: &mut [i64],
    words: &mut [u64],
) -> u32
    requires passed { Passed (net_tables net.now) (net_counts net.now) }
    requires row_lt_n { (row < net.now.row_count) × ((list_room ≤ length list_loads.old) × (list_room ≤ length list_times.old)) }
    requires room { Room loads.old times.old words.old }
    ensures { ListPromise columns (lent_net net.now) row (list_areas (lent_of list_loads.old list_times.old) (columns_of loads.old times.old words.old)) (Ok result) (list_areas (lent_of list_loads.new list_times.new) (columns_of loads.new times.new words.new)) }
{
    let length = chosen::list_in(
        net,
        row,
        list_loads,
        list_times,
        &mut loads[..WORK_ROOM],
        &mut times[..WORK_ROOM],
        &mut words[..WORDS_AREA],
    );
    length as u32
}

// The unbeaten pairs at a row, written to the lent areas; how many there are.
pub fn list_at(
    net: &Net<'_>,
    row: usize,
    list_loads: &mut [u32],
    list_times: &mut [i64],
    loads: &mut [u32],
    times: &mut [i64],
    words: &mut [u64],
) -> Result<u32, Refusal>
    ensures { ListPromise columns (lent_net net.now) row (list_areas (lent_of list_loads.old list_times.old) (columns_of loads.old times.old words.old)) result (list_areas (lent_of list_loads.new list_times.new) (columns_of loads.new times.new words.new)) }
{
    let own = rooms::short_list(list_loads.len(), list_times.len());
    let work = rooms::short_work(loads.len(), times.len(), words.len());
    judged(net::check_net(net), own, work, net.row_count, row)?;
    Ok(list_accepted(net, row, list_loads, list_times, loads, times, words))
}

// Of a net that was accepted, in areas that have their room.
fn loads_accepted(
    net: &Net<'_>,
    row: usize,
    list_loads: &mut [u32],
    loads: &mut [u32],
    times: &mut [i64],
    words: &mut [u64],
) -> u32
    requires passed { Passed (net_tables net.now) (net_counts net.now) }
    requires row_lt_n { (row < net.now.row_count) × (list_room ≤ length list_loads.old) }
    requires room { Room loads.old times.old words.old }
    ensures { LoadsPromise columns (lent_net net.now) row (loads_areas list_loads.old (columns_of loads.old times.old words.old)) (Ok result) (loads_areas list_loads.new (columns_of loads.new times.new words.new)) }
{
    let length = chosen::loads_in(
        net,
        row,
        list_loads,
        &mut loads[..WORK_ROOM],
        &mut times[..WORK_ROOM],
        &mut words[..WORDS_AREA],
    );
    length as u32
}

// The loads alone of the unbeaten pairs at a row, written to the lent area; how many there are. What `list_at` gives, without the times.
pub fn loads_at(
    net: &Net<'_>,
    row: usize,
    list_loads: &mut [u32],
    loads: &mut [u32],
    times: &mut [i64],
    words: &mut [u64],
) -> Result<u32, Refusal>
    ensures { LoadsPromise columns (lent_net net.now) row (loads_areas list_loads.old (columns_of loads.old times.old words.old)) result (loads_areas list_loads.new (columns_of loads.new times.new words.new)) }
{
    let own = rooms::short_area(list_loads.len());
    let work = rooms::short_work(loads.len(), times.len(), words.len());
    judged(net::check_net(net), own, work, net.row_count, row)?;
    Ok(loads_accepted(net, row, list_loads, loads, times, words))
}
