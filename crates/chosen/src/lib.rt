// What is chosen of the list at a row, in a work area of exactly its room: a placement at the driver, the list itself, or its loads.
#![tactic(auto)]

ghost use Rattle.std.specs.Prelude.{◌≤◌, ◌<◌, length};
ghost use Rattle.rules.specs.Quantities.{placement_room, list_room};
ghost use Rattle.rules.specs.Promises.{PlanOf, ListOf};
ghost use Rattle.rules.specs.Tables.{net_tables, net_counts, table_entries};
ghost use Rattle.rules.specs.Areas.{lent_of};
ghost use Rattle.laws.specs.Walk.{seen_at};
ghost use Rattle.laws.specs.Tabled.{rows_from, repeaters_from};
ghost use Rattle.laws.specs.Checked.{Passed};
ghost use Rattle.columns.specs.Run.{run};
ghost use Rattle.laws.specs.Picked.{PickedOf};
ghost use Rattle.columns.specs.Made.{Room};
ghost use Rattle.walks.specs.Made.{Made};
ghost use Rattle.chosen.specs.Promised.{timing_of, Exact, Zeroed, LoadsOf};

use entries::copies::copy_start;
use rooms::WORK_ROOM;
use rooms::links::LINKS_ROOM;
use rules::{Net, Timed};

// The list at a row, made at the start of the work area.
fn make(net: &Net<'_>, loads: &mut [u32], times: &mut [i64], words: &mut [u64], row: usize) -> usize
    requires passed { Passed (net_tables net.now) (net_counts net.now) }
    requires row_lt_n { row < net.now.row_count }
    requires room { Room loads.old times.old words.old }
    ensures { Made (repeaters_from net.now.types.now 0 net.now.type_count) (seen_at (rows_from net.now.rows.now net.now.due.now 0 net.now.row_count) row) (run loads.old times.old words.old) (run loads.new times.new words.new) 0 result }
{
    let mut links = [0u16; LINKS_ROOM];
    rows::backward::link_back(net, &mut links);
    walks::seen(net, &links, loads, times, words, row, 0)
}

// In a work area of exactly its room: the list at the driver, the placement chosen of it, and the area left all zero. Of several
// placements with the same slack and load it is always the same one, a function of the net: that is what `picked` says.
pub fn plan_in(
    net: &Net<'_>,
    placement: &mut [u64],
    loads: &mut [u32],
    times: &mut [i64],
    words: &mut [u64],
) -> Timed
    requires passed { Passed (net_tables net.now) (net_counts net.now) }
    requires placement_room_in_bounds { (placement_room ≤ length placement.old) × Exact loads.old times.old words.old }
    ensures planned { PlanOf (table_entries (net_tables net.now) (net_counts net.now)) placement.old placement.new (timing_of result.slack.0 result.load.0) }
    ensures cleared { Zeroed loads.new times.new words.new }
    ensures picked { PickedOf (table_entries (net_tables net.now) (net_counts net.now)) placement.old placement.new }
{
    let len = make(net, loads, times, words, 0);
    let t = picked::choose(net, loads, times, words, len, placement);
    clearing::clear(loads, times, words, WORK_ROOM);
    t
}

// In a work area of exactly its room: the list at a row copied to the lent areas, and the area left all zero.
pub fn list_in(
    net: &Net<'_>,
    row: usize,
    list_loads: &mut [u32],
    list_times: &mut [i64],
    loads: &mut [u32],
    times: &mut [i64],
    words: &mut [u64],
) -> usize
    requires passed { Passed (net_tables net.now) (net_counts net.now) }
    requires row_lt_n { (row < net.now.row_count) × ((list_room ≤ length list_loads.old) × (list_room ≤ length list_times.old)) }
    requires exact { Exact loads.old times.old words.old }
    ensures listed { ListOf (table_entries (net_tables net.now) (net_counts net.now)) row (lent_of list_loads.old list_times.old) (lent_of list_loads.new list_times.new) result }
    ensures cleared { Zeroed loads.new times.new words.new }
    ensures few { result ≤ list_room }
{
    let long = make(net, loads, times, words, row);
    copy_start(loads, list_loads, long);
    copy_start(times, list_times, long);
    clearing::clear(loads, times, words, WORK_ROOM);
    long
}

// In a work area of exactly its room: of the list at a row the loads alone copied to the lent area, and the area left all zero.
pub fn loads_in(
    net: &Net<'_>,
    row: usize,
    list_loads: &mut [u32],
    loads: &mut [u32],
    times: &mut [i64],
    words: &mut [u64],
) -> usize
    requires passed { Passed (net_tables net.now) (net_counts net.now) }
    requires row_lt_n { (row < net.now.row_count) × (list_room ≤ length list_loads.old) }
    requires exact { Exact loads.old times.old words.old }
    ensures listed { LoadsOf (table_entries (net_tables net.now) (net_counts net.now)) row list_loads.old list_loads.new result }
    ensures cleared { Zeroed loads.new times.new words.new }
    ensures few { result ≤ list_room }
{
    let len = make(net, loads, times, words, row);
    copy_start(loads, list_loads, len);
    clearing::clear(loads, times, words, WORK_ROOM);
    len
}
