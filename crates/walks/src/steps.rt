// What is done with one row's list: its pin put down, its site put on it, behind its wire, and joined with what is made already.
ghost use Rattle.std.specs.Prelude.{◌≡◌, ◌+◌, ◌-◌, ◌≤◌, ◌<◌, get_or};
ghost use Rattle.rules.specs.Quantities.{most_ohms, rows_room, work_room};
ghost use Rattle.rules.specs.Net.{wire_of};
ghost use Rattle.rooms.specs.Links.{sites_at};
ghost use Rattle.laws.specs.Joining.{join_marks};
ghost use Rattle.laws.specs.Steps.{merge};
ghost use Rattle.laws.specs.Moves.{wire_step};
ghost use Rattle.columns.specs.Parts.{part};
ghost use Rattle.columns.specs.Run.{run};
ghost use Rattle.columns.specs.Made.{Room, Gives};
ghost use Rattle.walks.specs.Shown.{site_list};
ghost use Rattle.walks.specs.Made.{GivenIn, RowThereIn, RoomIn, SeenIn, row_of, types_in, Wired, Hang, Sited, Started, Typed};
ghost use Rattle.walks.specs.Spine.{Rising, Spine};

use rooms::links::LINKS_ROOM;
use rules::{Kind, Net};

// A row's list, put behind the row's wire.
pub fn wire_row(
    net: &Net<'_>,
    loads: &mut [u32],
    times: &mut [i64],
    words: &mut [u64],
    row: usize,
    at: usize,
    n: usize,
) -> usize
    requires row_there { RowThereIn net.now row }
    requires room { Room loads.old times.old words.old }
    requires row_bound { (row_of net.now row).resistance.0 ≤ most_ohms }
    requires wired { Wired (run loads.old times.old words.old) at n (wire_of (row_of net.now row)) }
    ensures { Gives (run loads.old times.old words.old) (run loads.new times.new words.new) at result (wire_step (wire_of (row_of net.now row)) (part at (at + n) (run loads.old times.old words.old))) }
{
    let x = rows::row_at(net, row);
    wires::wire_list(loads, times, words, at, n, x.resistance, x.capacitance)
}

// A row's own list behind its wire, joined with the list of other rows under the same parent, which stands before it.
pub fn hang(
    net: &Net<'_>,
    loads: &mut [u32],
    times: &mut [i64],
    words: &mut [u64],
    row: usize,
    at: usize,
    m: usize,
    n: usize,
) -> usize
    requires row_there { RowThereIn net.now row }
    requires room { Room loads.old times.old words.old }
    requires row_bound { (row_of net.now row).resistance.0 ≤ most_ohms }
    requires hang { Hang (run loads.old times.old words.old) at m n (wire_of (row_of net.now row)) }
    ensures { Gives (run loads.old times.old words.old) (run loads.new times.new words.new) at result (merge join_marks (wire_step (wire_of (row_of net.now row)) (part (at + m) (at + m + n) (run loads.old times.old words.old))) (part at (at + m) (run loads.old times.old words.old))) }
{
    let k = wire_row(net, loads, times, words, row, at + m, n);
    branches::join_lists(loads, times, words, at, m, k)
}

// A sink's pin as the one candidate of a list; of any other row nothing is put.
pub fn start(
    net: &Net<'_>,
    loads: &mut [u32],
    times: &mut [i64],
    words: &mut [u64],
    row: usize,
    at: usize,
)
    requires row_there { RowThereIn net.now row }
    requires room { Room loads.old times.old words.old }
    requires at_lt_work_room { at < work_room }
    ensures { Started (row_of net.now row).kind (run loads.old times.old words.old) (run loads.new times.new words.new) at }
{
    if let Kind::Sink(pin) = rows::row_at(net, row).kind {
        columns::cells::put_pin(loads, times, words, at, pin.load, pin.due);
    }
}

// With the repeaters of the row's site, if it has one.
pub fn put_site(
    net: &Net<'_>,
    links: &[u16; LINKS_ROOM],
    loads: &mut [u32],
    times: &mut [i64],
    words: &mut [u64],
    row: usize,
    at: usize,
    n: usize,
) -> usize
    requires row_there { RowThereIn net.now row }
    requires typed { Typed net.now.types.now net.now.type_count }
    requires room { Room loads.old times.old words.old }
    requires sited { Sited (run loads.old times.old words.old) at n net.now.type_count (row_of net.now row).site (get_or links.now (sites_at + row) 0) }
    ensures { Gives (run loads.old times.old words.old) (run loads.new times.new words.new) at result (site_list (types_in net.now) (row_of net.now row).site (get_or links.now (sites_at + row) 0) (part at (at + n) (run loads.old times.old words.old))) }
{
    if rows::row_at(net, row).site {
        let k = rows::sites_before(links, row);
        sites::put_types(net, loads, times, words, at, n, k)
    } else {
        n
    }
}

// A sink's list, made at a place: its pin, and its site on it. The site is tested here and in `put_site`, so that a row without one costs no call.
pub fn pin_list(
    net: &Net<'_>,
    links: &[u16; LINKS_ROOM],
    loads: &mut [u32],
    times: &mut [i64],
    words: &mut [u64],
    row: usize,
    at: usize,
) -> usize
    requires given { GivenIn net.now links.now }
    requires row_lt_n { (row < net.now.row_count) × (get_or links.now row 0 ≡ net.now.row_count) }
    requires room { Room loads.old times.old words.old }
    requires has_room { RoomIn net.now row at }
    ensures { SeenIn net.now row (run loads.old times.old words.old) (run loads.new times.new words.new) at result }
{
    start(net, loads, times, words, row, at);
    if rows::row_at(net, row).site {
        let k = rows::sites_before(links, row);
        sites::put_types(net, loads, times, words, at, 1, k)
    } else {
        1
    }
}

// From a row down along first rows below to one that has none.
pub fn deepest(links: &[u16; LINKS_ROOM], n: usize, row: usize) -> usize
    requires row_lt_n { (row < n) × (n ≤ rows_room) }
    requires rising { Rising links.now n }
    ensures along { Spine links.now n row result }
    ensures end { (result < n) × (get_or links.now result 0 ≡ n) }
{
    let mut r = row;
    let mut c = rows::first_below(links, r);
    // The links lead down, so no range is walked.
    while c != n {
        r = c;
        c = rows::first_below(links, r);
    }
    r
}
