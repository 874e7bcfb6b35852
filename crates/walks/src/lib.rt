// The recursion over the table: the list at a row, and the list of what hangs under a row. Of the rows under the same parent the list of
// the first, as the links lead, is made first, by a loop; only the rows after it recurse.
#![tactic(auto)]

ghost use Rattle.std.specs.Prelude.{◌+◌, ◌-◌, ◌<◌, get_or};
ghost use Rattle.columns.specs.Run.{run};
ghost use Rattle.columns.specs.Made.{Room};
ghost use Rattle.walks.specs.Made.{GivenIn, RoomIn, SeenIn, UnderIn};

use rooms::links::LINKS_ROOM;
use rules::Net;

mod steps;

// The list at a row, made at a place: from the deepest row up, each row's list is put under the row above it, and that row's site on it.
#[cycle(below_seen)]
pub fn seen(
    net: &Net<'_>,
    links: &[u16; LINKS_ROOM],
    loads: &mut [u32],
    times: &mut [i64],
    words: &mut [u64],
    row: usize,
    at: usize,
) -> usize
    requires given { GivenIn net.now links.now }
    requires row_lt_n { row < net.now.row_count }
    requires room { Room loads.old times.old words.old }
    requires has_room { RoomIn net.now row at }
    ensures { SeenIn net.now row (run loads.old times.old words.old) (run loads.new times.new words.new) at result }
{
    let mut r = steps::deepest(links, net.row_count, row);
    steps::start(net, loads, times, words, r, at);
    let mut m = 1;
    // Up the links from the deepest row: no range is walked.
    loop {
        let len = steps::put_site(net, links, loads, times, words, r, at, m);
        if r == row {
            return len;
        }
        r = rows::row_at(net, r).parent as usize;
        m = below(net, links, loads, times, words, r, at, len);
    }
}

// The list of what hangs under row p, made at a place where the list at p's first row below stands: that one behind its wire, then each row
// that the links lead to under p, its own list after what is made already. A sink's list is made here, so that only other rows recurse.
#[cycle(below_seen)]
pub fn below(
    net: &Net<'_>,
    links: &[u16; LINKS_ROOM],
    loads: &mut [u32],
    times: &mut [i64],
    words: &mut [u64],
    p: usize,
    at: usize,
    len: usize,
) -> usize
    requires given { GivenIn net.now links.now }
    requires p_lt_n { (p < net.now.row_count) × (get_or links.now p 0 < net.now.row_count) }
    requires room { Room loads.old times.old words.old }
    requires has_room { RoomIn net.now p at }
    requires made { SeenIn net.now (get_or links.now p 0) (run loads.old times.old words.old) (run loads.old times.old words.old) at len }
    ensures { UnderIn net.now p (run loads.old times.old words.old) (run loads.new times.new words.new) at result }
{
    let mut c = rows::first_below(links, p);
    let mut m = steps::wire_row(net, loads, times, words, c, at, len);
    // Along the links: no range is walked.
    loop {
        c = rows::next_beside(links, c);
        if c == net.row_count {
            return m;
        }
        let own = if rows::first_below(links, c) == net.row_count {
            steps::pin_list(net, links, loads, times, words, c, at + m)
        } else {
            seen(net, links, loads, times, words, c, at + m)
        };
        m = steps::hang(net, loads, times, words, c, at, m, own);
    }
}
