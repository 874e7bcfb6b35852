// What hangs at and below a row, by recursion over the tree: 256 less the row's number falls at each call. Only `below` recurses, and it
// works a row out after the call for the rows under it, so that little waits on the stack.
ghost use Rattle.std.specs.Prelude.{◌≡◌, ◌≤◌, ◌<◌, get_or};
ghost use Rattle.slack.specs.Walk.{ReadyIn, below_in, at_in, own_in};

use super::steps::sited;
use pairs::Pair;
use rooms::links::LINKS_ROOM;
use rules::Net;

// A walk over a net's tree, for a placement: with the words of its marks, and where the rows below each row stand. That it is ready is a
// clause of each step and no ghost field: it says by cases what is in its ranges, and a field would hold that truncated.
#[derive(Clone, Copy)]
pub struct Walk<'a> {
    pub net: &'a Net<'a>,
    pub words: &'a [u64],
    pub links: &'a [u16; LINKS_ROOM],
}

impl Walk<'_> {
    // What is at a row, from what hangs under it: its pin, or that, with the repeater of its site; its wire does not count.
    fn seen(&self, row: usize, under: Option<Pair>) -> Option<Pair>
        requires ready { ReadyIn self.now }
        requires row_lt_n { row < self.now.net.now.row_count }
        requires under_value { under ≡ below_in self.now (get_or self.now.links.now row 0) }
        ensures { result ≡ at_in self.now row }
    {
        let x = rows::row_at(self.net, row);
        let k = rows::sites_before(self.links, row);
        let driven = upward::started(x.kind, under);
        sited(self.net, self.words, x.site, k, driven)
    }

    // A row behind its wire, from what hangs under it.
    fn wired(&self, row: usize, under: Option<Pair>) -> Option<Pair>
        requires ready { ReadyIn self.now }
        requires le_row { (1 ≤ row) × (row < self.now.net.now.row_count) }
        requires under_value { under ≡ below_in self.now (get_or self.now.links.now row 0) }
        ensures { result ≡ own_in self.now row }
    {
        let h = self.seen(row, under);
        let x = rows::row_at(self.net, row);
        upward::behind_wire(h, x.resistance, x.capacitance)
    }

    // What hangs under the parent of row c among the rows from c on: row c behind its wire, beside the next row under the same parent and
    // those after it. The number past the last row ends them.
    fn below(&self, c: usize) -> Option<Pair>
        requires ready { ReadyIn self.now }
        requires le_c { (1 ≤ c) × (c ≤ self.now.net.now.row_count) }
        ensures { result ≡ below_in self.now c }
    {
        if self.net.row_count == c {
            return None;
        }
        let first = rows::first_below(self.links, c);
        let under = self.below(first);
        let own = self.wired(c, under);
        let next = rows::next_beside(self.links, c);
        let later = self.below(next);
        upward::beside(own, later)
    }

    // What is at the driver: the whole tree.
    pub fn at_driver(&self) -> Option<Pair>
        requires { ReadyIn self.now }
        ensures { result ≡ at_in self.now 0 }
    {
        let first = rows::first_below(self.links, 0);
        let under = self.below(first);
        self.seen(0, under)
    }
}
