// The words of a placement: sixteen marks of four bits to a word, four words. One mark is read or set by shifts and masks, and the
// words of two placements are joined by or.
#![tactic(auto)]

ghost use Rattle.std.specs.Prelude.{◌≡◌, ◌≤◌, ◌<◌, length};
ghost use Rattle.rules.specs.Quantities.{sites_room, placement_room};
ghost use Rattle.rules.specs.Placements.{mark_in, marks};
ghost use Rattle.marks.specs.Marks.{marks_in_word, marks_end};
ghost use Rattle.laws.specs.Joining.{with_mark, join_marks};

use rooms::PLACEMENT_ROOM;
use rooms::words::MARKS_IN_WORD;

// The mark at place i of a word.
pub fn read(word: u64, i: usize) -> u64
    requires { i < marks_in_word }
    ensures value { result ≡ mark_in word i }
    ensures size { result < marks_end }
{
    (word >> (4 * i)) & 15
}

// The word with m at place i, whatever stood there before.
pub fn with(word: u64, i: usize, m: u64) -> u64
    requires { (i < marks_in_word) × (m < marks_end) }
    ensures { mark_in result ≡ with_mark i m (mark_in word) }
{
    let at = 4 * i;
    let mask: u64 = 15 << at;
    (word & !mask) | (m << at)
}

// The placement with m at site j.
pub fn with_mark(words: [u64; PLACEMENT_ROOM], j: usize, m: u64) -> [u64; PLACEMENT_ROOM]
    requires { (j < sites_room) × (m < marks_end) }
    ensures { marks result ≡ with_mark j m (marks words) }
{
    let at = j / MARKS_IN_WORD;
    let mut next = words;
    next[at] = with(words[at], j % MARKS_IN_WORD, m);
    next
}

// Two placements as one. Where branches meet, no site is marked in both.
pub fn joined(a: [u64; PLACEMENT_ROOM], b: [u64; PLACEMENT_ROOM]) -> [u64; PLACEMENT_ROOM]
    ensures { marks result ≡ join_marks (marks a) (marks b) }
{
    [a[0] | b[0], a[1] | b[1], a[2] | b[2], a[3] | b[3]]
}

// The mark of site j of a lent placement. Of a longer area the part beyond is not read. It is a number, 0 for none, as it stands in the
// words that C lends.
pub fn mark_of(words: &[u64], j: usize) -> u64
    requires { (j < sites_room) × (placement_room ≤ length words.now) }
    ensures value { result ≡ marks words.now j }
    ensures size { result < marks_end }
{
    let at = j / MARKS_IN_WORD;
    let word = words[at];
    read(word, j % MARKS_IN_WORD)
}
