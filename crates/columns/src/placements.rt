// The four words of a candidate: read, put, copied, joined with another's, and one mark of them set.
ghost use Rattle.std.specs.Prelude.{◌+◌, ◌*◌, ◌≤◌, ◌<◌, ◌≡◌, length};
ghost use Rattle.rules.specs.Quantities.{sites_room, placement_room};
ghost use Rattle.marks.specs.Marks.{marks_end};
ghost use Rattle.rules.specs.Placements.{marks};
ghost use Rattle.laws.specs.Joining.{join_marks};
ghost use Rattle.laws.specs.Joining.{with_mark};
ghost use Rattle.columns.specs.Run.{place_at, Puts};

use rooms::PLACEMENT_ROOM;
use rooms::words::MARKS_IN_WORD;

// The words of candidate i. They are read one by one: the library's way from a slice to an array may fail.
pub fn words_at(words: &[u64], i: usize) -> [u64; PLACEMENT_ROOM]
    requires { placement_room * i + placement_room ≤ length words.now }
    ensures { marks result ≡ place_at words.now i }
{
    let at = PLACEMENT_ROOM * i;
    [words[at], words[at + 1], words[at + 2], words[at + 3]]
}

// One by one: the library's `copy_from_slice` compares the two places in every turn of a walk.
pub fn put_words(words: &mut [u64], i: usize, new: [u64; PLACEMENT_ROOM])
    requires { placement_room * i + placement_room ≤ length words.old }
    ensures { Puts words.old words.new i (marks new) }
{
    let at = PLACEMENT_ROOM * i;
    words[at] = new[0];
    words[at + 1] = new[1];
    words[at + 2] = new[2];
    words[at + 3] = new[3];
}

// Where nothing moves nothing is written.
pub fn copy_words(words: &mut [u64], from: usize, to: usize)
    requires { (placement_room * from + placement_room ≤ length words.old) × (placement_room * to + placement_room ≤ length words.old) }
    ensures { Puts words.old words.new to (place_at words.old from) }
{
    if from == to {
        return;
    }
    put_words(words, to, words_at(words, from));
}

// The words of candidates i and j joined, put at o. All are read before the first is written.
pub fn join_words(words: &mut [u64], i: usize, j: usize, o: usize)
    requires { (placement_room * i + placement_room ≤ length words.old) × ((placement_room * j + placement_room ≤ length words.old) × (placement_room * o + placement_room ≤ length words.old)) }
    ensures { Puts words.old words.new o (join_marks (place_at words.old i) (place_at words.old j)) }
{
    let joined = marks::joined(words_at(words, i), words_at(words, j));
    put_words(words, o, joined);
}

// The mark of site k of candidate i becomes m. Only the word that holds it is read and written.
pub fn mark_words(words: &mut [u64], i: usize, k: usize, m: u64)
    requires { (placement_room * i + placement_room ≤ length words.old) × ((k < sites_room) × (m < marks_end)) }
    ensures { Puts words.old words.new i (with_mark k m (place_at words.old i)) }
{
    let at = PLACEMENT_ROOM * i + k / MARKS_IN_WORD;
    let word = marks::with(words[at], k % MARKS_IN_WORD, m);
    words[at] = word;
}
