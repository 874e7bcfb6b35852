// The rooms of lent areas, the words of what stands in them, and whether an area is shorter than its room, or a text longer.
#![tactic(auto)]

ghost use Rattle.std.specs.Prelude.{◌≡◌, ltb};
ghost use Rattle.rules.specs.Quantities.{placement_room, list_room, work_room};
ghost use Rattle.rooms.specs.Rooms.{short_tables_by, unread, short_by, short_list_by};

use rules::Refusal;

pub mod links;
pub mod ranges;
pub mod words;

// Bytes of a text.
pub const TEXT_ROOM: usize = 32_768;

// Types, rows and sites of a net.
pub const TYPES_ROOM: usize = 4;

pub const ROWS_ROOM: usize = 256;

pub const SITES_ROOM: usize = 64;

// Words of a placement, pairs of a list, candidates of work.
pub const PLACEMENT_ROOM: usize = 4;

pub const LIST_ROOM: usize = 257;

pub const WORK_ROOM: usize = 768;

// Words of an exported call's answer.
pub const ANSWER_ROOM: usize = 3;

// Words of a type and of a row in the tables.
pub const TYPE_WORDS: usize = 3;

pub const ROW_WORDS: usize = 6;

// Words of all types, of all rows, and of the placements of all candidates.
pub const TYPES_AREA: usize = TYPE_WORDS * TYPES_ROOM;

pub const ROWS_AREA: usize = ROW_WORDS * ROWS_ROOM;

pub const WORDS_AREA: usize = PLACEMENT_ROOM * WORK_ROOM;

// Whether an area of the tables is shorter than its room.
pub fn short_tables(types: usize, rows: usize, due: usize) -> bool
    ensures { result ≡ short_tables_by types rows due }
{
    types < TYPES_AREA || rows < ROWS_AREA || due < ROWS_ROOM
}

// What a text is refused for before any line of it is read: 7 for an area that is lent, then its length.
pub fn check_text(short: bool, bytes: usize) -> Result<(), Refusal>
    ensures { result ≡ unread short bytes }
{
    if short {
        return Err(Refusal::Short);
    }
    if TEXT_ROOM < bytes {
        return Err(Refusal::Room(0));
    }
    Ok(())
}

// Each test of one length is a function of its own, since its contract names a room of `rules`: a const parameter would name it no plainer.

// Whether a placement has fewer words than its four.
pub fn short_placement(words: usize) -> bool
    ensures { result ≡ ltb words placement_room }
{
    words < PLACEMENT_ROOM
}

// Whether a run of records is shorter than its room.
pub fn short_run(records: usize) -> bool
    ensures { result ≡ ltb records work_room }
{
    records < WORK_ROOM
}

// Whether an area of the work is shorter than its room.
pub fn short_work(loads: usize, times: usize, words: usize) -> bool
    ensures { result ≡ short_by loads times words }
{
    loads < WORK_ROOM || times < WORK_ROOM || words < WORDS_AREA
}

// Whether the loads or the times of a list have less than their room.
pub fn short_area(places: usize) -> bool
    ensures { result ≡ ltb places list_room }
{
    places < LIST_ROOM
}

// Whether an area of the list is shorter than its room.
pub fn short_list(loads: usize, times: usize) -> bool
    ensures { result ≡ short_list_by loads times }
{
    short_area(loads) || short_area(times)
}
