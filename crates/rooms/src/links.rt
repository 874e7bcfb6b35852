// The area of links: for each row the first row below it, then for each the next below the same parent, then how many sites come before each.
use crate::ROWS_ROOM;

pub const NEXT_AT: usize = ROWS_ROOM;

pub const SITES_AT: usize = NEXT_AT + ROWS_ROOM;

pub const LINKS_ROOM: usize = SITES_AT + ROWS_ROOM;
