// Where the words of a type and of a row stand, counted from its first, and the numbers of the kinds. The first word of a type is its input
// load, the first of a row its kind.

pub const TYPE_RESISTANCE: usize = 1;

pub const TYPE_OWN: usize = 2;

pub const ROW_PARENT: usize = 1;

pub const ROW_RESISTANCE: usize = 2;

pub const ROW_CAPACITANCE: usize = 3;

pub const ROW_SITE: usize = 4;

pub const ROW_PIN: usize = 5;

pub const DRIVER: u32 = 0;

pub const POINT: u32 = 1;

pub const SINK: u32 = 2;

// Marks of a placement's word.
pub const MARKS_IN_WORD: usize = 16;
