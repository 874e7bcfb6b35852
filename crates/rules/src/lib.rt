// The declared types of the paper: quantities that stay apart, rows, refusals, a net as it is lent, and what the entries answer. What they mean is
// in specs/.
#![tactic(auto)]

// A resistance.
#[derive(Clone, Copy, PartialEq, Eq)]
pub struct Ohm(pub u32);

// A load or a capacitance.
#[derive(Clone, Copy, PartialEq, Eq)]
pub struct Femtofarad(pub u32);

// A time. It is signed: a negative slack is a result like any other.
#[derive(Clone, Copy, PartialEq, Eq)]
pub struct Femtosecond(pub i64);

// What only a sink has.
#[derive(Clone, Copy)]
pub struct Pin {
    pub load: Femtofarad,
    pub due: Femtosecond,
}

// A candidate as it stands in a lent run of records: its load, its time, and the words of its placement.
#[derive(Clone, Copy)]
pub struct Cand {
    pub load: Femtofarad,
    pub time: Femtosecond,
    pub words: [u64; 4],
}

// A row is a driver, a plain point or a sink.
#[derive(Clone, Copy)]
pub enum Kind {
    Driver,
    Point,
    Sink(Pin),
}

// A row of a net. The resistance is the wire's, of the driver its own.
#[derive(Clone, Copy)]
pub struct Row {
    pub parent: u32,
    pub resistance: Ohm,
    pub capacitance: Femtofarad,
    pub site: bool,
    pub kind: Kind,
}

// Why something is refused, with the line where there is one.
#[derive(Clone, Copy, PartialEq, Eq)]
pub enum Refusal {
    Form(u32),
    Range(u32),
    Room(u32),
    Parent(u32),
    Childless(u32),
    Mark(u32),
    Short,
    NoRow,
}

// A net lent as tables: the words of its types and of its rows, the required times, and how many types and rows there are.
#[derive(Clone, Copy)]
pub struct Net<'a> {
    pub types: &'a [u32],
    pub rows: &'a [u32],
    pub due: &'a [i64],
    pub type_count: usize,
    pub row_count: usize,
}

// How many types and rows a text states, the driver included.
#[derive(Clone, Copy, PartialEq, Eq)]
pub struct Counted {
    pub types: u32,
    pub rows: u32,
}

// What a placement gives: its slack, and the load on the driver.
#[derive(Clone, Copy, PartialEq, Eq)]
pub struct Timed {
    pub slack: Femtosecond,
    pub load: Femtofarad,
}
