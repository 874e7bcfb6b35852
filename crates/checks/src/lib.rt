// One line by value: what it states, and the first of 1, 2, 3, 4 that it is refused for after those that have passed.
#![tactic(auto)]

use repeaters::Buffer;
use rules::{Femtofarad, Ohm, Pin};

pub mod lines;
pub mod ranges;

// The wire of a row: the row above it, and what is there. The site is still a field's number.
#[derive(Clone, Copy)]
pub struct Wire {
    pub parent: u32,
    pub resistance: Ohm,
    pub capacitance: Femtofarad,
    pub site: u32,
}

// What a line states.
#[derive(Clone, Copy)]
pub enum Line {
    Repeater(Buffer),
    Driver(Ohm),
    Point(Wire),
    Sink(Wire, Pin),
}

// How many types, rows and sites have passed.
#[derive(Clone, Copy)]
pub struct Passed {
    pub types: usize,
    pub rows: usize,
    pub sites: usize,
}
