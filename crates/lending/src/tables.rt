// The tables that a program has: an area for each, how much of it is lent, and the counts that the tables are said to have.
ghost use Rattle.std.specs.Prelude.{◌≡◌, take};

use crate::stamps;
use rooms::{ROW_WORDS, ROWS_AREA, ROWS_ROOM, TYPE_WORDS, TYPES_AREA};
use rules::{Counted, Net};

// How many words of each area are lent: a length past the area lends all of it.
#[derive(Clone, Copy)]
pub struct Lent {
    pub types: usize,
    pub rows: usize,
    pub due: usize,
}

// Areas of more than their room: memory is fixed.
#[derive(Drop)]
pub struct Tables {
    pub types: [u32; 100],
    pub rows: [u32; 3000],
    pub due: [i64; 1000],
    pub lent: Lent,
    pub type_count: usize,
    pub row_count: usize,
}

impl Tables {
    pub fn new() -> Tables
        ensures types { result.type_count ≡ 0 }
        ensures rows { result.row_count ≡ 0 }
    {
        Tables {
            types: [0; 100],
            rows: [0; 3000],
            due: [0; 1000],
            lent: Lent {
                types: TYPES_AREA,
                rows: ROWS_AREA,
                due: ROWS_ROOM,
            },
            type_count: 0,
            row_count: 0,
        }
    }

    // The tables as they are lent.
    pub fn net(&self) -> Net<'_>
        ensures types { result.types.now ≡ take self.now.lent.types self.now.types }
        ensures rows { result.rows.now ≡ take self.now.lent.rows self.now.rows }
        ensures due { result.due.now ≡ take self.now.lent.due self.now.due }
        ensures type_count { result.type_count ≡ self.now.type_count }
        ensures row_count { result.row_count ≡ self.now.row_count }
    {
        let Lent { types, rows, due } = self.lent;
        Net {
            types: &self.types[..types.min(self.types.len())],
            rows: &self.rows[..rows.min(self.rows.len())],
            due: &self.due[..due.min(self.due.len())],
            type_count: self.type_count,
            row_count: self.row_count,
        }
    }

    pub fn stamp(&mut self) {
        stamps::stamp(&mut self.types);
        stamps::stamp(&mut self.rows);
        stamps::stamp(&mut self.due);
    }

    // Whether each area holds its stamps past the words in use.
    pub fn kept(&self, used: Counted) -> bool {
        stamps::kept(&self.types, TYPE_WORDS * used.types as usize)
            && stamps::kept(&self.rows, ROW_WORDS * used.rows as usize)
            && stamps::kept(&self.due, used.rows as usize)
    }

    // The sum over the words in use, types, then rows, then due, of word times position, from 1: so that a word changed or moved shows. A
    // negative time goes round, and so does the sum.
    pub fn sum(&self, used: Counted) -> u64 {
        let type_words = self.types.iter().take(TYPE_WORDS * used.types as usize);
        let row_words = self.rows.iter().take(ROW_WORDS * used.rows as usize);
        let times = self.due.iter().take(used.rows as usize);
        type_words
            .chain(row_words)
            .map(|w| u64::from(*w))
            .chain(times.map(|t| t.cast_unsigned()))
            .zip(1u64..)
            .fold(0u64, |sum, (word, place)| {
                sum.wrapping_add(word.wrapping_mul(place))
            })
    }
}
