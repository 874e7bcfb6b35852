// After the last line: the driver is there, and each row that is no sink has a row below it.
#![tactic(auto)]

ghost use Rattle.std.specs.Prelude.{◌≡◌, ◌+◌, ◌*◌, ◌≤◌, ◌<◌, length};
ghost use Rattle.rules.specs.Tables.{words_a_row};
ghost use Rattle.rules.specs.Quantities.{rows_room};
ghost use Rattle.ending.specs.Below.{found_with, marked_with, FirstChildless, FoundIn, Finished};
ghost use Rattle.checks.specs.Checks.{FewPassed};

use checks::Passed;
use checks::lines::place_of;
use rooms::words::{ROW_PARENT, SINK};
use rooms::{ROW_WORDS, ROWS_ROOM};
use rules::Refusal;

// The first childless row from row i on, from what was found after it. Marks are 0 or 1, as `found_with` and `marked_with` have them.
fn found_with(kind: u32, below: u8, i: usize, found: Option<usize>) -> Option<usize>
    ensures { result ≡ found_with kind below i found }
{
    if kind == SINK || below == 1 {
        found
    } else {
        Some(i)
    }
}

// The row above has a row below it.
fn mark(below: &mut [u8], parent: u32)
    requires { length below.old ≡ rows_room }
    ensures { below.new ≡ marked_with parent below.old }
{
    let above = parent as usize;
    if above < ROWS_ROOM {
        below[above] = 1;
    }
}

// The first of `count` rows that is no sink and has no row below it, from the last row back, since what lies below comes after.
fn first_childless(rows: &[u32], count: usize) -> Option<usize>
    requires { (count ≤ rows_room) × (words_a_row * count ≤ length rows.now) }
    ensures first { FirstChildless rows.now count result }
    ensures among { FoundIn count result }
{
    let mut below = [0u8; ROWS_ROOM];
    let mut found = None;
    for i in (0..count).rev() {
        let at = ROW_WORDS * i;
        found = found_with(rows[at], below[i], i, found);
        mark(&mut below, rows[at + ROW_PARENT]);
    }
    found
}

// After the last line: 1 where there is no driver, then 5.
pub fn finish(rows: &[u32], n: Passed) -> Result<Passed, Refusal>
    requires { FewPassed n × (words_a_row * n.rows ≤ length rows.now) }
    ensures { Finished rows.now n result }
{
    if n.rows == 0 {
        return Err(Refusal::Form(place_of(n)));
    }
    match first_childless(rows, n.rows) {
        Some(i) => Err(Refusal::Childless((n.types + i + 1) as u32)),
        None => Ok(n),
    }
}
