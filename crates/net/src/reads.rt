// A text, line by line, into areas that hold what has passed.
ghost use Rattle.std.specs.Prelude.{◌+◌, ◌*◌, ◌<◌};
ghost use Rattle.checks.specs.Checks.{FewPassed};
ghost use Rattle.net.specs.Steps.{Rooms, LineTaken, AllTaken};
ghost use Rattle.net.specs.Filled.{ReadAfter};
ghost use Rattle.rules.specs.Tables.{tables_of};

use super::lines::read_line;
use checks::Passed;
use checks::lines::{check_line, place_of};
use ending::finish;
use entries::areas::store_line;
use entries::copies::copy_start;
use entries::counts::passed_with;
use rooms::{ROW_WORDS, ROWS_AREA, ROWS_ROOM, TYPE_WORDS, TYPES_AREA};
use rules::{Counted, Refusal};
use text::stretch_end;

const LINE_FEED: u8 = b'\n';

// The three areas are lent as slices: a struct of three `&mut` would need a clause for each, in every contract, that it is still the same.

// One line: read, checked and stored, or refused.
fn take_line(
    line: &[u8],
    types: &mut [u32],
    rows: &mut [u32],
    due: &mut [i64],
    n: Passed,
) -> Result<Passed, Refusal>
    requires { FewPassed n × Rooms types.old rows.old due.old }
    ensures { LineTaken line.now types.old rows.old due.old n result types.new rows.new due.new }
{
    let read = read_line(line, place_of(n));
    check_line(rows, n, read)?;
    store_line(types, rows, due, n, read);
    Ok(passed_with(n, read))
}

// All lines, and then the checks after the last. A line is found by where the one before it ends, so the place is no index that is counted.
pub fn read_lines(
    text: &[u8],
    types: &mut [u32],
    rows: &mut [u32],
    due: &mut [i64],
) -> Result<Passed, Refusal>
    requires { Rooms types.old rows.old due.old }
    ensures { AllTaken text.now result types.new rows.new due.new }
{
    let mut n = Passed {
        types: 0,
        rows: 0,
        sites: 0,
    };
    let mut at = 0;
    while at < text.len() {
        let end = stretch_end(text, at, LINE_FEED);
        if end == text.len() {
            return Err(Refusal::Form(place_of(n)));
        }
        n = take_line(&text[at..end], types, rows, due, n)?;
        at = end + 1;
    }
    finish(rows, n)
}

// A text read into areas of one's own, and from there into the lent ones where nothing is refused.
pub fn read_through(
    text: &[u8],
    types: &mut [u32],
    rows: &mut [u32],
    due: &mut [i64],
) -> Result<Counted, Refusal>
    requires { Rooms types.old rows.old due.old }
    ensures { ReadAfter text.now (tables_of types.old rows.old due.old) result (tables_of types.new rows.new due.new) }
{
    let mut type_words = [0u32; TYPES_AREA];
    let mut row_words = [0u32; ROWS_AREA];
    let mut times = [0i64; ROWS_ROOM];
    let n = read_lines(text, &mut type_words, &mut row_words, &mut times)?;
    copy_start(&type_words, types, TYPE_WORDS * n.types);
    copy_start(&row_words, rows, ROW_WORDS * n.rows);
    copy_start(&times, due, n.rows);
    Ok(Counted {
        types: n.types as u32,
        rows: n.rows as u32,
    })
}
