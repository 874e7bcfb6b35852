// A net given as tables, entry by entry.
ghost use Rattle.std.specs.Prelude.{◌≡◌, ◌≤◌, ◌*◌, length};
ghost use Rattle.rules.specs.Quantities.{types_room, rows_room};
ghost use Rattle.rules.specs.Tables.{table_entries, words_a_type, words_a_row, tables_of, counts_of};
ghost use Rattle.rules.specs.Refusals.{refusal_of};
ghost use Rattle.checks.specs.Checks.{FewPassed, checking};
ghost use Rattle.net.specs.Steps.{Rooms};
ghost use Rattle.net.specs.TableSteps.{FewTaken, TypesTaken, RowsTaken};

use checks::lines::{check_type, place_of};
use checks::{Line, Passed};
use ending::finish;
use entries::counts::{passed_with, with_row};
use entries::words::check_row_at;
use repeaters::type_at;
use rooms::words::ROW_SITE;
use rooms::{ROW_WORDS, ROWS_ROOM, TYPES_ROOM};
use rules::{Net, Refusal};

// The types, as many as are counted; the first past the room is refused unread.
pub fn take_types(types: &[u32], count: usize) -> Result<Passed, Refusal>
    requires { words_a_type * types_room ≤ length types.now }
    ensures few { FewTaken result }
    ensures passes { TypesTaken types.now count result }
{
    let mut n = Passed {
        types: 0,
        rows: 0,
        sites: 0,
    };
    for i in 0..count.min(TYPES_ROOM) {
        let t = type_at(types, i);
        check_type(n, t)?;
        n = passed_with(n, Ok(Line::Repeater(t)));
    }
    if TYPES_ROOM < count {
        return Err(Refusal::Room(place_of(n)));
    }
    Ok(n)
}

// The rows, as many as are counted; the first past the room is refused unread. Then the checks after the last.
pub fn take_rows(net: &Net<'_>, n: Passed) -> Result<Passed, Refusal>
    requires { (FewPassed n × (n.rows ≡ 0)) × ((words_a_row * rows_room ≤ length net.now.rows.now) × (rows_room ≤ length net.now.due.now)) }
    ensures { RowsTaken net.now.rows.now net.now.due.now n net.now.row_count result }
{
    let mut m = n;
    for i in 0..net.row_count.min(ROWS_ROOM) {
        check_row_at(net, m, i)?;
        m = with_row(m, net.rows[ROW_WORDS * i + ROW_SITE]);
    }
    if ROWS_ROOM < net.row_count {
        return Err(Refusal::Room(place_of(m)));
    }
    finish(net.rows, m)
}

// All entries of the tables, types first.
pub fn take_net(net: &Net<'_>) -> Result<(), Refusal>
    requires { Rooms net.now.types.now net.now.rows.now net.now.due.now }
    ensures { result ≡ checking (refusal_of (table_entries (tables_of net.now.types.now net.now.rows.now net.now.due.now) (counts_of net.now.type_count net.now.row_count))) }
{
    let n = take_types(net.types, net.type_count)?;
    take_rows(net, n)?;
    Ok(())
}
