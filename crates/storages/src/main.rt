// Plans each net of standard input on both storages, the columns and the run of records, and prints what each gives. The net
// texts stand one after another, parted by an empty line, which no accepted net has. For each net:
//
//   text refused NUMBER PLACE                    where its text is refused; the storages are then asked for a net of no rows
//   columns slack S load L marks W W W W         plan_net: the slack, the load and the placement's words, or its refusal
//   records slack S load L marks W W W W         the same of the run of records
//   columns at R: list N pairs LOAD TIME ..      list_at at row R: how many pairs, and the pairs, or its refusal; at the driver, and
//                                                at every row of a net of fewer than nine
//   records at R: list N pairs LOAD TIME ..      the same of the run of records
//   lists alike at N rows                        the lists at every row compared, place by place: or `lists differ at row R`
//   same                                         or `differ`
//
// A text that fills the input's room ends the run with `bad input`.
#![tactic(auto)]

mod listing;
mod planning;

use compared::parting::Texts;
use rooms::{ROWS_AREA, ROWS_ROOM, TYPES_AREA};
use rules::{Counted, Net};
use writing::{Refused, say};

const INPUT_ROOM: usize = 131_072;

// Standard output, as the system numbers it.
const STDOUT: i32 = 1;

// A write that fails is passed over: what comes after it is tried all the same. std's own standard output would assume more contracts of C.
fn stdout(bytes: &[u8]) {
    io::write_all(STDOUT, bytes);
}

// Both storages asked for a net.
fn compare(net: &Net<'_>) {
    let planned = planning::alike(net);
    let driver = listing::alike_at(net, 0, true);
    let listed = listing::rows_alike(net);
    let same = planned && driver && listed;
    say!("{}\n", if same { "same" } else { "differ" });
}

fn report(text: &[u8]) {
    let mut types = [0u32; TYPES_AREA];
    let mut rows = [0u32; ROWS_AREA];
    let mut due = [0i64; ROWS_ROOM];
    let read = net::read_net(text, &mut types, &mut rows, &mut due);
    if let Err(r) = read {
        say!("text {}\n", Refused(r));
    }
    let counted = read.unwrap_or(Counted { types: 0, rows: 0 });
    compare(&Net {
        types: &types,
        rows: &rows,
        due: &due,
        type_count: counted.types as usize,
        row_count: counted.rows as usize,
    });
}

fn main() {
    let mut input = [0u8; INPUT_ROOM];
    let n = io::read_full(0, &mut input);
    // A full buffer may hold a part of the nets only.
    if n == INPUT_ROOM {
        say!("bad input\n");
        return;
    }
    for text in Texts(&input[..n]) {
        report(text);
    }
}
