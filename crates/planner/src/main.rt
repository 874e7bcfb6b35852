// The planning program: one net from standard input; its slack, the load on its driver and its repeaters to standard output, or why it
// is refused.
#![tactic(auto)]

mod lines;

use rooms::{PLACEMENT_ROOM, ROWS_AREA, ROWS_ROOM, TEXT_ROOM, TYPES_AREA, WORDS_AREA, WORK_ROOM};
use rules::{Net, Refusal};
use writing::{Refused, say};

// Standard input, as the system numbers it.
const STDIN: i32 = 0;

// Standard output, as the system numbers it.
const STDOUT: i32 = 1;

// A write that fails is passed over: what comes after it is tried all the same. std's own standard output would assume more contracts of C.
fn stdout(bytes: &[u8]) {
    io::write_all(STDOUT, bytes);
}

// The plan of a net, or why it is refused.
fn plan(text: &[u8]) -> Result<(), Refusal> {
    let mut types = [0u32; TYPES_AREA];
    let mut rows = [0u32; ROWS_AREA];
    let mut due = [0i64; ROWS_ROOM];
    let counted = net::read_net(text, &mut types, &mut rows, &mut due)?;
    let net = Net {
        types: &types,
        rows: &rows,
        due: &due,
        type_count: counted.types as usize,
        row_count: counted.rows as usize,
    };
    let mut placement = [0u64; PLACEMENT_ROOM];
    let mut loads = [0u32; WORK_ROOM];
    let mut times = [0i64; WORK_ROOM];
    let mut words = [0u64; WORDS_AREA];
    let timed = plan::plan_net(&net, &mut placement, &mut loads, &mut times, &mut words)?;
    lines::print_figures(timed);
    lines::print_buffers(&rows, &placement);
    Ok(())
}

fn main() {
    // One byte more than a text may have: a text that fills it is too long, and is not read to its end.
    let mut text = [0u8; TEXT_ROOM + 1];
    let n = io::read_full(STDIN, &mut text);
    if let Err(r) = plan(&text[..n]) {
        say!("{}\n", Refused(r));
    }
}
