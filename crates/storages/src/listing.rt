// The lists of a net's rows on both storages.
use compared::answers::Listed;
use rooms::{LIST_ROOM, WORDS_AREA, WORK_ROOM};
use rules::Net;
use writing::{Refused, say};

// A net of fewer rows has all its lists told.
const TOLD_ROWS: usize = 9;

fn in_columns(net: &Net<'_>, row: usize) -> Listed {
    let mut list_loads = [0u32; LIST_ROOM];
    let mut list_times = [0i64; LIST_ROOM];
    let mut loads = [0u32; WORK_ROOM];
    let mut times = [0i64; WORK_ROOM];
    let mut words = [0u64; WORDS_AREA];
    let answer = plan::list_at(
        net,
        row,
        &mut list_loads,
        &mut list_times,
        &mut loads,
        &mut times,
        &mut words,
    );
    Listed {
        answer,
        loads: list_loads,
        times: list_times,
    }
}

fn in_records(net: &Net<'_>, row: usize) -> Listed {
    let mut loads = [0u32; LIST_ROOM];
    let mut times = [0i64; LIST_ROOM];
    let answer = held::list_held(net, row, &mut loads, &mut times);
    Listed {
        answer,
        loads,
        times,
    }
}

fn line(storage: &str, row: usize, listed: &Listed) {
    say!("{storage} at {row}:");
    match listed.answer {
        Err(r) => say!(" {}", Refused(r)),
        Ok(length) => {
            say!(" list {length} pairs");
            writing::pairs(crate::stdout, &listed.loads, &listed.times, length);
        }
    }
    say!("\n");
}

// Whether both give the same list at a row; told where it is wanted.
pub fn alike_at(net: &Net<'_>, row: usize, told: bool) -> bool {
    let ours = in_columns(net, row);
    let theirs = in_records(net, row);
    if told {
        line("columns", row, &ours);
        line("records", row, &theirs);
    }
    ours == theirs
}

// The driver's list is told apart; those of the other rows where the net has few.
fn is_told(row: usize, rows: usize) -> bool {
    row != 0 && rows < TOLD_ROWS
}

// The lists at every row.
pub fn rows_alike(net: &Net<'_>) -> bool {
    let rows = net.row_count;
    let unlike = (0..rows).find(|row| !alike_at(net, *row, is_told(*row, rows)));
    match unlike {
        Some(row) => say!("lists differ at row {row}\n"),
        None => say!("lists alike at {rows} rows\n"),
    }
    unlike.is_none()
}
