// The lines of a plan: a word, then numbers, parted by one space and ended by a line feed.
use rooms::words::ROW_SITE;
use rooms::{PLACEMENT_ROOM, ROW_WORDS, ROWS_AREA, SITES_ROOM};
use rules::Timed;
use writing::{Signed, say};

pub fn print_figures(timed: Timed) {
    say!("slack {}\n", Signed(timed.slack.0));
    say!("load {}\n", timed.load.0);
}

// The mark of a site. No net has more than 64, so the last line is never reached by a row.
fn mark_of(placement: &[u64; PLACEMENT_ROOM], site: usize) -> u64 {
    if site < SITES_ROOM {
        return marks::mark_of(placement, site);
    }
    0
}

// A line for each repeater, rows rising. Rows past those of the net are all zero, and so have no site.
pub fn print_buffers(rows: &[u32; ROWS_AREA], placement: &[u64; PLACEMENT_ROOM]) {
    let sites = rows
        .chunks_exact(ROW_WORDS)
        .enumerate()
        .filter(|(_, row)| row.get(ROW_SITE) == Some(&1));
    for (site, (row, _)) in sites.enumerate() {
        let mark = mark_of(placement, site);
        if mark != 0 {
            say!("buffer {row} {mark}\n");
        }
    }
}
