// read_net and slack_of asked.
use lending::tables::{Lent, Tables};
use rules::{Counted, Net, Refusal, Timed};

fn lent_at(
    text: &[u8],
    types: &mut [u32],
    rows: &mut [u32],
    due: &mut [i64],
    lent: Lent,
) -> Result<Counted, Refusal> {
    let types_end = lent.types.min(types.len());
    let rows_end = lent.rows.min(rows.len());
    let due_end = lent.due.min(due.len());
    net::read_net(
        text,
        &mut types[..types_end],
        &mut rows[..rows_end],
        &mut due[..due_end],
    )
}

// The text, and the tables lent at their lengths.
pub fn read(text: &[u8], tables: &mut Tables) -> Result<Counted, Refusal> {
    tables.stamp();
    let lent = tables.lent;
    lent_at(
        text,
        &mut tables.types,
        &mut tables.rows,
        &mut tables.due,
        lent,
    )
}

// A placement of these words, lent at a length. Past them stand two more, which nobody may read.
pub fn slack(net: &Net<'_>, long: usize, placement: [u64; 4]) -> Result<Timed, Refusal> {
    let [a, b, c, d] = placement;
    let words = [a, b, c, d, 5, 6];
    slack::slack_of(net, &words[..long.min(6)])
}
