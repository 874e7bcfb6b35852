// The loads alone of a list, for a display that reads no times: for a net as tables and for a net as text.
ghost use Rattle.rules.specs.Tables.{tables_of, counts_of};
ghost use Rattle.rules.specs.Areas.{columns_of, columns, unlent, loads_areas};
ghost use Rattle.rules.specs.Promises.{tabled, texted};
ghost use Rattle.rules.specs.Calls.{lending, LoadsCall};
ghost use Rattle.zombrict.specs.Texts.{LoadsRead};

use rooms::{ROWS_AREA, ROWS_ROOM, TYPES_AREA, WORDS_AREA, WORK_ROOM};
use rules::{Counted, Net, Refusal};

// The loads of the unbeaten pairs at a row. The value answered is how many there are.
#[unsafe(no_mangle)]
pub extern "C" fn zombrict_loads(
    types: &[u32],
    rows: &[u32],
    due: &[i64],
    type_count: usize,
    row_count: usize,
    row: usize,
    list_loads: &mut [u32],
    loads: &mut [u32],
    times: &mut [i64],
    words: &mut [u64],
    answer: &mut [i64],
) -> u32
    ensures { LoadsCall columns (tabled (tables_of types.now rows.now due.now) (counts_of type_count row_count)) row (lending (loads_areas list_loads.old (columns_of loads.old times.old words.old)) answer.old) result (lending (loads_areas list_loads.new (columns_of loads.new times.new words.new)) answer.new) }
{
    if answer.len() < answers::room() {
        return answers::short();
    }
    let net = Net {
        types,
        rows,
        due,
        type_count,
        row_count,
    };
    let listed = plan::loads_at(&net, row, list_loads, loads, times, words);
    answers::tell_listing(answer, listed)
}

fn loads_read(
    read: Result<Counted, Refusal>,
    types: &[u32],
    rows: &[u32],
    due: &[i64],
    row: usize,
    list_loads: &mut [u32],
) -> Result<u32, Refusal>
    ensures { LoadsRead read (tables_of types.now rows.now due.now) row list_loads.old result list_loads.new }
{
    let n = read?;
    let net = Net {
        types,
        rows,
        due,
        type_count: n.types as usize,
        row_count: n.rows as usize,
    };
    let mut loads = [0u32; WORK_ROOM];
    let mut times = [0i64; WORK_ROOM];
    let mut words = [0u64; WORDS_AREA];
    plan::loads_at(&net, row, list_loads, &mut loads, &mut times, &mut words)
}

// The same at a row of a net given as text. Tables and work area are the call's own and stand on the stack, as in `texts`.
#[unsafe(no_mangle)]
pub extern "C" fn zombrict_loads_text(
    text: &[u8],
    row: usize,
    list_loads: &mut [u32],
    answer: &mut [i64],
) -> u32
    ensures { LoadsCall unlent (texted text.now) row (lending (loads_areas list_loads.old tt) answer.old) result (lending (loads_areas list_loads.new tt) answer.new) }
{
    if answer.len() < answers::room() {
        return answers::short();
    }
    if rooms::short_area(list_loads.len()) {
        return answers::tell_refusal(answer, Refusal::Short);
    }
    let mut types = [0u32; TYPES_AREA];
    let mut rows = [0u32; ROWS_AREA];
    let mut due = [0i64; ROWS_ROOM];
    let read = net::read_net(text, &mut types, &mut rows, &mut due);
    let listed = loads_read(read, &types, &rows, &due, row, list_loads);
    answers::tell_listing(answer, listed)
}
