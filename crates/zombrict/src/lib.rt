// The static library: each entry under a name of its own for C and Rust, on numbers and slices only. include/zombrict.h says what each
// call is lent and answers.
#![tactic(auto)]

ghost use Rattle.rules.specs.Tables.{tables_of, counts_of, table_entries};
ghost use Rattle.rules.specs.Areas.{columns_of, lent_of, columns, plan_areas, list_areas};
ghost use Rattle.rules.specs.Promises.{tabled};
ghost use Rattle.rules.specs.Calls.{lending, ReadCall, CheckCall, SlackCall, PlanCall, ListCall};
ghost use Rattle.laws.specs.Picked.{Picks};

use rules::Net;

mod display;
mod texts;

// A net as text, read into the lent tables. The values answered are the counts of types and rows.
#[unsafe(no_mangle)]
pub extern "C" fn zombrict_read(
    text: &[u8],
    types: &mut [u32],
    rows: &mut [u32],
    due: &mut [i64],
    answer: &mut [i64],
) -> u32
    ensures { ReadCall text.now (lending (tables_of types.old rows.old due.old) answer.old) result (lending (tables_of types.new rows.new due.new) answer.new) }
{
    if answer.len() < answers::room() {
        return answers::short();
    }
    answers::tell_reading(answer, net::read_net(text, types, rows, due))
}

// A net given as tables, checked.
#[unsafe(no_mangle)]
pub extern "C" fn zombrict_check(
    types: &[u32],
    rows: &[u32],
    due: &[i64],
    type_count: usize,
    row_count: usize,
    answer: &mut [i64],
) -> u32
    ensures { CheckCall (tabled (tables_of types.now rows.now due.now) (counts_of type_count row_count)) (lending tt answer.old) result (lending tt answer.new) }
{
    if answer.len() < answers::room() {
        return answers::short();
    }
    let net = Net {
        types,
        rows,
        due,
        type_count,
        row_count,
    };
    answers::tell_checking(answer, net::check_net(&net))
}

// The slack of a given placement. The values answered are the slack and the load on the driver.
#[unsafe(no_mangle)]
pub extern "C" fn zombrict_slack(
    types: &[u32],
    rows: &[u32],
    due: &[i64],
    type_count: usize,
    row_count: usize,
    placement: &[u64],
    answer: &mut [i64],
) -> u32
    ensures { SlackCall (tabled (tables_of types.now rows.now due.now) (counts_of type_count row_count)) placement.now (lending tt answer.old) result (lending tt answer.new) }
{
    if answer.len() < answers::room() {
        return answers::short();
    }
    let net = Net {
        types,
        rows,
        due,
        type_count,
        row_count,
    };
    answers::tell_timing(answer, slack::slack_of(&net, placement))
}

// A placement of greatest slack. The values answered are the slack and the load on the driver.
#[unsafe(no_mangle)]
pub extern "C" fn zombrict_plan(
    types: &[u32],
    rows: &[u32],
    due: &[i64],
    type_count: usize,
    row_count: usize,
    placement: &mut [u64],
    loads: &mut [u32],
    times: &mut [i64],
    words: &mut [u64],
    answer: &mut [i64],
) -> u32
    ensures planned { PlanCall columns (tabled (tables_of types.now rows.now due.now) (counts_of type_count row_count)) (lending (plan_areas placement.old (columns_of loads.old times.old words.old)) answer.old) result (lending (plan_areas placement.new (columns_of loads.new times.new words.new)) answer.new) }
    ensures picked { Picks (table_entries (tables_of types.now rows.now due.now) (counts_of type_count row_count)) placement.old placement.new result }
{
    if answer.len() < answers::room() {
        return answers::short();
    }
    let net = Net {
        types,
        rows,
        due,
        type_count,
        row_count,
    };
    let planned = plan::plan_net(&net, placement, loads, times, words);
    answers::tell_timing(answer, planned)
}

// The list of unbeaten pairs at a row. The value answered is its length.
#[unsafe(no_mangle)]
pub extern "C" fn zombrict_list(
    types: &[u32],
    rows: &[u32],
    due: &[i64],
    type_count: usize,
    row_count: usize,
    row: usize,
    list_loads: &mut [u32],
    list_times: &mut [i64],
    loads: &mut [u32],
    times: &mut [i64],
    words: &mut [u64],
    answer: &mut [i64],
) -> u32
    ensures { ListCall columns (tabled (tables_of types.now rows.now due.now) (counts_of type_count row_count)) row (lending (list_areas (lent_of list_loads.old list_times.old) (columns_of loads.old times.old words.old)) answer.old) result (lending (list_areas (lent_of list_loads.new list_times.new) (columns_of loads.new times.new words.new)) answer.new) }
{
    if answer.len() < answers::room() {
        return answers::short();
    }
    let net = Net {
        types,
        rows,
        due,
        type_count,
        row_count,
    };
    let listed = plan::list_at(&net, row, list_loads, list_times, loads, times, words);
    answers::tell_listing(answer, listed)
}
