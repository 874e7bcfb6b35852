// The entries for a net as text: C has a name for each beside that for tables. Tables and work area are the call's own and stand on the stack,
// some 42,000 bytes.
ghost use Rattle.rules.specs.Tables.{tables_of};
ghost use Rattle.rules.specs.Text.{text_entries};
ghost use Rattle.rules.specs.Areas.{lent_of, unlent, plan_areas, list_areas};
ghost use Rattle.rules.specs.Promises.{texted};
ghost use Rattle.rules.specs.Calls.{lending, CountCall, SlackCall, PlanCall, ListCall};
ghost use Rattle.laws.specs.Picked.{Picks};
ghost use Rattle.zombrict.specs.Texts.{SlackRead, PlanRead, PickRead, ListRead};

use rooms::{PLACEMENT_ROOM, ROWS_AREA, ROWS_ROOM, TYPES_AREA, WORDS_AREA, WORK_ROOM};
use rules::{Counted, Net, Refusal, Timed};

// A net as text, checked. The values answered are the counts of types and rows.
#[unsafe(no_mangle)]
pub extern "C" fn zombrict_check_text(text: &[u8], answer: &mut [i64]) -> u32
    ensures { CountCall (texted text.now) (lending tt answer.old) result (lending tt answer.new) }
{
    if answer.len() < answers::room() {
        return answers::short();
    }
    let mut types = [0u32; TYPES_AREA];
    let mut rows = [0u32; ROWS_AREA];
    let mut due = [0i64; ROWS_ROOM];
    let read = net::read_net(text, &mut types, &mut rows, &mut due);
    answers::tell_reading(answer, read)
}

fn slack_read(
    read: Result<Counted, Refusal>,
    types: &[u32],
    rows: &[u32],
    due: &[i64],
    placement: &[u64],
) -> Result<Timed, Refusal>
    ensures { SlackRead read (tables_of types.now rows.now due.now) placement.now result }
{
    let n = read?;
    let net = Net {
        types,
        rows,
        due,
        type_count: n.types as usize,
        row_count: n.rows as usize,
    };
    slack::slack_of(&net, placement)
}

// The slack of a placement on a net given as text.
#[unsafe(no_mangle)]
pub extern "C" fn zombrict_slack_text(text: &[u8], placement: &[u64], answer: &mut [i64]) -> u32
    ensures { SlackCall (texted text.now) placement.now (lending tt answer.old) result (lending tt answer.new) }
{
    if answer.len() < answers::room() {
        return answers::short();
    }
    if placement.len() < PLACEMENT_ROOM {
        return answers::tell_refusal(answer, Refusal::Short);
    }
    let mut types = [0u32; TYPES_AREA];
    let mut rows = [0u32; ROWS_AREA];
    let mut due = [0i64; ROWS_ROOM];
    let read = net::read_net(text, &mut types, &mut rows, &mut due);
    let slack = slack_read(read, &types, &rows, &due, placement);
    answers::tell_timing(answer, slack)
}

fn plan_read(
    read: Result<Counted, Refusal>,
    types: &[u32],
    rows: &[u32],
    due: &[i64],
    placement: &mut [u64],
) -> Result<Timed, Refusal>
    ensures planned { PlanRead read (tables_of types.now rows.now due.now) placement.old result placement.new }
    ensures picked { PickRead read (tables_of types.now rows.now due.now) placement.old placement.new result }
{
    let n = read?;
    let net = Net {
        types,
        rows,
        due,
        type_count: n.types as usize,
        row_count: n.rows as usize,
    };
    let mut loads = [0u32; WORK_ROOM];
    let mut times = [0i64; WORK_ROOM];
    let mut words = [0u64; WORDS_AREA];
    plan::plan_net(&net, placement, &mut loads, &mut times, &mut words)
}

// A placement of greatest slack for a net given as text.
#[unsafe(no_mangle)]
pub extern "C" fn zombrict_plan_text(text: &[u8], placement: &mut [u64], answer: &mut [i64]) -> u32
    ensures planned { PlanCall unlent (texted text.now) (lending (plan_areas placement.old tt) answer.old) result (lending (plan_areas placement.new tt) answer.new) }
    ensures picked { Picks (text_entries text.now) placement.old placement.new result }
{
    if answer.len() < answers::room() {
        return answers::short();
    }
    if placement.len() < PLACEMENT_ROOM {
        return answers::tell_refusal(answer, Refusal::Short);
    }
    let mut types = [0u32; TYPES_AREA];
    let mut rows = [0u32; ROWS_AREA];
    let mut due = [0i64; ROWS_ROOM];
    let read = net::read_net(text, &mut types, &mut rows, &mut due);
    let planned = plan_read(read, &types, &rows, &due, placement);
    answers::tell_timing(answer, planned)
}

fn list_read(
    read: Result<Counted, Refusal>,
    types: &[u32],
    rows: &[u32],
    due: &[i64],
    row: usize,
    list_loads: &mut [u32],
    list_times: &mut [i64],
) -> Result<u32, Refusal>
    ensures { ListRead read (tables_of types.now rows.now due.now) row (lent_of list_loads.old list_times.old) result (lent_of list_loads.new list_times.new) }
{
    let n = read?;
    let net = Net {
        types,
        rows,
        due,
        type_count: n.types as usize,
        row_count: n.rows as usize,
    };
    let mut loads = [0u32; WORK_ROOM];
    let mut times = [0i64; WORK_ROOM];
    let mut words = [0u64; WORDS_AREA];
    plan::list_at(
        &net, row, list_loads, list_times, &mut loads, &mut times, &mut words,
    )
}

// The list of unbeaten pairs at a row of a net given as text. The value answered is its length.
#[unsafe(no_mangle)]
pub extern "C" fn zombrict_list_text(
    text: &[u8],
    row: usize,
    list_loads: &mut [u32],
    list_times: &mut [i64],
    answer: &mut [i64],
) -> u32
    ensures { ListCall unlent (texted text.now) row (lending (list_areas (lent_of list_loads.old list_times.old) tt) answer.old) result (lending (list_areas (lent_of list_loads.new list_times.new) tt) answer.new) }
{
    if answer.len() < answers::room() {
        return answers::short();
    }
    if rooms::short_list(list_loads.len(), list_times.len()) {
        return answers::tell_refusal(answer, Refusal::Short);
    }
    let mut types = [0u32; TYPES_AREA];
    let mut rows = [0u32; ROWS_AREA];
    let mut due = [0i64; ROWS_ROOM];
    let read = net::read_net(text, &mut types, &mut rows, &mut due);
    let listed = list_read(read, &types, &rows, &due, row, list_loads, list_times);
    answers::tell_listing(answer, listed)
}
