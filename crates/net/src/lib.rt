// A net read from text, and a net given as tables. Both go entry by entry: a line of the text, or the words of a table's entry, is
// checked after what has passed, and counted.
#![tactic(auto)]

ghost use Rattle.std.specs.Prelude.{◌≡◌};
ghost use Rattle.rules.specs.Promises.{ReadPromise, CheckPromise, net_refusal, lent_net};
ghost use Rattle.rules.specs.Tables.{tables_of};
ghost use Rattle.checks.specs.Checks.{checking};

use reads::read_through;
use rules::{Counted, Net, Refusal};
use tables::take_net;

mod lines;
mod reads;
mod stated;
mod tables;

// A net as text, read into the lent areas. A refusal leaves them as they were.
pub fn read_net(
    text: &[u8],
    types: &mut [u32],
    rows: &mut [u32],
    due: &mut [i64],
) -> Result<Counted, Refusal>
    ensures { ReadPromise text.now (tables_of types.old rows.old due.old) result (tables_of types.new rows.new due.new) }
{
    let short = rooms::short_tables(types.len(), rows.len(), due.len());
    rooms::check_text(short, text.len())?;
    read_through(text, types, rows, due)
}

// The refusal of a net given as tables: 7 also where an area of the caller's own is short, then entry by entry.
pub fn check_tables(short: bool, net: &Net<'_>) -> Result<(), Refusal>
    ensures { result ≡ checking (net_refusal short (lent_net net.now)) }
{
    if rooms::short_tables(net.types.len(), net.rows.len(), net.due.len()) || short {
        return Err(Refusal::Short);
    }
    take_net(net)
}

// A net given as tables, checked.
pub fn check_net(net: &Net<'_>) -> Result<(), Refusal>
    ensures { CheckPromise (lent_net net.now) result }
{
    check_tables(false, net)
}
