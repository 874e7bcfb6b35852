// Refusal 6: a placement marks a type the net hasn't, or a site it hasn't; the lowest site first.
ghost use Rattle.std.specs.Prelude.{◌≡◌, true, List, ◌+◌, ◌-◌, ◌≤◌, ◌<◌, length};
ghost use Rattle.rules.specs.Entries.{Entry, rows_of, sites_of};
ghost use Rattle.rules.specs.Placements.{marks, marks_from, placement_refusal};
ghost use Rattle.rules.specs.Quantities.{types_room, rows_room, sites_room, placement_room};
ghost use Rattle.net.specs.TableSteps.{checking};
ghost use Rattle.slack.specs.Marked.{over_mark, NetOf, Marking};

use rooms::SITES_ROOM;
use rules::{Net, Refusal};

// Whether a row's site, site k, is marked with a type the net hasn't.
fn is_over(words: &[u64], site: bool, k: usize, count: usize) -> bool
    requires k_lt_sites_room { site ≡ true → k < sites_room }
    requires placement_room_in_bounds { placement_room ≤ length words.now }
    ensures { result ≡ over_mark site count (marks words.now k) }
{
    site && count < marks::mark_of(words, k) as usize
}

// The marks past the last site: any is refused, and there is no line for it.
fn check_past(words: &[u64], from: usize) -> Result<(), Refusal>
    requires { (from ≤ sites_room) × (placement_room ≤ length words.now) }
    ensures { (es : List Entry) → sites_of (rows_of es) ≤ from → result ≡ checking (marks_from es (marks words.now) from (sites_room - from)) }
{
    for j in from..SITES_ROOM {
        if 0 < marks::mark_of(words, j) {
            return Err(Refusal::Mark(0));
        }
    }
    Ok(())
}

// The line of a row is after those of the types and of the rows before it.
fn line_of(count: usize, row: usize) -> u32
    requires { (count ≤ types_room) × (row < rows_room) }
    ensures { result ≡ count + row + 1 }
{
    (count + row + 1) as u32
}

// The rows in their order, and so the sites in theirs, each with its mark; then the marks past the last site.
pub fn check_marks(net: &Net<'_>, words: &[u64]) -> Result<(), Refusal>
    requires { Marking net.now.rows.now net.now.due.now net.now.type_count net.now.row_count words.now }
    ensures { (es : List Entry) → NetOf net.now.rows.now net.now.due.now net.now.type_count net.now.row_count es → result ≡ checking (placement_refusal es (marks words.now)) }
{
    let count = net.type_count;
    let mut k = 0;
    for i in 0..net.row_count {
        let x = rows::row_at(net, i);
        if is_over(words, x.site, k, count) {
            return Err(Refusal::Mark(line_of(count, i)));
        }
        k = kinds::next_site(x.site, k);
    }
    check_past(words, k)
}
