// Listing over a lent run of records: `list_records` keeps the promise that `list_at` keeps on columns.
ghost use Rattle.rules.specs.Promises.{ListPromise, lent_net};
ghost use Rattle.rules.specs.Areas.{records, lent_of, list_areas};
ghost use Rattle.records.specs.Listings.{ListVerdictIn, ListsIn, ListedIn};

use rules::{Cand, Net, Refusal};

// Refusal 7 for the entry's own areas comes first, and 8 last.
pub fn judge_list(
    net: &Net<'_>,
    row: usize,
    loads: usize,
    times: usize,
    work: usize,
) -> Result<(), Refusal>
    ensures { ListVerdictIn net.now row loads times work result }
{
    if rooms::short_area(loads) || rooms::short_area(times) || rooms::short_run(work) {
        return Err(Refusal::Short);
    }
    net::check_net(net)?;
    if net.row_count <= row {
        return Err(Refusal::NoRow);
    }
    Ok(())
}

// The list at the row made, its pairs written to the lent areas, and the run left all zero.
fn list_in(
    run: &mut [Cand],
    net: &Net<'_>,
    row: usize,
    loads: &mut [u32],
    times: &mut [i64],
) -> usize
    requires { ListsIn net.now row run.old loads.old times.old }
    ensures { ListedIn net.now row run.old run.new loads.old loads.new times.old times.new result }
{
    let len = sights::make(run, net, row);
    copying::copy_pairs(run, loads, times, len);
    crate::clear(run);
    len
}

// The unbeaten pairs at a row, written to the lent areas; how many there are.
pub fn list_records(
    net: &Net<'_>,
    row: usize,
    list_loads: &mut [u32],
    list_times: &mut [i64],
    work: &mut [Cand],
) -> Result<u32, Refusal>
    ensures { ListPromise records (lent_net net.now) row (list_areas (lent_of list_loads.old list_times.old) work.old) result (list_areas (lent_of list_loads.new list_times.new) work.new) }
{
    judge_list(net, row, list_loads.len(), list_times.len(), work.len())?;
    let len = list_in(work, net, row, list_loads, list_times);
    Ok(len as u32)
}
