// The repeaters of a site: of each type the best of the list behind it, put into its place by load, dropping what it beats.
#![tactic(auto)]

ghost use Rattle.std.specs.Prelude.{◌≡◌, ◌+◌, ◌≤◌, ◌<◌, length, set};
ghost use Rattle.rules.specs.Quantities.{sites_room, work_room};
ghost use Rattle.laws.specs.Lists.{EveryTwo};
ghost use Rattle.laws.specs.Candidates.{Below};
ghost use Rattle.laws.specs.Joining.{with_mark};
ghost use Rattle.laws.specs.Moves.{site_step};
ghost use Rattle.columns.specs.Parts.{part};
ghost use Rattle.columns.specs.Run.{run};
ghost use Rattle.columns.specs.Made.{Room, Stand, Gives};
ghost use Rattle.sites.specs.Types.{repeater_at, repeaters_of, TypesIn};
ghost use Rattle.sites.specs.Sites.{chosen_by, Chosens};

use columns::{cells, choices, moves};
use inserts::Bounds;
use rules::Net;

// Of the n candidates at `at` the best behind type t (from 0), put at `to`.
pub fn put_choice(
    types: &[u32],
    t: usize,
    loads: &mut [u32],
    times: &mut [i64],
    words: &mut [u64],
    at: usize,
    n: usize,
    k: usize,
    to: usize,
)
    requires types_in { TypesIn types.now (t + 1) }
    requires room { Room loads.old times.old words.old }
    requires stand { Stand (run loads.old times.old words.old) at n }
    requires k_lt_sites_room { (k < sites_room) × (to < work_room) }
    ensures { run loads.new times.new words.new ≡ set (run loads.old times.old words.old) to (chosen_by (repeater_at types.now t) (with_mark k (t + 1)) (part at (at + n) (run loads.old times.old words.old))) }
{
    let b = repeaters::type_at(types, t);
    let best = choices::best_from(loads, times, at, n, b.own, b.resistance);
    let m = t as u64 + 1;
    cells::typed_at(loads, times, words, best.at, to, b.input, best.value, k, m);
}

// The best of each type, from `base` on.
pub fn put_choices(
    net: &Net<'_>,
    loads: &mut [u32],
    times: &mut [i64],
    words: &mut [u64],
    at: usize,
    n: usize,
    k: usize,
    base: usize,
)
    requires types_in { TypesIn net.now.types.now net.now.type_count }
    requires room { Room loads.old times.old words.old }
    requires stand { Stand (run loads.old times.old words.old) at n }
    requires k_lt_sites_room { (k < sites_room) × ((at + n ≤ base) × (base + net.now.type_count ≤ work_room)) }
    ensures { Chosens net.now.types.now (run loads.old times.old words.old) (run loads.new times.new words.new) at n k base net.now.type_count }
{
    for t in 0..net.type_count {
        put_choice(net.types, t, loads, times, words, at, n, k, base + t);
    }
}

// The list of n at `at`, with the best behind each type at site k put in; its length.
pub fn put_types(
    net: &Net<'_>,
    loads: &mut [u32],
    times: &mut [i64],
    words: &mut [u64],
    at: usize,
    n: usize,
    k: usize,
) -> usize
    requires types_in { TypesIn net.now.types.now net.now.type_count }
    requires room { Room loads.old times.old words.old }
    requires stand { Stand (run loads.old times.old words.old) at n }
    requires every_two { EveryTwo Below (part at (at + n) (run loads.old times.old words.old)) }
    requires k_lt_sites_room { (k < sites_room) × (at + n + net.now.type_count + net.now.type_count ≤ work_room) }
    ensures { Gives (run loads.old times.old words.old) (run loads.new times.new words.new) at result (site_step (repeaters_of net.now.types.now net.now.type_count) (with_mark k) (length (repeaters_of net.now.types.now net.now.type_count)) (part at (at + n) (run loads.old times.old words.old))) }
{
    let count = net.type_count;
    let base = at + n + count;
    put_choices(net, loads, times, words, at, n, k, base);
    let mut list = Bounds {
        start: at,
        end: at + n,
    };
    for t in 0..count {
        list = inserts::put_in(loads, times, words, base + t, at, list, count - t);
    }
    let length = list.end - list.start;
    moves::move_list(loads, times, words, list.start, at, length);
    length
}
