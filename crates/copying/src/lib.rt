// The pairs of a list in the run, written to lent areas: the run is only read.
#![tactic(auto)]

ghost use Rattle.std.specs.Prelude.{◌≡◌, ◌≤◌, length};
ghost use Rattle.copying.specs.Copied.{copied, loads_of, times_of};

use rules::Cand;

pub fn copy_pairs(run: &[Cand], loads: &mut [u32], times: &mut [i64], len: usize)
    requires { (len ≤ length run.now) × ((len ≤ length loads.old) × (len ≤ length times.old)) }
    ensures { (loads.new ≡ copied len (loads_of run.now) loads.old) × (times.new ≡ copied len (times_of run.now) times.old) }
{
    for i in 0..len {
        let c = runs::passes::read_at(run, i);
        loads[i] = c.load.0;
        times[i] = c.time.0;
    }
}
