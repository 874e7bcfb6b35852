// A pass over the run, and a record of it read: the only functions that read and store its records.
ghost use Rattle.std.specs.Prelude.{◌≡◌, ◌<◌, length, get_or};
ghost use Rattle.runs.specs.Passes.{Ready, Took, Safe, Swept};
ghost use Rattle.rules.specs.Areas.{zeros};

use rules::Cand;
use turns::Pass;

// One record.
pub fn read_at(run: &[Cand], i: usize) -> Cand
    requires { i < length run.now }
    ensures { result ≡ get_or run.now i zeros }
{
    run[i]
}

// One turn: two records are read, one is stored.
pub fn turn_at(run: &mut [Cand], p: Pass) -> Pass
    requires { Ready p run.old }
    ensures { Took p run.old result run.new }
{
    let t = turns::turn_of(p, run[p.from], run[p.with]);
    run[p.to] = t.put;
    t.next
}

// A whole pass. How far it goes each turn decides, so this is no `for`: a branch may end it early, and one put in past two at once.
pub fn sweep(run: &mut [Cand], start: Pass) -> Pass
    requires { Safe start run.old }
    ensures { Swept start run.old result run.new }
{
    let mut p = start;
    while 0 < p.left {
        p = turn_at(run, p);
    }
    p
}
