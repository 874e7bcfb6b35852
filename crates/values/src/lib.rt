// What is worked out from one or two records by value.
#![tactic(auto)]

ghost use Rattle.std.specs.Prelude.{◌≡◌, ◌<◌};
ghost use Rattle.rules.specs.Quantities.{sites_room};
ghost use Rattle.marks.specs.Marks.{marks_end};
ghost use Rattle.laws.specs.Joining.{join_marks};
ghost use Rattle.laws.specs.Joining.{with_mark};
ghost use Rattle.laws.specs.Steps.{joined};
ghost use Rattle.laws.specs.Moves.{behind};
ghost use Rattle.rules.specs.Placements.{marks};
ghost use Rattle.rules.specs.Areas.{zeros};
ghost use Rattle.columns.specs.Run.{candidate};
ghost use Rattle.columns.specs.Made.{Fit, wire_of};
ghost use Rattle.values.specs.Records.{cand_of, pair_of, plain_of};
ghost use Rattle.values.specs.Values.{Wires, Chooses, worth_of};

use pairs::Pair;
use rules::{Cand, Femtofarad, Femtosecond, Ohm};

// A record with no marks: a sink's pin, or what an area of zeros holds.
pub fn unmarked(load: Femtofarad, time: Femtosecond) -> Cand
    ensures { result ≡ plain_of load time }
{
    Cand {
        load,
        time,
        words: [0; 4],
    }
}

// A record of zeros.
pub fn blank() -> Cand
    ensures { result ≡ zeros }
{
    unmarked(Femtofarad(0), Femtosecond(0))
}

// Its load and its time, without its placement.
pub fn pair_of(x: Cand) -> Pair
    ensures { result ≡ pair_of x }
{
    Pair {
        load: x.load,
        time: x.time,
    }
}

// Behind a wire.
pub fn wired(x: Cand, r: Ohm, c: Femtofarad) -> Cand
    requires { Wires r c (cand_of x) }
    ensures { cand_of result ≡ behind (wire_of r.0 c.0) (cand_of x) }
{
    let load = units::together(c, x.load);
    let time = pairs::time_before(x.time, r, load);
    Cand { load, time, ..x }
}

// Two candidates that meet at a branch.
pub fn joined(x: Cand, y: Cand) -> Cand
    requires { Fit (joined join_marks (cand_of x) (cand_of y)) }
    ensures { cand_of result ≡ joined join_marks (cand_of x) (cand_of y) }
{
    let pair = pair_of(x).joined(pair_of(y));
    Cand {
        load: pair.load,
        time: pair.time,
        words: marks::joined(x.words, y.words),
    }
}

// What a repeater's or the driver's input sees of a candidate: its time before the delay.
pub fn worth(x: Cand, own: Femtosecond, r: Ohm) -> Femtosecond
    requires { Chooses own r (cand_of x) }
    ensures { result ≡ worth_of own r x }
{
    pairs::time_before_repeater(x.time, own, r, x.load)
}

// Behind a repeater of type m at site k: the type's input load, and the time that was worked out from the load driven.
pub fn typed(x: Cand, input: Femtofarad, time: Femtosecond, k: usize, m: u64) -> Cand
    requires { (k < sites_room) × (m < marks_end) }
    ensures { cand_of result ≡ candidate input.0 time.0 (with_mark k m (marks x.words)) }
{
    Cand {
        load: input,
        time,
        words: marks::with_mark(x.words, k, m),
    }
}
