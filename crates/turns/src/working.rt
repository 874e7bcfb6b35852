// The turns that work out a candidate: behind a wire, before a delay, where branches meet.
ghost use Rattle.std.specs.Prelude.{◌≡◌, cond, ◌+◌, ◌-◌, ◌≤◌, ◌<◌};
ghost use Rattle.std.specs.Int.Signed.{lt_z};
ghost use Rattle.values.specs.Records.{cand_of};
ghost use Rattle.values.specs.Values.{Chooses, Wires};
ghost use Rattle.turns.specs.Turns.{Here, Can, FirstWiring, Wiring, FirstChoosing, Choosing, Branching, both_left};

use crate::{Pass, Step, Turn};
use rules::{Cand, Femtofarad, Femtosecond, Ohm};

pub fn first_wire_turn(p: Pass, x: Cand, r: Ohm, c: Femtofarad) -> Turn
    requires here { Here p }
    requires wires { Wires r c (cand_of x) }
    ensures { FirstWiring r c p x result }
{
    let next = Pass {
        step: Step::Wire(r, c),
        left: p.left - 1,
        from: p.from + 1,
        with: p.to,
        to: p.to + 1,
        ..p
    };
    Turn {
        put: values::wired(x, r, c),
        next,
    }
}

pub fn wire_turn(p: Pass, x: Cand, y: Cand, r: Ohm, c: Femtofarad) -> Turn
    requires here { Here p }
    requires wires { Wires r c (cand_of x) }
    ensures { Wiring r c p x y result }
{
    let put = values::wired(x, r, c);
    let on = Pass {
        step: Step::Wire(r, c),
        left: p.left - 1,
        from: p.from + 1,
        ..p
    };
    if units::is_later(put.time, y.time) {
        let next = Pass {
            with: p.to,
            to: p.to + 1,
            ..on
        };
        return Turn { put, next };
    }
    Turn { put, next: on }
}

pub fn first_choice_turn(p: Pass, x: Cand, own: Femtosecond, r: Ohm) -> Turn
    requires here { Here p }
    requires chooses { Chooses own r (cand_of x) }
    ensures { FirstChoosing own r p x result }
{
    let next = Pass {
        step: Step::Choose(own, r),
        left: p.left - 1,
        from: p.from + 1,
        to: p.to + 1,
        held: x,
        worth: values::worth(x, own, r),
        ..p
    };
    Turn { put: x, next }
}

pub fn choose_turn(p: Pass, x: Cand, own: Femtosecond, r: Ohm) -> Turn
    requires here { Here p }
    requires chooses { Chooses own r (cand_of x) }
    ensures { Choosing own r p x result }
{
    let on = Pass {
        step: Step::Choose(own, r),
        left: p.left - 1,
        from: p.from + 1,
        to: p.to + 1,
        ..p
    };
    let worth = values::worth(x, own, r);
    if units::is_later(worth, p.worth) {
        let next = Pass {
            held: x,
            worth,
            ..on
        };
        return Turn { put: x, next };
    }
    Turn { put: x, next: on }
}

// How much of two lists is left: nothing where one of them is done.
fn both_left(left: usize, i: usize, j: usize, end: usize, mid: usize) -> usize
    requires { 0 < left }
    ensures { result ≡ both_left left i j end mid }
{
    if i < end && j < mid { left - 1 } else { 0 }
}

// 1 unless x is later than y. A number and no bool: it is added to a place.
fn not_later(x: Cand, y: Cand) -> usize
    ensures small { result ≤ 1 }
    ensures value { result ≡ cond (lt_z y.time.0 x.time.0) 0 1 }
{
    usize::from(!units::is_later(x.time, y.time))
}

pub fn branch_turn(p: Pass, x: Cand, y: Cand, end: usize, mid: usize) -> Turn
    requires here { Here p }
    requires can { Can (Step.Branch end mid) (cand_of x) (cand_of y) }
    ensures { Branching end mid p x y result }
{
    let i = p.from + not_later(x, y);
    let j = p.with + not_later(y, x);
    let next = Pass {
        step: Step::Branch(end, mid),
        left: both_left(p.left, i, j, end, mid),
        from: i,
        with: j,
        to: p.to + 1,
        ..p
    };
    Turn {
        put: values::joined(x, y),
        next,
    }
}
