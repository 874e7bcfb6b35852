// The turns that put, move and insert what is held or read.
ghost use Rattle.std.specs.Prelude.{◌≡◌, ◌+◌, ◌-◌, ◌≤◌, ◌<◌};
ghost use Rattle.turns.specs.Turns.{pass_of, Here, Putting, Moving, Inserting, Shifting};

use crate::{Pass, Step, Turn};
use rules::Cand;

pub fn put_turn(p: Pass) -> Turn
    requires { Here p }
    ensures { Putting p result }
{
    let next = Pass {
        step: Step::Put,
        left: p.left - 1,
        to: p.to + 1,
        ..p
    };
    Turn { put: p.held, next }
}

pub fn move_turn(p: Pass, x: Cand) -> Turn
    requires { Here p }
    ensures { Moving p x result }
{
    let next = Pass {
        step: Step::Move,
        left: p.left - 1,
        from: p.from + 1,
        to: p.to + 1,
        ..p
    };
    Turn { put: x, next }
}

// The held one at its place, and x is held in its stead.
pub fn shift_turn(p: Pass, x: Cand) -> Turn
    requires { Here p }
    ensures { Shifting p x result }
{
    let next = Pass {
        step: Step::Shift,
        left: p.left - 1,
        from: p.from + 1,
        to: p.to + 1,
        held: x,
        ..p
    };
    Turn { put: p.held, next }
}

// x stays, or goes: the one held goes on to the next place or to the same.
fn search_turn(p: Pass, x: Cand, to: usize) -> Turn
    requires { Here p }
    ensures { (result.put ≡ x) × (result.next ≡ pass_of Step.Insert (p.left - 1) (p.from + 1) p.with to p.held p.worth) }
{
    let next = Pass {
        step: Step::Insert,
        left: p.left - 1,
        from: p.from + 1,
        to,
        ..p
    };
    Turn { put: x, next }
}

// One that covers the held one: it stays, and so does the rest.
fn covered_turn(p: Pass, x: Cand) -> Turn
    requires here { Here p }
    requires le_left { 2 ≤ p.left }
    ensures { (result.put ≡ x) × (result.next ≡ pass_of Step.Move (p.left - 2) (p.from + 1) p.with (p.to + 1) p.held p.worth) }
{
    let next = Pass {
        step: Step::Move,
        left: p.left - 2,
        from: p.from + 1,
        to: p.to + 1,
        ..p
    };
    Turn { put: x, next }
}

pub fn insert_turn(p: Pass, x: Cand) -> Turn
    requires { Here p }
    ensures { Inserting p x result }
{
    let held = values::pair_of(p.held);
    let other = values::pair_of(x);
    if p.left < 2 {
        shift_turn(p, x)
    } else if other.is_below(held) {
        search_turn(p, x, p.to + 1)
    } else if held.is_covered(other) {
        covered_turn(p, x)
    } else if held.is_covering(other) {
        search_turn(p, x, p.to)
    } else {
        shift_turn(p, x)
    }
}
