// One turn of a pass by value: what is read at two places decides what is put at a third, and where the pass goes on.
#![tactic(auto)]

ghost use Rattle.std.specs.Prelude.{◌≡◌, pos};
ghost use Rattle.rules.specs.Areas.{zeros};
ghost use Rattle.values.specs.Records.{cand_of};
ghost use Rattle.turns.specs.Turns.{pass_of, Here, Can, Turned};

use rules::{Cand, Femtofarad, Femtosecond, Ohm};

pub mod moving;
pub mod working;

// What a pass does at each turn.
#[derive(Clone, Copy)]
pub enum Step {
    // The held one is put at each place.
    Put,
    // Each goes to a place before its own.
    Move,
    // The first behind a wire; then each, kept if it is later than the last kept.
    FirstWire(Ohm, Femtofarad),
    Wire(Ohm, Femtofarad),
    // The first of those that are worth most behind a delay is held.
    FirstChoice(Femtosecond, Ohm),
    Choose(Femtosecond, Ohm),
    // The held one is put into its place by load; then each that it moved aside.
    Insert,
    Shift,
    // Two lists walked together, up to their ends.
    Branch(usize, usize),
}

// A pass: what is left of it, where it reads and writes, and what it holds. What a turn asks of it, `Here`, is no invariant: a pass that is
// over has nothing left, and may write past the room next.
#[derive(Clone, Copy)]
pub struct Pass {
    pub step: Step,
    pub left: usize,
    pub from: usize,
    pub with: usize,
    pub to: usize,
    pub held: Cand,
    pub worth: Femtosecond,
}

// What is put, and how the pass goes on.
#[derive(Clone, Copy)]
pub struct Turn {
    pub put: Cand,
    pub next: Pass,
}

// A pass that stands at a place, with nothing to do and nothing held.
pub fn idle_at(at: usize) -> Pass
    ensures { result ≡ pass_of Step.Put 0 at at at zeros (record { 0 = pos 0 }) }
{
    Pass {
        step: Step::Put,
        left: 0,
        from: at,
        with: at,
        to: at,
        held: values::blank(),
        worth: Femtosecond(0),
    }
}

// The turn that the pass's step says.
// The step is a value of the pass, not a closure: what the theorems of `stands` say of a sweep is said for each step (`Can`, `Turned`).
pub fn turn_of(p: Pass, x: Cand, y: Cand) -> Turn
    requires { Here p × Can p.step (cand_of x) (cand_of y) }
    ensures { Turned p.step p x y result }
{
    match p.step {
        Step::Put => moving::put_turn(p),
        Step::Move => moving::move_turn(p, x),
        Step::FirstWire(r, c) => working::first_wire_turn(p, x, r, c),
        Step::Wire(r, c) => working::wire_turn(p, x, y, r, c),
        Step::FirstChoice(own, r) => working::first_choice_turn(p, x, own, r),
        Step::Choose(own, r) => working::choose_turn(p, x, own, r),
        Step::Insert => moving::insert_turn(p, x),
        Step::Shift => moving::shift_turn(p, x),
        Step::Branch(end, mid) => working::branch_turn(p, x, y, end, mid),
    }
}
