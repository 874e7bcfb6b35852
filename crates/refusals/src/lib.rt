// A refusal as the paper numbers it: what a person or another program is told.
#![tactic(auto)]

ghost use Rattle.std.specs.Prelude.{◌≡◌};
ghost use Rattle.rules.specs.Refusals.{number_of, place_of};

use rules::Refusal;

// The refusal's number in the list of refusals: a table of the paper, which `From` would not say.
pub fn number_of(r: Refusal) -> u32
    ensures { result ≡ number_of r }
{
    match r {
        Refusal::Form(_) => 1,
        Refusal::Range(_) => 2,
        Refusal::Room(_) => 3,
        Refusal::Parent(_) => 4,
        Refusal::Childless(_) => 5,
        Refusal::Mark(_) => 6,
        Refusal::Short => 7,
        Refusal::NoRow => 8,
    }
}

// The line it is given for, or 0: the paper's table too.
pub fn place_of(r: Refusal) -> u32
    ensures { result ≡ place_of r }
{
    match r {
        Refusal::Form(line) => line,
        Refusal::Range(line) => line,
        Refusal::Room(line) => line,
        Refusal::Parent(line) => line,
        Refusal::Childless(line) => line,
        Refusal::Mark(line) => line,
        Refusal::Short => 0,
        Refusal::NoRow => 0,
    }
}
