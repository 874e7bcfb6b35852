// Candidates in a lent run of records, and one walk over it: a pass goes over the run a turn at a time.
#![tactic(auto)]

pub mod passes;
