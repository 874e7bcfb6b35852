// The input of the program `vectors`: its requests read, and what they set up. Nothing here says anything: what is written stands in
// the program.
#![tactic(auto)]

pub mod numbers;
pub mod requests;
pub mod setup;
pub mod texts;
