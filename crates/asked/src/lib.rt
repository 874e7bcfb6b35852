// The entries asked as the program `vectors` asks them: on areas that are stamped before, lent at the lengths asked for and looked at
// after. Nothing here says anything: what is written stands in the program.
#![tactic(auto)]

pub mod listing;
pub mod planning;
pub mod tables;
mod work;
