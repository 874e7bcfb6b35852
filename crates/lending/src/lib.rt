// Areas that are lent to an entry: stamped before, looked at after, and summed.
#![tactic(auto)]

pub mod stamps;
pub mod tables;
pub mod work;
