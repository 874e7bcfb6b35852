// The entries in their areas: how one is counted and stored after those that have passed, the words of a table's entry, and areas
// copied.
#![tactic(auto)]

pub mod areas;
pub mod copies;
pub mod counts;
pub mod words;
