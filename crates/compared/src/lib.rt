// What the program `storages` does without saying anything: the nets of its input parted, and two answers compared.
#![tactic(auto)]

pub mod answers;
pub mod parting;
