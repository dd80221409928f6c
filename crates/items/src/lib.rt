// Items in lent bytes, gone over without copying them.

#![tactic(auto)]

pub mod comparing;
pub mod skipping;
pub mod text;
