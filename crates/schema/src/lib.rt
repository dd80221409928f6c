// Rules, after CDDL (RFC 8610): their bytes.

#![tactic(auto)]

mod entries;
pub mod kinds;
pub mod nodes;
mod reader;
pub mod reading;
mod sorts;
mod stack;
pub mod table;
pub mod writing;
