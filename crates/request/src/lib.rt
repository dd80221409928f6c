// Requests and answers: requests read from lent bytes as parts of them and written into lent bytes, answers as numbers and lines.

#![tactic(auto)]

pub mod answers;
pub mod laws;
pub mod reading;
pub mod writing;
