// CBOR sequences (RFC 8742) of unsigned integers and byte strings: tokens read from lent bytes and written into them.

#![tactic(auto)]

pub mod reading;
pub mod writing;
