// One function that answers any request.

#![tactic(auto)]

ghost use Rattle.std.specs.Prelude.{length, Some, codes};
ghost use Rattle.answer.specs.Promise.{Answers, RequestIn, RulesToldOf};

use cbor::writing::head_size;
use request::answers::{Answer, Refusal};
use request::reading::{Request, read_request, rules_in};
use schema::reading::{NoRules, STACK, TABLE};
use sequence::reading::Parsed;
use std::fmt;

pub mod refusals;
mod rules;

use refusals::{Offered, first_refusal};
use rules::read_into;

// How many numbers have to be lent: what reading rules takes for its stack and for their table.
pub const LENT: usize = STACK + TABLE;

const OFFERED: Offered = Offered {
    check: false,
    find: false,
    fit: false,
};

#[derive(Clone, Copy, Debug, PartialEq, Eq)]
pub struct TooLittleLent;

impl fmt::Display for TooLittleLent {
    ghost output = { λ _. Some (codes "too little is lent") };

    fn fmt<W: fmt::Write>(&self, f: &mut fmt::Formatter<W>) -> fmt::Result {
        write!(f, "too little is lent")
    }
}

impl std::error::Error for TooLittleLent {}

// The place at which the rules of a request are wrong, if they are all there and it is.
fn wrong_rules(bytes: &[u8], lent: &mut [u64; LENT]) -> Option<usize>
    ensures { RulesToldOf bytes.now result }
{
    let rules = rules_in(bytes)?;
    match read_into(rules, lent) {
        Err(NoRules::Wrong(place)) => Some(1 + head_size(rules.len() as u64) + place),
        _ => None,
    }
}

// The request that some bytes begin with, or the place at which they are none. Rules that are all there are read before it.
fn request_in<'a>(bytes: &'a [u8], lent: &mut [u64; LENT]) -> Result<Parsed<Request<'a>>, usize>
    ensures { RequestIn bytes.now result }
{
    match wrong_rules(bytes, lent) {
        Some(place) => Err(place),
        None => read_request(bytes).map_err(|stop| stop.place),
    }
}

// The answer to the request that some bytes begin with; bytes that begin with none are refused, with the place.
pub fn answer(bytes: &[u8], lent: &mut [u64]) -> Result<Answer, TooLittleLent>
    ensures { Answers (length lent.old) bytes.now result }
{
    let Some(lent) = lent.first_chunk_mut::<LENT>() else {
        return Err(TooLittleLent);
    };
    match request_in(bytes, lent) {
        Ok(request) => {
            let Some(refusal) = first_refusal(request.value, OFFERED, lent) else {
                unreachable()
            };
            Ok(Answer::Refused(refusal, 0))
        }
        Err(place) => Ok(Answer::Refused(Refusal::NotARequest, place)),
    }
}
