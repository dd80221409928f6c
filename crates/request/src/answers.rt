// What a request is answered by.
ghost use Rattle.std.specs.Prelude.{◌≡◌, Some};
ghost use Rattle.request.specs.Answers.{refusal_number, numbers, listed, line};

use std::fmt;

// Why a request is refused.
#[derive(Clone, Copy, Debug, PartialEq, Eq)]
pub enum Refusal {
    NotARequest = 1,
    TooLarge = 2,
    Unsound = 3,
    Circular = 4,
    NotOneItem = 5,
    NotOffered = 6,
}

#[derive(Clone, Copy, Debug, PartialEq, Eq)]
pub enum Answer {
    Refused(Refusal, usize),
    Complete,
    Prefix,
    Wrong(usize),
    Found(usize, usize),
    NotThere,
    Fits(bool),
}

// An answer's number and its values.
#[derive(Clone, Copy, Debug, PartialEq, Eq)]
pub enum Numbers {
    One(u64),
    Two(u64, u64),
    Three(u64, u64, u64),
}

impl From<Refusal> for u64 {
    ghost from_gives = { λ refusal number. number ≡ refusal_number refusal };

    fn from(refusal: Refusal) -> u64 {
        refusal as u64
    }
}

impl From<Answer> for Numbers {
    ghost from_gives = { λ answer all. listed all ≡ numbers answer };

    fn from(answer: Answer) -> Numbers {
        match answer {
            Answer::Refused(refusal, place) => {
                Numbers::Three(0, u64::from(refusal), place as u64)
            }
            Answer::Complete => Numbers::One(1),
            Answer::Prefix => Numbers::One(2),
            Answer::Wrong(place) => Numbers::Two(3, place as u64),
            Answer::Found(from, size) => Numbers::Three(4, from as u64, size as u64),
            Answer::NotThere => Numbers::One(5),
            Answer::Fits(yes) => Numbers::Two(6, u64::from(yes)),
        }
    }
}

// The line of an answer, without its line feed.
impl fmt::Display for Answer {
    ghost output = { λ a. Some (line (numbers a)) };

    fn fmt<W: fmt::Write>(&self, f: &mut fmt::Formatter<W>) -> fmt::Result {
        match Numbers::from(*self) {
            Numbers::One(a) => write!(f, "{a}"),
            Numbers::Two(a, b) => write!(f, "{a} {b}"),
            Numbers::Three(a, b, c) => write!(f, "{a} {b} {c}"),
        }
    }
}
