// A table of cases. A case is a line: what is asked, the sign =>, and what should be told.

#![tactic(auto)]

ghost use Rattle.std.specs.Prelude.{◌≡◌, ◌≢◌, ◌==◌, ◌+◌, ◌-◌, ◌^◌, min, if◌then◌else◌, MatchBool};
ghost use Rattle.std.specs.List.{before_first};
ghost use Rattle.std.specs.Str.{trim};

use anyhow::Context;
use std::io::{BufRead, BufReader, Read};

// What follows it on a line is a comment.
pub const COMMENT: char = '#';

pub fn without_comment(line: &str) -> &str
    ensures { result.now ≡ before_first (λ c. c == COMMENT) line.now }
{
    line.split_once(COMMENT).map_or(line, |(case, _)| case)
}

// How many cases there were, and of how many something else was told.
#[derive(Default, Drop)]
struct Count {
    cases: u64,
    differ: u64,
}

impl Count {
    // Counts a case, and answers whether something else is told than is expected, about which white space may stand.
    fn differs(&mut self, told: &str, expected: &str) -> bool
        ensures told { MatchBool result (told.now ≢ trim expected.now) (told.now ≡ trim expected.now) }
        ensures cases { self.new.cases ≡ min (self.old.cases + 1) (2 ^ 64 - 1) }
        ensures differ { self.new.differ ≡ if result then min (self.old.differ + 1) (2 ^ 64 - 1) else self.old.differ }
    {
        let differs = told != expected.trim();
        self.cases = self.cases.saturating_add(1);
        self.differ = self.differ.saturating_add(u64::from(differs));
        differs
    }
}

// Goes through the table that is read, and prints each case of which something else is told, and then how many there were.
pub fn go_through<R: Print + AllocGlobal, I: Read + Drop, F: FnMut(&str) -> anyhow::Result<String>>(
    rt: &R,
    table: I,
    mut tell: F,
) -> anyhow::Result<()>
    requires { (state : F) (asked : _) → F.pre state asked }
{
    let heap = rt.alloc();
    let mut count = Count::default();
    for line in BufReader::new(heap, table)?.lines(heap) {
        let line = line?;
        let case = without_comment(line.as_str());
        if case.trim().is_empty() {
            continue;
        }
        let (asked, expected) = case.split_once("=>").context("a line without =>")?;
        let told = tell(asked)?;
        if count.differs(told.as_str(), expected) {
            println!(rt; "{case}: {told}")?;
        }
    }
    let Count { cases, differ } = count;
    println!(rt; "{cases} cases, {differ} told otherwise")?;
    Ok(())
}
