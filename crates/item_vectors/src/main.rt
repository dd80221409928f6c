// Goes through a table on standard input, and compares what is told of items with what stands beside it.
//
// A line is a word, what is asked about in hex digits, the sign =>, and what is told: check, of bytes; item, of bytes that begin with a
// valid one; text, of an announced length and bytes; order, of two byte strings with a comma between them.
// What follows a # is a comment.

#![tactic(auto)]

use anyhow::{Context, anyhow};
use checker::{LENT, check};
use items::comparing::{Comparison, compare};
use items::skipping::item_at;
use items::text::first_wrong;
use std::alloc::Global;

fn main(rt: HostRuntime) -> anyhow::Result<()> {
    let heap = rt.alloc();
    tables::go_through(&rt, rt.stdin(), |asked| told(heap, asked))
}

fn told(heap: Global, asked: &str) -> anyhow::Result<String> {
    let (word, rest) = asked.trim().split_once(' ').unwrap_or((asked.trim(), ""));
    match word {
        "check" => verdict_told(heap, rest),
        "item" => item_told(heap, rest),
        "text" => text_told(heap, rest),
        "order" => order_told(heap, rest),
        _ => Err(anyhow!("a line that begins with no word")),
    }
}

// One item, the beginning of some, or the first wrong byte.
fn verdict_told(heap: Global, asked: &str) -> anyhow::Result<String> {
    let bytes = hex::decode(heap, asked.trim())?;
    let mut lent = [0u64; LENT];
    let verdict = check(bytes.as_slice(), &mut lent)?;
    Ok(format!(in heap; "{verdict}")?)
}

// Of bytes that begin with a valid item: how many are the item's.
fn item_told(heap: Global, asked: &str) -> anyhow::Result<String> {
    let bytes = hex::decode(heap, asked.trim())?;
    match item_at(bytes.as_slice(), 0) {
        Some(item) => Ok(format!(in heap; "{} bytes", item.len())?),
        None => Ok(format!(in heap; "none")?),
    }
}

// Of a length and bytes: the first byte with which no text of that length goes on.
fn text_told(heap: Global, asked: &str) -> anyhow::Result<String> {
    let (size, digits) = asked.trim().split_once(' ').unwrap_or((asked.trim(), ""));
    let size = size.parse().ok().context("a text without a length")?;
    let bytes = hex::decode(heap, digits)?;
    match first_wrong(bytes.as_slice(), size) {
        Some(place) => Ok(format!(in heap; "wrong at {place}")?),
        None => Ok(format!(in heap; "goes on")?),
    }
}

// Of two byte strings: which comes first, by which index. The words are this table's own, and no Display of a library's.
fn order_told(heap: Global, asked: &str) -> anyhow::Result<String> {
    let (left, right) = asked.split_once(',').context("no two byte strings")?;
    let left = hex::decode(heap, left.trim())?;
    let right = hex::decode(heap, right.trim())?;
    match compare(left.as_slice(), right.as_slice()) {
        Comparison::Before(index) => Ok(format!(in heap; "before, by {index}")?),
        Comparison::Same => Ok(format!(in heap; "same")?),
        Comparison::After(index) => Ok(format!(in heap; "after, by {index}")?),
    }
}
