// Byte strings compared, with the index that decides.
ghost use Rattle.std.specs.Prelude.{◌≡◌, ℕ, ◌<◌, ◌≤◌, length, slice_index};
ghost use Rattle.items.specs.Comparing.{Compared};

use std::cmp::Ordering;

// Which of two byte strings comes first, and the index of the first byte that only one of them has there.
#[derive(Clone, Copy, PartialEq, Eq, Debug)]
pub enum Comparison {
    Before(usize),
    Same,
    After(usize),
}

// How many bytes come before the first in which they differ.
fn same_count(left: &[u8], right: &[u8]) -> usize
    ensures in_left { result ≤ length left.now }
    ensures in_right { result ≤ length right.now }
    ensures before { (k : ℕ) → k < result → slice_index left.now k ≡ slice_index right.now k }
    ensures there { result < length left.now → result < length right.now → slice_index left.now result ≡ slice_index right.now result → ⊥ }
{
    left.iter()
        .zip(right.iter())
        .take_while(|(a, b)| a == b)
        .count()
}

pub fn compare(left: &[u8], right: &[u8]) -> Comparison
    ensures { Compared left.now right.now result }
{
    let index = same_count(left, right);
    match left.get(index).cmp(&right.get(index)) {
        Ordering::Less => Comparison::Before(index),
        Ordering::Equal => Comparison::Same,
        Ordering::Greater => Comparison::After(index),
    }
}
