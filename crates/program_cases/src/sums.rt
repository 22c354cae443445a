//! Lists of numbers with their sums, beside plain lists.

use crate::random::Numbers;
use crate::words::number_at;
use case_script::Told;
use prefix_sums::{Position, PrefixSums};
use std::alloc::Global;

/// Makes lists of so many random numbers, edits them so often in each way, and tells whether both have
/// the same sums before and after, at each place that is a multiple of the step.
pub fn sums(alloc: Global, words: &[Vec<u8>], told: &mut Told) -> Option<()> {
    let count = number_at(words, 0)?;
    let edits = number_at(words, 1)?;
    let step = number_at(words, 2)? as usize;
    let mut pair = Pair::new(alloc, count);
    let filled = pair.fill(count) && pair.agree(step);
    let edited = pair.edit(edits) && pair.agree(step);
    told.text("the same sums: ");
    told.value(&(filled && edited));
    drop(pair);
    Some(())
}

/// A list beside a plain one, and what the next number is drawn from.
#[derive(Drop)]
struct Pair {
    sums: PrefixSums,
    plain: Vec<u32>,
    numbers: Numbers,
}

impl Pair {
    /// Two lists without numbers.
    fn new(alloc: Global, seed: u32) -> Pair {
        Pair {
            sums: PrefixSums::new(alloc),
            plain: Vec::new(alloc),
            numbers: Numbers::behind(seed),
        }
    }

    /// Puts so many numbers into both lists, the one with sums and the plain one, and tells whether there was memory
    /// for them.
    fn fill(&mut self, count: u32) -> bool {
        let mut same = true;
        for _ in 0..count {
            same = self.insert().is_some() && same;
        }
        same
    }

    /// Edits both lists, the one with sums and the plain one, so often in each way, and tells whether both did the
    /// same.
    fn edit(&mut self, times: u32) -> bool {
        let mut same = true;
        for _ in 0..times {
            same = self.insert().is_some() && self.set() && self.remove() && same;
        }
        same
    }

    /// A place in both lists, or at their end, and a number to put there: 0 in one of four cases.
    fn draw(&mut self) -> (usize, u32) {
        let most = self.plain.len().min(100_000) as u32;
        let place = self.numbers.below(most + 1) as usize;
        let number = match self.numbers.below(4) {
            0 => 0,
            _ => self.numbers.below(9),
        };
        (place, number)
    }

    /// Puts a number into both lists, where there is memory for it.
    fn insert(&mut self) -> Option<()> {
        let (k, number) = self.draw();
        if k > self.plain.len() {
            return None;
        }
        self.plain.insert(k, number).ok()?;
        put(&mut self.sums, k, number)
    }

    /// Sets a number in both lists, if there is one in the place, and tells whether the lists stay small.
    fn set(&mut self) -> bool {
        let (k, number) = self.draw();
        match self.plain.get_mut(k) {
            Some(place) => {
                *place = number;
                replace(&mut self.sums, k, number)
            }
            None => true,
        }
    }

    /// Takes a number out of both lists, if there is one in the place, and tells whether the two are the
    /// same.
    fn remove(&mut self) -> bool {
        let (k, _) = self.draw();
        if k >= self.plain.len() || k >= self.sums.len() {
            return true;
        }
        self.sums.remove(k) == self.plain.remove(k)
    }

    /// Whether both lists have the same sums at every place that is a multiple of the step, and the same
    /// counts run out in the same numbers.
    fn agree(&self, step: usize) -> bool {
        let mut sum: u32 = 0;
        let mut same = self.sums.len() == self.plain.len();
        for (k, number) in self.plain.iter().enumerate() {
            if k.checked_rem(step) == Some(0) {
                same = same && self.sums.before(k) == sum && self.finds(sum);
            }
            sum = sum.saturating_add(*number);
        }
        same && self.sums.total() == sum
            && self.sums.before(self.plain.len()) == sum
            && self.sums.find(sum) == None
            && self.finds(sum.saturating_sub(1))
    }

    /// Whether the count runs out in the same number of both lists.
    fn finds(&self, at: u32) -> bool {
        let mut rest = at;
        for (index, number) in self.plain.iter().enumerate() {
            if rest < *number {
                return self.sums.find(at) == Some(Position { index, rest });
            }
            rest -= *number;
        }
        self.sums.find(at) == None
    }
}

/// Puts a number into the list with its sums, as long as it is small.
fn put(sums: &mut PrefixSums, k: usize, number: u32) -> Option<()> {
    if k > sums.len() || sums.len() > 100_000 || sums.total() > 1_000_000 || number > 1_000 {
        return None;
    }
    sums.reserve(1).ok()?;
    sums.insert(k, number);
    Some(())
}

/// Sets a number of the list with its sums, as long as it is small.
fn replace(sums: &mut PrefixSums, k: usize, number: u32) -> bool {
    if k >= sums.len() || sums.total() > 1_000_000 || number > 1_000 {
        return false;
    }
    sums.set(k, number);
    true
}
