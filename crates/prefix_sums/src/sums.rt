//! A list of numbers with the running sum of every 64th beside it.
ghost use Rattle.std.specs.Prelude.{◌≡◌, ◌+◌, ◌*◌, ◌^◌, ◌<◌, ◌≤◌, ◌++◌, [], OnOk, Some, length, slice_get, slice_set, sum, take, vec_capacity, vec_len};
ghost use Rattle.std.specs.List.{insert};
ghost use Rattle.prefix_sums.specs.Found.{IsFound};
ghost use Rattle.prefix_sums.specs.PlainPrefixSums.{with_number_inserted, with_number_set, with_number_removed};

use crate::position::Position;
use std::alloc::{AllocError, Global};
use std::marker::Model;

/// How many numbers of the list lie between two marks, which are the running sums beside it.
const BLOCK: usize = 64;

/// A list of numbers, whose sums are found in few steps however long it is. Contracts see it as the list,
/// with how many more numbers it has room for.
#[derive(Drop)]
pub struct PrefixSums {
    numbers: Vec<u32>,
    marks: Vec<u32>,
    total: u32,
}

impl Model for PrefixSums {
    ghost use Rattle.prefix_sums.specs.PlainPrefixSums.{PlainPrefixSums};

    ghost Value = { PlainPrefixSums };

    ghost use Rattle.prefix_sums.specs.Private.RunningSums.{IsRight, seen};

    ghost view = { seen };

    ghost invariant = { IsRight };
}

impl PrefixSums {
    /// The list of no numbers. It takes no memory.
    pub fn new(alloc: Global) -> PrefixSums
        ensures { result.numbers ≡ [] }
    {
        PrefixSums {
            numbers: Vec::new(alloc),
            marks: Vec::new(alloc),
            total: 0,
        }
    }

    /// How many numbers the list has.
    pub fn len(&self) -> usize
        ensures { result ≡ length self.now.numbers }
    {
        self.numbers.len()
    }

    /// The sum of all numbers of the list.
    pub fn total(&self) -> u32
        ensures total { result ≡ sum self.now.numbers }
    {
        self.total
    }

    /// The running sum of the first `k` numbers of the list, or of all where there are fewer.
    pub fn before(&self, k: usize) -> u32
        ensures { result ≡ sum (take k self.now.numbers) }
    {
        let end = k.min(self.numbers.len());
        let block = end / BLOCK;
        let mut sum = self.mark_before(block);
        for i in BLOCK * block..end {
            sum += self.numbers[i];
        }
        sum
    }
}

impl PrefixSums {
    /// Finds, fast by the running sums, in which number of the list the count runs out, where each number takes
    /// its share of it in turn, or `None` where all of them together are no more than the count.
    pub fn find(&self, at: u32) -> Option<Position>
        ensures { IsFound self.now.numbers at result }
    {
        let len = self.numbers.len();
        let block = self.block_of(at);
        let mut index = BLOCK * block;
        let mut rest = at - self.mark_before(block);
        while index < len {
            let number = self.numbers[index];
            if rest < number {
                return Some(Position { index, rest });
            }
            rest -= number;
            index += 1;
        }
        None
    }

    /// How many of the marks, the running sums of every 64th number beside the list, aren't above the count.
    fn block_of(&self, at: u32) -> usize
        ensures whole { 64 * result ≤ length self.now.numbers }
        ensures before { sum (take (64 * result) self.now.numbers) ≤ at }
        ensures behind { 64 * result + 64 ≤ length self.now.numbers
            → at < sum (take (64 * result + 64) self.now.numbers) }
    {
        let mut low = 0;
        let mut high = self.marks.len();
        while low < high {
            let middle = low + (high - low) / 2;
            if self.marks[middle] <= at {
                low = middle + 1;
            } else {
                high = middle;
            }
        }
        low
    }

    /// The running sum of the numbers in the first so many blocks of 64.
    fn mark_before(&self, block: usize) -> u32
        requires whole { 64 * block ≤ length self.now.numbers }
        ensures { result ≡ sum (take (64 * block) self.now.numbers) }
    {
        if block == 0 {
            return 0;
        }
        self.marks[block - 1]
    }
}

impl PrefixSums {
    /// Makes room for so many more numbers in the list, or leaves it as it is where there is no memory for that.
    pub fn reserve(&mut self, more: usize) -> Result<(), AllocError>
        requires few { length self.old.numbers + more < 2 ^ 48 }
        ensures room { OnOk result (more ≤ self.new.spare) }
        ensures same { self.new.numbers ≡ self.old.numbers }
        ensures kept { self.old.spare ≤ self.new.spare }
    {
        self.numbers.reserve(more)?;
        self.marks.reserve(more / BLOCK + 1)
    }

    /// Moves the numbers of the list, with their sums, into the room of an empty one, which is the list then. It
    /// takes no memory.
    pub fn move_into(&mut self, room: PrefixSums)
        requires empty { room.numbers ≡ [] }
        requires room { length self.old.numbers ≤ room.spare }
        ensures numbers { self.new.numbers ≡ self.old.numbers }
        ensures room { room.spare ≤ self.new.spare + length self.old.numbers }
    {
        let mut numbers = room.numbers;
        let mut marks = room.marks;
        append_reserved(&mut numbers, &mut self.numbers);
        append_reserved(&mut marks, &mut self.marks);
        self.numbers = numbers;
        self.marks = marks;
    }

    /// Sets the number of the list in this place, counted from 0, and mends its sums. It takes no memory.
    pub fn set(&mut self, k: usize, number: u32)
        requires there { k < length self.old.numbers }
        requires fits { sum (slice_set self.old.numbers k number) < 2 ^ 32 }
        ensures { self.new ≡ with_number_set self.old k number }
    {
        let old = self.numbers[k];
        self.numbers[k] = number;
        self.total = self.total - old + number;
        for b in k / BLOCK..self.marks.len() {
            self.marks[b] = self.marks[b] - old + number;
        }
    }

    /// Puts a number into the list before the one in this place, counted from 0, or at the end, and mends its sums.
    /// It takes no memory.
    pub fn insert(&mut self, k: usize, number: u32)
        requires there { k ≤ length self.old.numbers }
        requires room { 0 < self.old.spare }
        requires fits { sum (insert self.old.numbers k number) < 2 ^ 32 }
        ensures { self.new ≡ with_number_inserted self.old k number }
    {
        insert_reserved(&mut self.numbers, k, number);
        for b in k / BLOCK..self.marks.len() {
            self.marks[b] = self.marks[b] + number - self.numbers[BLOCK * b + BLOCK];
        }
        self.total += number;
        if self.numbers.len() % BLOCK == 0 {
            self.marks.push_reserved(self.total);
        }
    }

    /// Takes the number in this place out of the list, counted from 0, and mends its sums. The room for it stays.
    pub fn remove(&mut self, k: usize) -> u32
        requires there { k < length self.old.numbers }
        ensures taken { Some result ≡ slice_get self.old.numbers k }
        ensures left { self.new ≡ with_number_removed self.old k }
    {
        self.marks.truncate((self.numbers.len() - 1) / BLOCK);
        let number = self.numbers.remove(k);
        for b in k / BLOCK..self.marks.len() {
            self.marks[b] = self.marks[b] + self.numbers[BLOCK * b + BLOCK - 1] - number;
        }
        self.total -= number;
        number
    }
}

/// Puts a number in this place into a list of numbers with their sums, in the room that it has.
fn insert_reserved(numbers: &mut Vec<u32>, k: usize, number: u32)
    requires there { k ≤ vec_len numbers.old }
    requires room { vec_len numbers.old < vec_capacity numbers.old }
    ensures put { numbers.new.items ≡ insert numbers.old.items k number }
    ensures len { vec_len numbers.new ≡ vec_len numbers.old + 1 }
    ensures room { vec_capacity numbers.new ≡ vec_capacity numbers.old }
{
    if let Err(_) = numbers.insert(k, number) {}
}

/// Moves the numbers of a list behind those of another one, in the room that it has.
fn append_reserved(numbers: &mut Vec<u32>, others: &mut Vec<u32>)
    requires room { vec_len numbers.old + vec_len others.old ≤ vec_capacity numbers.old }
    ensures moved { numbers.new.items ≡ numbers.old.items ++ others.old.items }
    ensures len { vec_len numbers.new ≡ vec_len numbers.old + vec_len others.old }
    ensures room { vec_capacity numbers.old ≤ vec_capacity numbers.new }
{
    if let Err(_) = numbers.append(others) {}
}
