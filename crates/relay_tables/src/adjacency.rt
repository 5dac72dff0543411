//! Rows of numbers, one row after another.
ghost use Rattle.std.specs.Prelude.{◌≡◌, ◌<◌, ◌-◌, ◌^◌, ◌++◌, ◌∷◌, [], length, slice_index, IfOk, OnOk, OnErr};
ghost use Rattle.std.specs.List.{concat};
ghost use Rattle.relay_chains.specs.Interner.{AreCut};
ghost use Rattle.relay_tables.specs.Adjacency.{lists_of, row_of};

use std::alloc::{AllocError, Global};
use std::marker::Model;
use std::slice;

/// Rows of numbers, numbered from 0 up: 4 bytes for a row of one number or none, and for a longer one 12, and 4 for each number.
///
/// Most rows have one number. It's the row's record itself, and so takes one read of memory and 4 bytes; by the ends of its row it would
/// take two reads, one after the other, and 12 bytes.
#[derive(Drop)]
pub(crate) struct Adjacency {
    /// By row: its only number where that is below `LONG`, or `LONG` and its place among the long rows, or `EMPTY`.
    records: Vec<u32>,
    /// The numbers of the long rows, in order.
    numbers: Vec<u32>,
    /// By long row: where it ends among these numbers.
    ends: Vec<usize>,
}

/// From here on a record isn't a number, but the place of a long row.
const LONG: u32 = 1 << 31;

/// The record of an empty row: a place where no long row stands.
const EMPTY: u32 = u32::MAX;

impl Model for Adjacency {
    ghost use Rattle.std.specs.Prelude.{ℕ, List};
    ghost use Rattle.relay_tables.specs.Adjacency.{IsAdjacency, rows_of};

    ghost Value = { List (List ℕ) };

    ghost view = { λ a. rows_of a.records.items a.numbers.items a.ends.items };

    ghost invariant = { λ a. IsAdjacency a.records.items a.numbers.items a.ends.items };
}

impl Adjacency {
    /// No rows, and room for so many of them, as long as none is long.
    pub(crate) fn with_capacity(alloc: Global, rows: usize) -> Result<Adjacency, AllocError>
        ensures { IfOk result (λ made. made ≡ []) }
    {
        Ok(Adjacency {
            records: Vec::with_capacity(alloc, rows)?,
            numbers: Vec::new(alloc),
            ends: Vec::new(alloc),
        })
    }

    /// The rows that these ends cut the numbers into. `Err` where memory runs out.
    pub(crate) fn from_parts(
        alloc: Global,
        numbers: Vec<u32>,
        ends: Vec<usize>,
    ) -> Result<Adjacency, AllocError>
        requires cut { AreCut numbers.items ends.items }
        requires few { length ends.items < 2 ^ 31 }
        ensures { IfOk result (λ made. made ≡ lists_of numbers.items ends.items) }
    {
        let mut made = Adjacency::with_capacity(alloc, ends.len())?;
        for number in 0..ends.len() {
            made.push(row_at(&numbers, &ends, number))?;
        }
        Ok(made)
    }

    /// Puts a row at the end. `Err` where memory runs out. There are fewer than 2^31 rows, so that no long one ever stands in the place that
    /// means an empty row.
    pub(crate) fn push(&mut self, row: &[u32]) -> Result<(), AllocError>
        requires { length self.old < 2 ^ 31 - 1 }
        ensures ok { OnOk result (self.new ≡ self.old ++ row.now ∷ []) }
        ensures err { OnErr result (self.new ≡ self.old) }
    {
        match row {
            [] => self.records.push(EMPTY)?,
            [number] if *number < LONG => self.records.push(*number)?,
            _ => return self.push_long(row),
        }
        Ok(())
    }

    // The same of any row, among the long ones.
    fn push_long(&mut self, row: &[u32]) -> Result<(), AllocError>
        requires { length self.old < 2 ^ 31 - 1 }
        ensures ok { OnOk result (self.new ≡ self.old ++ row.now ∷ []) }
        ensures err { OnErr result (self.new ≡ self.old) }
    {
        self.records.reserve(1)?;
        self.ends.reserve(1)?;
        self.numbers.extend_from_slice(row)?;
        let kept = LONG + self.ends.len() as u32;
        let end = self.numbers.len();
        self.ends.push_reserved(end);
        self.records.push_reserved(kept);
        Ok(())
    }

    /// How many rows there are.
    pub(crate) fn len(&self) -> usize
        ensures { result ≡ length self.now }
    {
        self.records.len()
    }

    /// A row in place. There is nothing in a row past the last one.
    pub(crate) fn row(&self, number: usize) -> &[u32]
        ensures { result.now ≡ row_of self.now number }
    {
        match self.records.get(number) {
            Some(kept) if *kept < LONG => slice::from_ref(kept),
            Some(kept) => row_at(&self.numbers, &self.ends, (*kept - LONG) as usize),
            None => &[],
        }
    }

    /// The numbers of all rows, in order. `Err` where memory runs out.
    pub(crate) fn flattened(&self, alloc: Global) -> Result<Vec<u32>, AllocError>
        ensures { IfOk result (λ numbers. numbers.items ≡ concat self.now) }
    {
        let mut numbers = Vec::with_capacity(alloc, self.len())?;
        for number in 0..self.len() {
            append(self.row(number), &mut numbers)?;
        }
        Ok(numbers)
    }
}

// Puts a row behind these numbers. Most rows have one number, for which a push is less work than a copy.
fn append(row: &[u32], numbers: &mut Vec<u32>) -> Result<(), AllocError>
    ensures ok { OnOk result (numbers.new.items ≡ numbers.old.items ++ row.now) }
    ensures err { OnErr result (numbers.new.items ≡ numbers.old.items) }
{
    match row {
        [number] => {
            numbers.push(*number)?;
            Ok(())
        }
        _ => numbers.extend_from_slice(row),
    }
}

// Where a row begins.
fn start_of(ends: &[usize], number: usize) -> usize
    requires { number < length ends.now }
    ensures { result ≡ slice_index (0 ∷ ends.now) number }
{
    if number == 0 { 0 } else { ends[number - 1] }
}

// A row of those that these ends cut the numbers into. There is nothing in a row past the last one.
fn row_at<'a>(numbers: &'a [u32], ends: &[usize], number: usize) -> &'a [u32]
    requires { AreCut numbers.now ends.now }
    ensures { result.now ≡ row_of (lists_of numbers.now ends.now) number }
{
    if number < ends.len() {
        &numbers[start_of(ends, number)..ends[number]]
    } else {
        &[]
    }
}
