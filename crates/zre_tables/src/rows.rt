//! Rows under numbers, in their order.

ghost use Rattle.std.specs.Prelude.{◌≡◌, ◌≤◌, Some, None, [], MatchOption, length, slice_get, insert};
ghost use Rattle.std.specs.Prelude.{IfOk, IfErr, OnOk, OnErr, option_copied};
ghost use Rattle.std.specs.BTreeMap.{insert_entry};
ghost use Rattle.std.specs.List.Sorted.{IsStrictlySortedBy};
ghost use Rattle.std.specs.Map.{keys_of};
ghost use Rattle.std.specs.Ordering.{nat_cmp};
ghost use Rattle.zre_tables.specs.Rows.{row_at, without_row};

use std::alloc::Global;
use zre_values::OutOfMemory;

// Rows under numbers, which rise. They lie side by side, and a number is looked for at its distance from the first one
// before it is searched, since numbers are given one after the other.
#[derive(Drop)]
pub(crate) struct Rows<T: Drop> {
    pub(crate) all: Vec<(u64, T)>,
}

impl<T: Drop> Rows<T> {
    // No rows, which take no memory.
    pub(crate) fn new(alloc: Global) -> Self
        ensures empty { result.all.items ≡ [] }
        ensures rising { IsStrictlySortedBy nat_cmp (keys_of result.all.items) }
    {
        Rows {
            all: Vec::new(alloc),
        }
    }

    // Where a number stands or, where it has no row, where its row would come.
    fn search(&self, number: u64) -> Result<usize, usize>
        requires { IsStrictlySortedBy nat_cmp (keys_of self.now.all.items) }
        ensures ok { IfOk result (λ i. (x : T) × (slice_get self.now.all.items i ≡ Some (number, x))) }
        ensures err { IfErr result (λ i. (i ≤ length self.now.all.items) × (row_at number self.now.all.items ≡ None)
            × ((x : T) → insert self.now.all.items i (number, x) ≡ insert_entry nat_cmp self.now.all.items number x)) }
    {
        self.all.binary_search_by_key(&number, |row| row.0)
    }

    // The place of the row of a number.
    pub(crate) fn place(&self, number: u64) -> Option<usize>
        requires { IsStrictlySortedBy nat_cmp (keys_of self.now.all.items) }
        ensures { MatchOption result (row_at number self.now.all.items ≡ None)
            (λ i. (x : T) × (slice_get self.now.all.items i ≡ Some (number, x))) }
    {
        if self.all.is_empty() {
            return None;
        }
        let first = self.all[0].0;
        if first <= number {
            let far = number - first;
            if far < self.all.len() as u64 && self.all[far as usize].0 == number {
                return Some(far as usize);
            }
        }
        match self.search(number) {
            Ok(at) => Some(at),
            Err(_) => None,
        }
    }

    // The row of a number.
    pub(crate) fn get(&self, number: u64) -> Option<&T>
        requires { IsStrictlySortedBy nat_cmp (keys_of self.now.all.items) }
        ensures { option_copied result ≡ row_at number self.now.all.items }
    {
        let at = self.place(number)?;
        Some(&self.all[at].1)
    }

    // The numbers, rising.
    pub(crate) fn numbers(&self, alloc: Global) -> Result<Vec<u64>, OutOfMemory>
        ensures { IfOk result (λ numbers. numbers.items ≡ keys_of self.now.all.items) }
    {
        let mut numbers = Vec::with_capacity(alloc, self.all.len())?;
        for (number, _) in &self.all {
            numbers.push(*number)?;
        }
        Ok(numbers)
    }

    // A row comes, or takes the place of that of its number, or nothing has changed.
    pub(crate) fn insert(&mut self, number: u64, row: T) -> Result<(), OutOfMemory>
        // The numbers rise, before and after.
        requires { IsStrictlySortedBy nat_cmp (keys_of self.old.all.items) }
        ensures ok { OnOk result (self.new.all.items ≡ insert_entry nat_cmp self.old.all.items number row) }
        ensures rising { IsStrictlySortedBy nat_cmp (keys_of self.new.all.items) }
        // A number that is there takes no memory; an error changes nothing.
        ensures absent { OnErr result (row_at number self.old.all.items ≡ None) }
        ensures err { OnErr result (self.new.all.items ≡ self.old.all.items) }
    {
        match self.search(number) {
            Ok(at) => self.all[at].1 = row,
            Err(at) => self.all.insert(at, (number, row))?,
        }
        Ok(())
    }

    // The row of a number goes out.
    pub(crate) fn remove(&mut self, number: u64) -> Option<T>
        // The numbers rise, before and after.
        requires { IsStrictlySortedBy nat_cmp (keys_of self.old.all.items) }
        // The row that was there, and the others.
        ensures value { result ≡ row_at number self.old.all.items }
        ensures rows { self.new.all.items ≡ without_row number self.old.all.items }
        ensures rising { IsStrictlySortedBy nat_cmp (keys_of self.new.all.items) }
    {
        let at = self.place(number)?;
        Some(self.all.remove(at).1)
    }
}
