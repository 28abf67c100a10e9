//! The two families of named tasks, by the tuples that they allow.

ghost use Rattle.std.specs.Prelude.{◌≡◌, ◌^◌, ◌<◌, ◌≤◌, nat_lt, [], IfOk, length, slice_index_or};
ghost use Rattle.std.specs.Ordering.{nat_cmp};
ghost use Rattle.wf_model.specs.Lists.{below, lists_of, in_order};
ghost use Rattle.wf_model.specs.Presets.{different};
ghost use Rattle.wf_model.specs.Simplex.{values_of};
ghost use Rattle.wf_model.specs.Task.{IsTaskSimplex};
ghost use Rattle.wf_task_presets.specs.Family.{IsFamily, AreFew, values_for, allows, allowed_lists, tuples_for, tuple_count, tuple_total, at_most};

use std::alloc::{AllocError, Global};
use std::collections::BTreeSet;
use wf_simplex::Simplex;
use wf_task::Row;

/// A family of tasks: it defines which values the processes of an input simplex may decide
/// together.
#[derive(Clone, Copy)]
pub(crate) enum Family {
    /// Set agreement: values of the input simplex, at most this many different ones.
    Agreement(u32),
    /// Renaming: names below this bound, all different.
    Naming(u8),
}

impl Family {
    /// Returns the values that some process of `simplex` may decide, in ascending order.
    fn values(self, alloc: Global, simplex: &Simplex) -> Result<Vec<u8>, AllocError>
        requires { IsFamily self }
        ensures values { IfOk result (λ values. values.items ≡ values_for self simplex.now) }
        ensures few { IfOk result (λ values. AreFew values.items) }
    {
        match self {
            Family::Agreement(_) => values_of(alloc, simplex),
            Family::Naming(names) => numbers_below(alloc, names),
        }
    }

    /// Returns `true` if the processes of an input simplex may decide the values in `tuple`
    /// together. Each value must be one that the family has there.
    fn allows(self, tuple: &[u8]) -> bool
        requires { length tuple.now ≤ 4 }
        ensures { result ≡ allows self tuple.now }
    {
        match self {
            Family::Agreement(most) => distinct_count(tuple) <= most,
            Family::Naming(_) => distinct_count(tuple) as usize == tuple.len(),
        }
    }

    /// Returns the tuples that the family allows at the input simplex `simplex`, in ascending
    /// order, each once.
    pub(crate) fn tuples(self, alloc: Global, simplex: &Simplex) -> Result<Vec<Row>, AllocError>
        requires { IsFamily self }
        ensures { IfOk result (λ rows. rows.items ≡ tuples_for self simplex.now) }
    {
        let values = self.values(alloc, simplex)?;
        self.allowed(alloc, &values, simplex.colours())
    }

    /// Returns the lists of `size` of the `values` that the family allows, in lexicographic order.
    fn allowed(self, alloc: Global, values: &[u8], size: u8) -> Result<Vec<Row>, AllocError>
        requires some { 1 ≤ size }
        requires few { size ≤ 4 }
        requires values { AreFew values.now }
        ensures { IfOk result (λ rows. rows.items ≡ allowed_lists self values.now size) }
    {
        let mut rows = Vec::new(alloc);
        for number in 0..list_count(values.len(), size) {
            let row = list_at(values, size, number);
            if self.allows(row.as_slice()) {
                rows.push(row)?;
            }
        }
        Ok(rows)
    }

    /// Returns the number of tuples that the family allows at `simplex`, or `None` if there are
    /// more than `most`. The tuples are counted without storing them.
    pub(crate) fn count(
        self,
        alloc: Global,
        simplex: &Simplex,
        most: usize,
    ) -> Result<Option<usize>, AllocError>
        requires { IsFamily self }
        ensures { IfOk result (λ count. count ≡ at_most most (tuple_count self simplex.now)) }
    {
        let values = self.values(alloc, simplex)?;
        Ok(self.count_allowed(&values, simplex.colours(), most))
    }

    /// Returns the number of lists of `size` of the `values` that the family allows, or `None` if
    /// there are more than `most`.
    fn count_allowed(self, values: &[u8], size: u8, most: usize) -> Option<usize>
        requires some { 1 ≤ size }
        requires few { size ≤ 4 }
        requires values { AreFew values.now }
        ensures { result ≡ at_most most (length (allowed_lists self values.now size)) }
    {
        let mut left = most;
        for number in 0..list_count(values.len(), size) {
            if self.allows(list_at(values, size, number).as_slice()) {
                if left == 0 {
                    return None;
                }
                left -= 1;
            }
        }
        Some(most - left)
    }

    /// Returns `true` if the family allows more than `most` tuples at all simplices of `inputs`
    /// together. The tuples are counted without storing them.
    pub(crate) fn has_more_tuples(
        self,
        alloc: Global,
        inputs: &[Simplex],
        most: usize,
    ) -> Result<bool, AllocError>
        requires { IsFamily self }
        ensures { IfOk result (λ more. more ≡ nat_lt most (tuple_total self inputs.now)) }
    {
        let mut left = most;
        for simplex in inputs {
            match self.count(alloc, simplex, left)? {
                Some(count) => left -= count,
                None => return Ok(true),
            }
        }
        Ok(false)
    }
}

/// Returns the numbers from 0 to `bound - 1`. `bound` must be at most 64.
pub(crate) fn numbers_below(alloc: Global, bound: u8) -> Result<Vec<u8>, AllocError>
    requires { bound ≤ 64 }
    ensures numbers { IfOk result (λ numbers. numbers.items ≡ below bound) }
    ensures few { IfOk result (λ numbers. AreFew numbers.items) }
{
    let mut numbers = Vec::new(alloc);
    for number in 0..bound {
        numbers.push(number)?;
    }
    Ok(numbers)
}

/// Returns the values of `simplex` in ascending order, each once.
fn values_of(alloc: Global, simplex: &Simplex) -> Result<Vec<u8>, AllocError>
    ensures values { IfOk result
        (λ values. values.items ≡ in_order nat_cmp (values_of simplex.now)) }
    ensures simplex { IsTaskSimplex simplex.now }
{
    let mut values = BTreeSet::new(alloc);
    for place in 0..simplex.colours() {
        let process = simplex.colour(place);
        let Some(value) = simplex.value(process) else {
            unreachable!()
        };
        values.insert(value)?;
    }
    values.into_iter().collect(alloc)
}

/// Returns the number of different values in `values`, of which there are at most four.
fn distinct_count(values: &[u8]) -> u32
    requires { length values.now ≤ 4 }
    ensures { result ≡ different values.now }
{
    let mut count = 0;
    for (place, value) in values.iter().enumerate() {
        if !values[place + 1..].contains(value) {
            count += 1;
        }
    }
    count
}

/// Returns the number of lists of length `size` over `values` values.
pub(crate) fn list_count(values: usize, size: u8) -> usize
    requires values { values ≤ 64 }
    requires few { size ≤ 4 }
    ensures { result ≡ values ^ size }
{
    values.pow(u32::from(size))
}

/// Returns the list with index `number`, from 0 in lexicographic order, among all lists of length
/// `size` over `values`.
pub(crate) fn list_at(values: &[u8], size: u8, number: usize) -> Row
    requires some { 1 ≤ size }
    requires few { size ≤ 4 }
    requires values { AreFew values.now }
    requires number { number < length values.now ^ size }
    ensures { result ≡ slice_index_or (lists_of values.now size) number [] }
{
    let mut row = [0u8; 4];
    let mut rest = number;
    for place in 0..size {
        let later = list_count(values.len(), size - 1 - place);
        row[place as usize] = values[rest / later];
        rest %= later;
    }
    Row::new(&row[..size as usize])
}
