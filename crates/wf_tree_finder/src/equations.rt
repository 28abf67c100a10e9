//! The equations of a balance, for one class and one place at a time.

use crate::classes::{Class, Classes};
use crate::digits::{elements_after, without};
use crate::fault::{FinderFault, number};
use std::alloc::Global;

/// A term of an equation: the unknown of a tuple, with the values at the other places, which name
/// the equation.
#[derive(Clone, Copy, PartialEq, Eq, PartialOrd, Ord)]
pub(crate) struct TupleUnknown {
    pub(crate) rest: u64,
    pub(crate) unknown: u32,
    /// Whether the term is subtracted: it then belongs to the class without the place.
    pub(crate) negative: bool,
}

/// The equations of a class and a place. There is one for each list of values at the other places:
/// the unknowns of the class's tuples with these values add up to the unknown of this list in the
/// class without the place.
#[derive(Drop)]
pub(crate) struct Equations {
    /// The terms, equation by equation.
    pub(crate) terms: Vec<TupleUnknown>,
}

impl Equations {
    /// Creates an empty list of equations.
    pub(crate) fn new(alloc: Global) -> Equations {
        Equations {
            terms: Vec::new(alloc),
        }
    }

    /// Replaces the equations by those of `class` at `place`.
    pub(crate) fn fill(
        &mut self,
        classes: &Classes,
        class: Class,
        place: u8,
    ) -> Result<(), FinderFault> {
        self.terms.clear();
        self.add_tuples(classes, class, place)?;
        self.add_facet(classes, class, place)?;
        self.terms.sort_unstable();
        Ok(())
    }

    /// Adds a term for each tuple of `class`, to the equation of its values at the other places.
    fn add_tuples(
        &mut self,
        classes: &Classes,
        class: Class,
        place: u8,
    ) -> Result<(), FinderFault> {
        for unknown in class.first..class.end {
            self.terms.push(TupleUnknown {
                rest: without(classes.tuple(unknown)?, elements_after(class.size, place)),
                unknown: number(unknown)?,
                negative: false,
            })?;
        }
        Ok(())
    }

    /// Adds a negative term for each tuple of the class that lacks the vertex at `place`, to the
    /// equation of its values.
    fn add_facet(&mut self, classes: &Classes, class: Class, place: u8) -> Result<(), FinderFault> {
        let facet = classes.class(class.facet(place)?)?;
        for unknown in facet.first..facet.end {
            self.terms.push(TupleUnknown {
                rest: classes.tuple(unknown)?,
                unknown: number(unknown)?,
                negative: true,
            })?;
        }
        Ok(())
    }

    /// Returns whether the term at index `at` is the last one of its equation. `rest` is the list
    /// of values that names the equation.
    pub(crate) fn ends(&self, at: usize, rest: u64) -> bool {
        match self.terms.get(at.saturating_add(1)) {
            Some(next) => next.rest != rest,
            None => true,
        }
    }
}
