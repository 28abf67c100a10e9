//! Classes of input simplices that a balance does not tell apart: in a symmetric task, those with
//! the same inputs in rank order; otherwise each simplex is a class of its own.

use crate::digits::{elements_after, with_last, without};
use crate::fault::{FinderFault, number};
use std::alloc::Global;
use wf_simplex::Simplex;
use wf_task::{Row, Task};

/// The largest number of places of a class.
const MAX_PLACES: usize = 4;

/// The number of values that an input may have.
const VALUES: u64 = 256;

/// An input simplex with its labels, its index and its number of participants. Members are ordered
/// by labels first.
#[derive(Clone, Copy, PartialEq, Eq, PartialOrd, Ord)]
struct Member {
    labels: u64,
    simplex: u32,
    size: u8,
}

/// A class: the input simplices with the same labels, and the tuples that they allow.
#[derive(Clone, Copy)]
pub(crate) struct Class {
    /// The number of labels, which is the number of participants.
    pub(crate) size: u8,
    /// The index of the first simplex of the class.
    pub(crate) simplex: u32,
    // the labels, as a list of digits
    labels: u64,
    // for each place, the index of the class that lacks the vertex there
    facets: [u32; MAX_PLACES],
    /// The index of the first tuple of the class among the tuples of all classes.
    pub(crate) first: usize,
    /// The index after the last tuple of the class.
    pub(crate) end: usize,
}

impl Class {
    /// Returns the index of the class that lacks the vertex at `place`.
    pub(crate) fn facet(&self, place: u8) -> Result<u32, FinderFault> {
        match self.facets.get(place as usize) {
            Some(facet) => Ok(*facet),
            None => Err(FinderFault::Internal),
        }
    }
}

/// The classes of a task and their tuples. Class 0 is the empty face; the others follow by
/// ascending labels.
#[derive(Drop)]
pub(crate) struct Classes {
    classes: Vec<Class>,
    // the tuples that some simplex of a class allows, class by class: in ascending order, without
    // duplicates
    tuples: Vec<u64>,
}

impl Classes {
    /// Creates the classes of the task with the tuples `rows`.
    pub(crate) fn of(
        alloc: Global,
        task: &Task,
        rows: &[Vec<Row>],
    ) -> Result<Classes, FinderFault> {
        let mut classes = Classes {
            classes: Vec::new(alloc),
            tuples: Vec::new(alloc),
        };
        classes.add_empty_face()?;
        classes.add_all(alloc, rows, &members(alloc, task)?)?;
        Ok(classes)
    }

    /// Adds the class of the empty face, whose only tuple is the empty one.
    fn add_empty_face(&mut self) -> Result<(), FinderFault> {
        self.tuples.push(0)?;
        self.classes.push(Class {
            size: 0,
            simplex: 0,
            labels: 0,
            facets: [0; MAX_PLACES],
            first: 0,
            end: 1,
        })?;
        Ok(())
    }

    /// Adds a class for each run of `members` with the same labels. The members are in ascending
    /// order of labels.
    fn add_all(
        &mut self,
        alloc: Global,
        rows: &[Vec<Row>],
        members: &[Member],
    ) -> Result<(), FinderFault> {
        let mut first = 0;
        for place in 0..members.len() {
            let end = place.saturating_add(1);
            if labels_at(members, place) != labels_at(members, end) {
                let Some(run) = members.get(first..end) else {
                    return Err(FinderFault::Internal);
                };
                self.add(alloc, rows, run)?;
                first = end;
            }
        }
        Ok(())
    }

    /// Adds one class, which has all of `members`.
    fn add(
        &mut self,
        alloc: Global,
        rows: &[Vec<Row>],
        members: &[Member],
    ) -> Result<(), FinderFault> {
        let Some(member) = members.first().copied() else {
            return Err(FinderFault::Internal);
        };
        let first = self.tuples.len();
        self.tuples
            .extend_from_slice(&merged(alloc, rows, members)?)?;
        let Member {
            labels,
            simplex,
            size,
        } = member;
        let facets = self.facets(size, labels)?;
        self.classes.push(Class {
            size,
            simplex,
            labels,
            facets,
            first,
            end: self.tuples.len(),
        })?;
        Ok(())
    }

    /// Returns for each place the index of the class that lacks the vertex there. `labels` are
    /// those of a class with `size` places, whose faces have classes already.
    fn facets(&self, size: u8, labels: u64) -> Result<[u32; MAX_PLACES], FinderFault> {
        let mut facets = [0; MAX_PLACES];
        for place in 0..size {
            let facet = self.number_of(without(labels, elements_after(size, place)))?;
            match facets.get_mut(place as usize) {
                Some(slot) => *slot = facet,
                None => return Err(FinderFault::Internal),
            }
        }
        Ok(facets)
    }

    /// Returns the index of the class with `labels`. Uses a binary search.
    fn number_of(&self, labels: u64) -> Result<u32, FinderFault> {
        let place = self.classes.partition_point(|class| class.labels < labels);
        match self.classes.get(place) {
            Some(class) if class.labels == labels => number(place),
            _ => Err(FinderFault::Internal),
        }
    }

    /// Returns the number of classes, including the empty face.
    pub(crate) fn count(&self) -> usize {
        self.classes.len()
    }

    /// Returns the number of tuples of all classes, including the empty tuple.
    pub(crate) fn count_tuples(&self) -> u64 {
        self.tuples.len() as u64
    }

    /// Returns the class at index `number`; 0 is the empty face.
    pub(crate) fn class(&self, number: u32) -> Result<Class, FinderFault> {
        match self.classes.get(number as usize) {
            Some(class) => Ok(*class),
            None => Err(FinderFault::Internal),
        }
    }

    /// Returns the tuple at index `place` among the tuples of all classes, as a list of digits.
    pub(crate) fn tuple(&self, place: usize) -> Result<u64, FinderFault> {
        match self.tuples.get(place) {
            Some(tuple) => Ok(*tuple),
            None => Err(FinderFault::Internal),
        }
    }
}

/// Returns the labels of the member at index `place`, or `None` past the end.
fn labels_at(members: &[Member], place: usize) -> Option<u64> {
    match members.get(place) {
        Some(member) => Some(member.labels),
        None => None,
    }
}

/// Returns the input simplices of `task` in ascending order of their labels.
fn members(alloc: Global, task: &Task) -> Result<Vec<Member>, FinderFault> {
    let mut members = Vec::new(alloc);
    for (place, simplex) in task.inputs().simplices().iter().enumerate() {
        members.push(Member {
            labels: labels(simplex, task.symmetric())?,
            simplex: number(place)?,
            size: simplex.colours(),
        })?;
    }
    members.sort_unstable();
    Ok(members)
}

/// Returns the labels of the vertices of `simplex`, as a list of digits. A label stands for the
/// input of a vertex in a symmetric task, and otherwise for its process and input.
fn labels(simplex: &Simplex, symmetric: bool) -> Result<u64, FinderFault> {
    let mut labels = 0;
    for place in 0..simplex.colours() {
        let process = simplex.colour(place);
        let Some(value) = simplex.value(process) else {
            return Err(FinderFault::Internal);
        };
        let before = if symmetric {
            0
        } else {
            u64::from(process) * VALUES
        };
        labels = with_last(labels, before + u64::from(value) + 1);
    }
    Ok(labels)
}

/// Returns the tuples that some of `members` allow, in ascending order and without duplicates. Each
/// tuple is a list of digits.
fn merged(alloc: Global, rows: &[Vec<Row>], members: &[Member]) -> Result<Vec<u64>, FinderFault> {
    let mut tuples = Vec::new(alloc);
    for member in members {
        let Some(more) = rows.get(member.simplex as usize) else {
            return Err(FinderFault::Internal);
        };
        add_lists(more, &mut tuples)?;
    }
    if members.len() > 1 {
        tuples.sort_unstable();
        tuples.dedup();
    }
    Ok(tuples)
}

/// Appends the values of each of `rows` to `tuples`, as a list of digits.
fn add_lists(rows: &[Row], tuples: &mut Vec<u64>) -> Result<(), FinderFault> {
    for row in rows {
        tuples.push(list(row))?;
    }
    Ok(())
}

/// Returns the values of `row` as a list of digits, in the form of the module `digits`.
fn list(row: &Row) -> u64 {
    let mut list = 0;
    for value in row.as_slice() {
        list = with_last(list, u64::from(*value));
    }
    list
}
