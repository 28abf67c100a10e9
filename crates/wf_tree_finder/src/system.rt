//! The system of linear equations whose contradictions are balances.
//!
//! It has an unknown for each tuple that some simplex of a class allows, and one for the empty
//! face: the constant. There is an equation for each class, each place and each list of values at
//! the other places: the unknowns of the class's tuples with these values add up to the unknown of
//! the list in the class without the place.
//!
//! If the equations contradict one another, the multipliers of the contradiction are a balance: in
//! the sum of the multiplied equations all unknowns cancel except the constant.

use crate::classes::Class;
use crate::digits::{elements_after, number_at};
use crate::equations::Equations;
use crate::fault::{FinderFault, judge_equations, number};
use crate::listener::FinderProgress;
use crate::placed::{FoundBalance, FoundMultiplier, add_up};
use crate::problem::TuplesByClass;
use std::alloc::Global;
use wf_tree_elimination::{Contradiction, Elimination, Multiple, Ring};

/// The smallest number of equations that is reported to a listener. Further reports follow at each
/// power of two.
const FIRST_TOLD: u64 = 65_536;

/// An equation of the system: its class, its place, and the values at the other places as a list of
/// digits.
#[derive(Clone, Copy)]
struct Equation {
    class: u32,
    place: u8,
    rest: u64,
}

/// A system of equations modulo a prime power, to which equations are being added.
#[derive(Drop)]
struct System {
    ring: Ring,
    // -1 modulo the ring's modulus
    minus: u32,
    // the least value of the tuples
    least: u64,
    elimination: Elimination,
    // the equations that have been taken in; the index of an equation is its number
    taken: Vec<Equation>,
    // the equations of the current class and place
    equations: Equations,
}

/// Returns a balance of `problem` modulo the prime power of `ring`, or `None` if the equations do
/// not contradict one another.
pub(crate) fn solve<L: FinderProgress>(
    alloc: Global,
    problem: &TuplesByClass,
    ring: Ring,
    listener: &L,
) -> Result<Option<FoundBalance>, FinderFault> {
    let mut system = System::of(alloc, problem, ring)?;
    match system.run(problem, listener)? {
        Some(found) => Ok(Some(system.answer(alloc, problem, found)?)),
        None => Ok(None),
    }
}

/// Returns a solution of the equations of `problem` modulo a prime: a value for each unknown.
/// Returns `None` if the equations contradict one another.
pub(crate) fn solution<L: FinderProgress>(
    alloc: Global,
    problem: &TuplesByClass,
    ring: Ring,
    listener: &L,
) -> Result<Option<Vec<u32>>, FinderFault> {
    let mut system = System::of(alloc, problem, ring)?;
    match system.run(problem, listener)? {
        Some(_) => Ok(None),
        None => Ok(Some(system.elimination.solution(alloc)?)),
    }
}

impl System {
    /// Creates the system with the unknowns of `problem` and no equation.
    fn of(alloc: Global, problem: &TuplesByClass, ring: Ring) -> Result<System, FinderFault> {
        let mut system = System {
            ring,
            minus: ring.negative(1),
            least: problem.least,
            elimination: Elimination::new(alloc, ring)?,
            taken: Vec::new(alloc),
            equations: Equations::new(alloc),
        };
        system.add_unknowns(problem)?;
        Ok(system)
    }

    /// Adds an unknown for each tuple of each class.
    fn add_unknowns(&mut self, problem: &TuplesByClass) -> Result<(), FinderFault> {
        for place in 0..problem.classes.count() {
            let class = problem.classes.class(number(place)?)?;
            self.add_unknowns_of(class)?;
        }
        Ok(())
    }

    /// Adds an unknown for each tuple of `class`.
    fn add_unknowns_of(&mut self, class: Class) -> Result<(), FinderFault> {
        for _ in class.first..class.end {
            self.elimination.add_unknown(class.size)?;
        }
        Ok(())
    }

    /// Takes in equations until one contradicts those before it, and reports the beginning and the
    /// end to `listener`. Returns the contradiction, if there is one.
    fn run<L: FinderProgress>(
        &mut self,
        problem: &TuplesByClass,
        listener: &L,
    ) -> Result<Option<Contradiction>, FinderFault> {
        let modulus = self.ring.modulus();
        listener.system(modulus, problem.classes.count_tuples());
        let found = self.contradiction(problem, listener)?;
        listener.equations(modulus, self.taken.len() as u64);
        Ok(found)
    }

    /// Takes in the equations of all classes, up to the first contradiction.
    fn contradiction<L: FinderProgress>(
        &mut self,
        problem: &TuplesByClass,
        listener: &L,
    ) -> Result<Option<Contradiction>, FinderFault> {
        for place in 1..problem.classes.count() {
            let found = self.take_in_class(problem, number(place)?, listener)?;
            if found.is_some() {
                return Ok(found);
            }
        }
        Ok(None)
    }

    /// Takes in the equations of the class `number`, up to the first contradiction.
    fn take_in_class<L: FinderProgress>(
        &mut self,
        problem: &TuplesByClass,
        number: u32,
        listener: &L,
    ) -> Result<Option<Contradiction>, FinderFault> {
        let class = problem.classes.class(number)?;
        for place in 0..class.size {
            self.equations.fill(&problem.classes, class, place)?;
            let found = self.take_in_place(number, class.size, place, listener)?;
            if found.is_some() {
                return Ok(found);
            }
        }
        Ok(None)
    }

    /// Takes in the equations of a class at one place, up to the first contradiction, and leaves
    /// out those that follow from others. `size` is the number of places of the class.
    fn take_in_place<L: FinderProgress>(
        &mut self,
        class: u32,
        size: u8,
        place: u8,
        listener: &L,
    ) -> Result<Option<Contradiction>, FinderFault> {
        for at in 0..self.equations.terms.len() {
            let Some(term) = self.equations.terms.get(at).copied() else {
                return Err(FinderFault::Internal);
            };
            if !self.is_left_out(term.rest, size, place) {
                let factor = if term.negative { self.minus } else { 1 };
                self.elimination.add(term.unknown, factor)?;
                if self.equations.ends(at, term.rest) {
                    let rest = term.rest;
                    let found = self.take_in(Equation { class, place, rest }, listener)?;
                    if found.is_some() {
                        return Ok(found);
                    }
                }
            }
        }
        Ok(None)
    }

    /// Returns whether an equation is left out because it follows from others: if a place before
    /// `place` has the least value in the list of values `rest`.
    fn is_left_out(&self, rest: u64, size: u8, place: u8) -> bool {
        let others = size.saturating_sub(1);
        (0..place).any(|earlier| number_at(rest, elements_after(others, earlier)) == self.least)
    }

    /// Takes in `equation`, whose terms have all been added, and returns a contradiction if there
    /// is one. Reports the number of equations to `listener` if it is a power of two from 65,536
    /// on.
    fn take_in<L: FinderProgress>(
        &mut self,
        equation: Equation,
        listener: &L,
    ) -> Result<Option<Contradiction>, FinderFault> {
        let place = self.taken.len();
        let count = (place as u64).saturating_add(1);
        judge_equations(count)?;
        self.taken.push(equation)?;
        if count >= FIRST_TOLD && count.is_power_of_two() {
            listener.equations(self.ring.modulus(), count);
        }
        Ok(self.elimination.take_in(number(place)?)?)
    }

    /// Returns the balance that the contradiction `found` gives: the multipliers of its equations,
    /// and the constant that they add up to.
    fn answer(
        &self,
        alloc: Global,
        problem: &TuplesByClass,
        found: Contradiction,
    ) -> Result<FoundBalance, FinderFault> {
        let mut placed = Vec::new(alloc);
        for multiple in &self.elimination.multipliers(alloc, found)? {
            placed.push(self.placed(problem, *multiple)?)?;
        }
        Ok(FoundBalance {
            sum: self.ring.negative(found.constant),
            multipliers: add_up(alloc, self.ring, placed)?,
        })
    }

    /// Returns a multiple of an equation as a multiplier of a balance.
    fn placed(
        &self,
        problem: &TuplesByClass,
        multiple: Multiple,
    ) -> Result<FoundMultiplier, FinderFault> {
        let Some(equation) = self.taken.get(multiple.equation as usize) else {
            return Err(FinderFault::Internal);
        };
        let class = problem.classes.class(equation.class)?;
        Ok(FoundMultiplier {
            simplex: class.simplex,
            place: equation.place,
            others: class.size.saturating_sub(1),
            rest: equation.rest,
            weight: multiple.factor,
        })
    }
}
