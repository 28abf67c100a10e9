//! The literals that are true.

ghost use Rattle.std.specs.Prelude.{◌≡◌, ◌<◌, ◌≤◌, ℕ, [], true, get_or, length, take, is_ok, IfOk, IfSome, IsTrue, None, if◌then◌else◌};
ghost use Rattle.wf_sat_check.specs.Store.Literals.{AddsLiteral, IsNegationOf, MakesFalse, MakesTrue, has, opposite, with_literal};

use std::alloc::{AllocError, Global};
use std::marker::Model;
use wf_sat_text::drat::Code;

/// Returns the code of the negation of `literal`.
#[inline]
pub fn negated(literal: Code) -> Code
    ensures sound { IsNegationOf literal result }
    ensures exact { result ≡ opposite literal }
{
    literal ^ 1
}

/// A trail: the literals that are true, in the order in which they became true.
///
/// A literal and its negation may both be true. Contracts see the list of literals.
#[derive(Drop)]
pub struct Trail {
    // `marks[code]` says whether the literal with that code is true
    marks: Vec<bool>,
    literals: Vec<Code>,
}

impl Model for Trail {
    ghost use Rattle.std.specs.Prelude.{List, ℕ};
    ghost use Rattle.wf_sat_check.specs.Store.Literals.{IsMarked};

    ghost Value = { List ℕ };

    ghost view = { λ t. t.literals.items };

    ghost invariant = { λ t. IsMarked t.marks.items t.literals.items };
}

impl Trail {
    /// Creates an empty trail with room for literals whose codes are below `codes`. A larger code
    /// is accepted by [`put`](Trail::put) and takes more memory.
    ///
    /// # Errors
    ///
    /// Returns `AllocError` if memory runs out.
    pub fn new(alloc: Global, codes: usize) -> Result<Trail, AllocError>
        ensures { IfOk result (λ trail. trail ≡ []) }
    {
        Ok(Trail {
            marks: vec![in alloc; false; codes]?,
            literals: Vec::new(alloc),
        })
    }

    /// Returns the literals that are true, in the order in which they became true.
    pub fn literals(&self) -> &[Code]
        ensures { result.now ≡ self.now }
    {
        &self.literals
    }

    /// Returns the number of codes that the trail has room for. The code of each true literal is
    /// below it.
    #[inline]
    pub fn room(&self) -> usize
        ensures { (l : ℕ) → has self.now l ≡ true → l < result }
    {
        self.marks.len()
    }

    /// Returns the number of literals that are true.
    #[inline]
    pub fn len(&self) -> usize
        ensures { result ≡ length self.now }
    {
        self.literals.len()
    }

    /// Returns the literal at the index `place` of the trail, or `None` if the trail is not that
    /// long.
    #[inline]
    pub fn at(&self, place: usize) -> Option<Code>
        ensures none { result ≡ None → length self.now ≤ place }
        ensures some { IfSome result (λ literal. literal ≡ get_or self.now place literal) }
    {
        self.literals.get(place).copied()
    }

    /// Returns whether `literal` is true.
    #[inline]
    pub fn is_true(&self, literal: Code) -> bool
        ensures sound { IsTrue result → MakesTrue self.now literal }
        ensures exact { result ≡ has self.now literal }
    {
        let marks = self.marks.as_slice();
        let at = literal as usize;
        at < marks.len() && marks[at]
    }

    /// Returns whether `literal` is false, which means that its negation is true.
    #[inline]
    pub fn is_false(&self, literal: Code) -> bool
        ensures sound { IsTrue result → MakesFalse self.now literal }
        ensures exact { result ≡ has self.now (opposite literal) }
    {
        self.is_true(negated(literal))
    }

    /// Makes `literal` true and appends it to the trail. Nothing changes if it is true already.
    ///
    /// # Errors
    ///
    /// Returns `AllocError` if memory runs out; the literals that are true are then unchanged.
    #[inline]
    pub fn put(&mut self, literal: Code) -> Result<(), AllocError>
        ensures front { take (length self.old) self.new ≡ self.old }
        ensures kept { AddsLiteral literal self.old self.new }
        ensures exact { self.new
            ≡ (if is_ok result then with_literal self.old literal else self.old) }
    {
        if self.is_true(literal) {
            return Ok(());
        }
        let at = literal as usize;
        if at >= self.marks.len() {
            self.marks.resize(at + 1, false)?;
        }
        self.literals.push(literal)?;
        self.marks[at] = true;
        Ok(())
    }

    /// Removes all but the first `count` literals from the trail. The removed ones are no longer
    /// true.
    pub fn undo(&mut self, count: usize)
        ensures { self.new ≡ take count self.old }
    {
        'pops: while self.literals.len() > count {
            let Some(literal) = self.literals.pop() else {
                break;
            };
            let at = literal as usize;
            if at < self.marks.len() {
                self.marks[at] = false;
            }
        }
    }
}
