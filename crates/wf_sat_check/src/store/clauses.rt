//! The storage of the clauses.

ghost use Rattle.std.specs.Prelude.{◌≡◌, ◌<◌, ◌∷◌, ◌++◌, [], false, Contains, get_or, length, set, is_ok, if◌then◌else◌};
ghost use Rattle.wf_sat_check.specs.Store.Laid.{HasNoHead};

use std::alloc::{AllocError, Global};
use std::marker::Model;
use wf_sat_text::drat::Code;

/// The value of the first word of each clause. It differs from the code of every literal.
const HEAD: Code = u32::MAX;

/// The number of words before the literals of a clause: [`HEAD`], the index at which its literals
/// end, and its two watched literals.
const HEAD_WORDS: usize = 4;

/// The largest number of words that the list may have, so that each index of a word is below
/// [`HEAD`].
const MAX_WORDS: usize = u32::MAX as usize - 1;

/// The words in which the literals of a clause lie, from `start` up to but not including `end`. The
/// range of a deleted clause is empty.
#[derive(Clone, Copy, Drop)]
struct ClauseRange {
    start: u32,
    end: u32,
}

/// The stored clauses, one after the other in a single list of words, the arena. Each begins with a
/// head of [`HEAD_WORDS`] words, so that it can be read from the arena given only the index of its
/// first word.
///
/// Contracts see the list of clauses, in which a deleted clause has no literals.
#[derive(Drop)]
pub(crate) struct Clauses {
    arena: Vec<Code>,
    spans: Vec<ClauseRange>,
}

impl Model for Clauses {
    ghost use Rattle.std.specs.Prelude.{List, ℕ};
    ghost use Rattle.wf_sat_check.specs.Store.Laid.{AreLaid, clauses_in};

    ghost Value = { List (List ℕ) };

    ghost view = { λ c. clauses_in c.arena.items c.spans.items };

    ghost invariant = { λ c. AreLaid c.arena.items c.spans.items };
}

impl Clauses {
    /// Creates a store without clauses.
    pub(crate) fn new(alloc: Global) -> Clauses
        ensures { result ≡ [] }
    {
        Clauses {
            arena: Vec::new(alloc),
            spans: Vec::new(alloc),
        }
    }

    /// Returns the number of clauses that were stored, including those that were deleted since.
    #[inline]
    pub(crate) fn len(&self) -> usize
        ensures { result ≡ length self.now }
    {
        self.spans.len()
    }

    /// Returns the literals of the clause `number`, or an empty slice if it was deleted.
    #[inline]
    pub(crate) fn literals(&self, number: usize) -> &[Code]
        requires { number < length self.now }
        ensures { result.now ≡ get_or self.now number result.now }
    {
        let span = self.spans[number];
        &self.arena[span.start as usize..span.end as usize]
    }

    /// Returns the two literals that the clause `number` watches.
    #[inline]
    pub(crate) fn watched(&self, number: usize) -> (Code, Code)
        requires { number < length self.now }
    {
        let start = self.spans[number].start as usize;
        (self.arena[start - 2], self.arena[start - 1])
    }

    /// Returns the index in the arena of the first word of the clause `number`.
    #[inline]
    pub(crate) fn place(&self, number: usize) -> u32
        requires { number < length self.now }
    {
        self.spans[number].start - HEAD_WORDS as u32
    }

    /// Returns the two literals that are watched by the clause whose first word has the index
    /// `place`. Returns `None` if no clause begins there. A deleted clause still has its two
    /// watched literals.
    #[inline]
    pub(crate) fn watched_at(&self, place: u32) -> Option<(Code, Code)> {
        let at = place as usize;
        if at >= self.arena.len() || self.arena[at] != HEAD {
            return None;
        }
        Some((self.arena[at + 2], self.arena[at + 3]))
    }

    /// Returns the literals of the clause whose first word has the index `place`. The slice is
    /// empty if that clause was deleted or no clause begins there.
    #[inline]
    pub(crate) fn literals_at(&self, place: u32) -> &[Code]
        ensures { 0 < length result.now → Contains self.now result.now }
    {
        let at = place as usize;
        if at >= self.arena.len() || self.arena[at] != HEAD {
            return &[];
        }
        let end = self.arena[at + 1] as usize;
        &self.arena[at + HEAD_WORDS..end]
    }

    /// Makes the clause whose first word has the index `place` watch `first` and `second`. Nothing
    /// changes if no clause begins there, or if one of the two is [`HEAD`].
    #[inline]
    pub(crate) fn watch_at(&mut self, place: u32, first: Code, second: Code)
        ensures { self.new ≡ self.old }
    {
        let at = place as usize;
        if at >= self.arena.len() || self.arena[at] != HEAD || first == HEAD || second == HEAD {
            return;
        }
        self.arena[at + 2] = first;
        self.arena[at + 3] = second;
    }

    /// Deletes the clause `number`. Its words stay in the arena, but it has no literals from now
    /// on.
    pub(crate) fn forget(&mut self, number: usize)
        requires { number < length self.old }
        ensures { self.new ≡ set self.old number [] }
    {
        let start = self.spans[number].start;
        self.arena[start as usize - 3] = start;
        self.spans[number] = ClauseRange { start, end: start };
    }

    /// Stores a clause with `literals` under the next number, with `first` and `second` as its
    /// watched literals.
    ///
    /// # Errors
    ///
    /// Returns `AllocError` if memory runs out, if the arena would exceed [`MAX_WORDS`] words, or
    /// if a literal is [`HEAD`], which no literal of a variable up to `MAX_VARIABLES` is. The list
    /// of clauses is then unchanged.
    pub(crate) fn push(
        &mut self,
        literals: &[Code],
        first: Code,
        second: Code,
    ) -> Result<(), AllocError>
        ensures { self.new ≡ (if is_ok result then self.old ++ literals.now ∷ [] else self.old) }
    {
        let head = self.arena.len();
        if head > MAX_WORDS - HEAD_WORDS || literals.len() > MAX_WORDS - HEAD_WORDS - head {
            return Err(AllocError);
        }
        if first == HEAD || second == HEAD || has_head(literals) {
            return Err(AllocError);
        }
        let start = head + HEAD_WORDS;
        let end = start + literals.len();
        self.arena
            .extend_from_slice(&[0, end as u32, first, second])?;
        self.arena.extend_from_slice(literals)?;
        self.spans.push(ClauseRange {
            start: start as u32,
            end: end as u32,
        })?;
        self.arena[head] = HEAD;
        Ok(())
    }
}

/// Returns whether one of `words` is [`HEAD`].
fn has_head(words: &[Code]) -> bool
    ensures { result ≡ false → HasNoHead words.now }
{
    for word in words {
        if *word == HEAD {
            return true;
        }
    }
    false
}
