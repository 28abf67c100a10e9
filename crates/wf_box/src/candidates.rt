//! Candidate sets of one machine word or of four, behind traits, so that one piece of code removes
//! values from either.

ghost use Rattle.std.specs.Prelude.{◌≡◌, ◌≢◌, ◌<◌, ◌≤◌, ◌==◌, ◌∷◌, [], not, filter, get_or, length, All, MatchOption};
ghost use Rattle.std.specs.Bool.{OnFalse, OnTrue};
ghost use Rattle.wf_model.specs.Lists.{has};
ghost use Rattle.wf_base.specs.Set.Sets.{values_in};
ghost use Rattle.wf_network.specs.Revising.{AreSame, found_at, wide_set, widened};

use wf_base::set::set64::{self, Set64};
use wf_base::set::{Mask, difference, intersection, is_empty, low_set64, split_first};
use wf_network::{PackedExecution, candidates_at, narrowed};

/// A set of candidates of one point.
pub(crate) trait ValueSet: Copy {
    ghost use Rattle.std.specs.Prelude.{ℕ, List};

    // the same set as four words
    ghost wide: { Self → List ℕ };

    /// Converts the set to four words.
    fn widened(self) -> Mask
        ensures { result ≡ wide self };

    /// Returns whether the set is empty.
    fn is_empty(self) -> bool
        ensures { result ≡ (length (values_in (wide self)) == 0) };

    /// Returns the intersection with `set`.
    fn intersection(self, set: Mask) -> Self
        ensures { values_in (wide result) ≡ filter (has (values_in set)) (values_in (wide self)) };

    /// Splits off the least value: returns it with the rest of the set, or `None` if the set is
    /// empty.
    fn split_first(self) -> Option<(u8, Self)>
        ensures { MatchOption result (values_in (wide self) ≡ [])
            (λ r. values_in (wide self) ≡ r.0 ∷ values_in (wide r.1)) };
}

/// A set of values below 64.
impl ValueSet for Set64 {
    ghost wide = { wide_set };

    #[inline(always)]
    fn widened(self) -> Mask {
        [self, 0, 0, 0]
    }

    #[inline(always)]
    fn is_empty(self) -> bool {
        set64::is_empty(self)
    }

    #[inline(always)]
    fn intersection(self, set: Mask) -> Set64 {
        set64::intersection(self, low_set64(set))
    }

    #[inline(always)]
    fn split_first(self) -> Option<(u8, Set64)> {
        set64::split_first(self)
    }
}

/// A set of any values, all below 256.
impl ValueSet for Mask {
    ghost wide = { λ set. set };

    #[inline(always)]
    fn widened(self) -> Mask {
        self
    }

    #[inline(always)]
    fn is_empty(self) -> bool {
        is_empty(self)
    }

    #[inline(always)]
    fn intersection(self, set: Mask) -> Mask {
        intersection(self, set)
    }

    #[inline(always)]
    fn split_first(self) -> Option<(u8, Mask)> {
        split_first(self)
    }
}

/// The candidate sets at the places of one execution.
pub(crate) trait Candidates: Copy {
    ghost use Rattle.std.specs.Prelude.{ℕ, List};

    /// The type of the candidate set at one place.
    type Set: ValueSet;

    // the sets of the places, each as four words
    ghost at_places: { Self → List (List ℕ) };

    /// Returns the candidates at `place` that are not in `supported`.
    fn lost(&self, supported: &Self, place: u8) -> Self::Set
        requires { place < 4 }
        ensures { values_in (Self.Set.wide result)
            ≡ filter (λ v. not (has (values_in (get_or (at_places supported.now) place [])) v))
            (values_in (get_or (at_places self.now) place [])) };

    /// Returns whether the first `places` points of `execution` have in `sets` exactly these
    /// candidates. It may return `false` although they do, if a point past these differs.
    fn are_left(self, execution: PackedExecution, sets: &[Mask], places: u8) -> bool
        requires count { places ≤ 4 }
        requires long { length execution.points ≡ 4 }
        requires within { All (λ v. v < length sets.now) execution.points }
        ensures left { OnTrue result
            (AreSame places (found_at execution sets.now) (at_places self)) }
        ensures others { OnFalse result (found_at execution sets.now ≢ at_places self) };
}

/// Candidates below 64. Past the last place of the execution the first one is repeated, as its
/// point is.
impl Candidates for [Set64; 4] {
    type Set = Set64;

    ghost at_places = { widened };

    #[inline(always)]
    fn lost(&self, supported: &[Set64; 4], place: u8) -> Set64 {
        set64::difference(self[place as usize], supported[place as usize])
    }

    fn are_left(self, execution: PackedExecution, sets: &[Mask], _places: u8) -> bool {
        match narrowed(candidates_at(execution, sets)) {
            Some(left) => left == self,
            None => false,
        }
    }
}

/// Candidates of any size.
impl Candidates for [Mask; 4] {
    type Set = Mask;

    ghost at_places = { λ sets. sets };

    #[inline(always)]
    fn lost(&self, supported: &[Mask; 4], place: u8) -> Mask {
        difference(self[place as usize], supported[place as usize])
    }

    fn are_left(self, execution: PackedExecution, sets: &[Mask], places: u8) -> bool {
        for place in 0..places as usize {
            let left = sets[execution.points[place] as usize];
            if left != self[place] {
                return false;
            }
        }
        true
    }
}
