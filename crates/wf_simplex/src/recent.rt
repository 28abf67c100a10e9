//! A table of recently added simplices, with which some of the repeated faces are left out of a
//! list.

ghost use Rattle.std.specs.Prelude.{◌<◌, [], ◌∷◌, List, All, Contains, IsTrue, IfOk, OnOk, length};
ghost use Rattle.wf_model.specs.Simplex.{Simplex};
ghost use Rattle.wf_simplex.specs.Adding.{AreAdded, IsAmong};

use crate::simplex::Simplex;
use std::alloc::{AllocError, Global};
use std::marker::Model;

/// The least number of slots in the table.
const MIN_RECENT: usize = 16;

/// The largest number of slots in the table.
const MAX_RECENT: usize = 4096;

/// A table of simplices that were added to a list lately. Each slot holds the last simplex added
/// there.
///
/// Contracts see the slots.
#[derive(Drop)]
pub(crate) struct Recent {
    places: Vec<Option<Simplex>>,
}

impl Model for Recent {
    ghost use Rattle.std.specs.Prelude.{ℕ, ◌<◌, List, Option, length};

    ghost Value = { List (Option (List (ℕ × ℕ))) };

    ghost view = { λ r. r.places.items };

    ghost invariant = { λ r. 0 < length r.places.items };
}

impl Recent {
    /// Creates an empty table for the faces of `facets` facets. It has about one slot for each
    /// facet: a power of two from 16 to 4,096.
    pub(crate) fn new(alloc: Global, facets: usize) -> Result<Recent, AllocError>
        ensures { IfOk result (All (IsAmong [])) }
    {
        let count = facets.clamp(MIN_RECENT, MAX_RECENT).next_power_of_two();
        let mut places = Vec::new(alloc);
        places.resize(count, None)?;
        Ok(Recent { places })
    }

    /// Returns `true` if the table holds `simplex`, so that it was added before. `false` says
    /// nothing: the entry may have been overwritten.
    fn has(&self, simplex: Simplex) -> bool
        ensures { IsTrue result
            → (ss : List Simplex) → All (IsAmong ss) self.now → Contains ss simplex }
    {
        match self.places[simplex.slot(self.places.len())] {
            Some(known) => known == simplex,
            None => false,
        }
    }

    /// Enters `simplex` into its slot, in place of the simplex that was there.
    fn put(&mut self, simplex: Simplex)
        ensures { (ss : List Simplex) → Contains ss simplex → All (IsAmong ss) self.old
            → All (IsAmong ss) self.new }
    {
        let place = simplex.slot(self.places.len());
        self.places[place] = Some(simplex);
    }
}

/// Appends to `simplices` each simplex of `more` that is not in the table `recent`, and enters it
/// there.
pub(crate) fn add_each(
    simplices: &mut Vec<Simplex>,
    recent: &mut Recent,
    more: &[Simplex],
) -> Result<(), AllocError>
    requires { All (IsAmong simplices.old.items) recent.old }
    ensures among { OnOk result (All (IsAmong simplices.new.items) recent.new) }
    ensures added { OnOk result (AreAdded simplices.old.items more.now simplices.new.items) }
{
    for simplex in more {
        add(simplices, recent, *simplex)?;
    }
    Ok(())
}

/// Appends `simplex` to `simplices`, unless it is in the table `recent`, and enters it there.
fn add(
    simplices: &mut Vec<Simplex>,
    recent: &mut Recent,
    simplex: Simplex,
) -> Result<(), AllocError>
    requires { All (IsAmong simplices.old.items) recent.old }
    ensures among { OnOk result (All (IsAmong simplices.new.items) recent.new) }
    ensures added { OnOk result (AreAdded simplices.old.items (simplex ∷ []) simplices.new.items) }
{
    if !recent.has(simplex) {
        simplices.push(simplex)?;
        recent.put(simplex);
    }
    Ok(())
}
