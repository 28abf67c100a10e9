//! Numbering of a list's different items in the order of their first appearance.

ghost use Rattle.std.specs.Prelude.{◌≡◌, ◌<◌, ◌≤◌, ◌∷◌, [], ◌++◌, ℕ, length, vec_len, All, IfOk, OnOk, Ok, Some, None, get_or, slice_set};
ghost use Rattle.wf_model.specs.Limits.{most_number};
ghost use Rattle.wf_complex.specs.Numbering.{AreNumbered};

use std::alloc::{AllocError, Global};

/// The different items of a list of ids, and each item of the list as an index among them.
#[derive(Drop)]
pub(crate) struct Numbered {
    /// The different items, in the order of their first appearance.
    pub different: Vec<u32>,
    /// The index in the list at which each of them appears first.
    pub firsts: Vec<u32>,
    /// For each item of the list, its index among the different items.
    pub places: Vec<u32>,
}

/// Numbers the different items of `ids` in the order of their first appearance. All items must be
/// below `bound`.
///
/// It takes time and memory in proportion to the length of `ids` and to `bound`. The result's
/// `places` are written over `ids`.
pub(crate) fn number_all(alloc: Global, ids: Vec<u32>, bound: usize) -> Result<Numbered, AllocError>
    requires bound { All (λ id. id < bound) ids.items }
    requires few { length ids.items ≤ most_number }
    ensures { IfOk result
        (λ n. AreNumbered ids.items n.different.items n.firsts.items n.places.items) }
{
    let mut numbers: Vec<Option<u32>> = vec![in alloc; None; bound]?;
    let mut different = Vec::new(alloc);
    let mut firsts = Vec::new(alloc);
    let mut places = ids;
    for i in 0..places.len() {
        let id = places[i];
        places[i] = intern(&mut numbers, &mut different, &mut firsts, id, i as u32)?;
    }
    Ok(Numbered {
        different,
        firsts,
        places,
    })
}

/// Returns the index of `id` among the distinct ids. If `id` is new, appends it to `different`,
/// appends its index `i` in the list to `firsts`, and enters its number in `numbers`.
fn intern(
    numbers: &mut Vec<Option<u32>>,
    different: &mut Vec<u32>,
    firsts: &mut Vec<u32>,
    id: u32,
    i: u32,
) -> Result<u32, AllocError>
    requires id { id < vec_len numbers.old }
    requires room { vec_len firsts.old ≤ most_number }
    ensures numbers { vec_len numbers.new ≡ vec_len numbers.old }
    ensures met { (k : ℕ) → get_or numbers.old.items id None ≡ Some k → (result ≡ Ok k)
        × (numbers.new.items ≡ numbers.old.items) × (firsts.new.items ≡ firsts.old.items)
        × (different.new.items ≡ different.old.items) }
    ensures first { get_or numbers.old.items id None ≡ None
        → OnOk result ((result ≡ Ok (length firsts.old.items))
        × (numbers.new.items ≡ slice_set numbers.old.items id (Some (length firsts.old.items)))
        × (firsts.new.items ≡ firsts.old.items ++ i ∷ [])
        × (different.new.items ≡ different.old.items ++ id ∷ [])) }
{
    if let Some(place) = numbers[id as usize] {
        return Ok(place);
    }
    let place = firsts.len() as u32;
    firsts.push(i)?;
    different.push(id)?;
    numbers[id as usize] = Some(place);
    Ok(place)
}
