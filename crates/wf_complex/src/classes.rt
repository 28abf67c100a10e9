//! The points of a protocol complex: the last views, or in a symmetric task their classes.

ghost use Rattle.std.specs.Prelude.{◌≡◌, ◌<◌, ◌≤◌, ◌+◌, ◌*◌, length, map, All, IfOk, OnOk};
ghost use Rattle.wf_model.specs.Lists.{distinct};
ghost use Rattle.wf_model.specs.Limits.{most_number, most_points};
ghost use Rattle.wf_model.specs.View.{same_view, normal};
ghost use Rattle.wf_complex.specs.Views.{view_at, count_within};
ghost use Rattle.wf_complex.specs.Rounds.{views_at, Extends};
ghost use Rattle.wf_complex.specs.Classes.{classes_at, most_within, ArePoints};
ghost use Rattle.wf_complex.specs.Numbering.{picked};

use crate::numbering::number_all;
use crate::views::Views;
use std::alloc::{AllocError, Global};

/// The points of a list of last views, in the order of their first appearance.
#[derive(Drop)]
pub(crate) struct Points {
    /// The id in [`Views`] of each point's view, or in a symmetric task of its class.
    pub classes: Vec<u32>,
    /// The position in the list of last views at which each point appears first.
    pub firsts: Vec<u32>,
    /// The point of each last view.
    pub numbers: Vec<u32>,
    /// The number of different last views.
    pub view_count: u32,
}

/// Returns the points of `lasts`, a list of view ids. If the task is `symmetric`, then a view's
/// class is the view with the names of its processes forgotten; otherwise each view is its own
/// class. Classes that are new are added to `views`.
pub(crate) fn points_of(
    alloc: Global,
    views: &mut Views,
    lasts: Vec<u32>,
    symmetric: bool,
) -> Result<Points, AllocError>
    requires lasts { All (λ k. k < length views.old) lasts.items }
    requires few { length lasts.items ≤ most_points }
    requires shallow { All (λ k. count_within (view_at views.old k) ≤ most_within) lasts.items }
    requires room { length views.old + most_within * length lasts.items ≤ most_number }
    ensures extends { OnOk result (Extends views.old views.new) }
    ensures points { IfOk result
        (λ p. ArePoints views.new (classes_at symmetric views.old lasts.items)
        p.classes.items p.firsts.items p.numbers.items) }
    ensures count { IfOk result
        (λ p. p.view_count ≡ length (distinct same_view (views_at views.old lasts.items))) }
{
    let numbered = number_all(alloc, lasts, views.len() as usize)?;
    let view_count = numbered.different.len() as u32;
    if !symmetric {
        return Ok(Points {
            classes: numbered.different,
            firsts: numbered.firsts,
            numbers: numbered.places,
            view_count,
        });
    }
    let normals = anonymous_views(alloc, views, &numbered.different)?;
    let merged = number_all(alloc, normals, views.len() as usize)?;
    let firsts = pick(alloc, &numbered.firsts, &merged.firsts)?;
    Ok(Points {
        classes: merged.different,
        firsts,
        numbers: gather_in_place(&merged.places, numbered.places),
        view_count,
    })
}

/// Returns the ids of the views `ids` with the names of their processes forgotten, in the same
/// order. Views that are new are added to `views`.
fn anonymous_views(alloc: Global, views: &mut Views, ids: &[u32]) -> Result<Vec<u32>, AllocError>
    requires ids { All (λ k. k < length views.old) ids.now }
    requires shallow { All (λ k. count_within (view_at views.old k) ≤ most_within) ids.now }
    requires room { length views.old + most_within * length ids.now ≤ most_number }
    ensures extends { OnOk result (Extends views.old views.new) }
    ensures within { IfOk result (λ ns. All (λ k. k < length views.new) ns.items) }
    ensures normals { IfOk result
        (λ ns. views_at views.new ns.items ≡ map normal (views_at views.old ids.now)) }
{
    let mut normals = Vec::with_capacity(alloc, ids.len())?;
    for id in ids {
        let number = views.normal(*id)?;
        normals.push(number)?;
    }
    Ok(normals)
}

/// Returns the items of `ids` at the indices `places`.
fn pick(alloc: Global, ids: &[u32], places: &[u32]) -> Result<Vec<u32>, AllocError>
    requires { All (λ p. p < length ids.now) places.now }
    ensures { IfOk result (λ v. v.items ≡ picked ids.now places.now) }
{
    let mut numbers = Vec::with_capacity(alloc, places.len())?;
    for place in places {
        numbers.push(ids[*place as usize])?;
    }
    Ok(numbers)
}

/// Returns the items of `ids` at the indices `places`. They are written over `places`.
fn gather_in_place(ids: &[u32], places: Vec<u32>) -> Vec<u32>
    requires { All (λ p. p < length ids.now) places.items }
    ensures { result.items ≡ picked ids.now places.items }
{
    let mut numbers = places;
    for i in 0..numbers.len() {
        numbers[i] = ids[numbers[i] as usize];
    }
    numbers
}
