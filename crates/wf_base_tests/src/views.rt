//! Tests of the table of views.

use std::alloc::AllocError;
use std::test::Fail;
use wf_complex::Views;

/// Processes with their inputs, and the index that the table gives the view of each, one after the
/// other.
static NUMBERED: [(u8, u8, u32); 6] = [
    (0, 5, 0),
    (1, 5, 1),
    (0, 5, 0),
    (0, 6, 2),
    (3, 63, 3),
    (2, 1, 4),
];

/// Returns the index of the view of `process` before the first round, or `None` if there is no such
/// process or the table has more than 100 views.
fn base(views: &mut Views, process: u8, value: u8) -> Result<Option<u32>, AllocError> {
    if process > 3 || views.len() > 100 {
        return Ok(None);
    }
    Ok(Some(views.base(process, value)?))
}

/// Returns the process of view `id`, its input, and the set of processes that occur in it, a bit
/// for each.
fn known(views: &Views, id: u32) -> Option<(u8, Option<u8>, u8)> {
    if id >= views.len() {
        return None;
    }
    Some((views.colour(id), views.input(id), views.colours_in(id)))
}

/// Returns the indices of the views that view `id` saw.
fn parts(views: &Views, id: u32) -> Option<&[u32]> {
    if id >= views.len() {
        return None;
    }
    Some(views.parts(id))
}

/// Checks that a new view gets the next index, and a known one the index that it has.
#[test]
fn one_number_is_one_view(rt: HostRuntime) -> Result<(), Fail> {
    let mut views = Views::start(rt.alloc());
    for (process, value, number) in &NUMBERED {
        let found = base(&mut views, *process, *value)?;
        assert!(rt; found == Some(*number), "{number}");
    }
    assert!(rt; views.len() == 5);
    assert!(rt; known(&views, 4) == Some((2, Some(1), 0b0100)));
    assert!(rt; parts(&views, 4) == Some([].as_slice()));
    Ok(())
}

/// Checks that `normal` replaces each process by its rank among those that occur, at every depth.
#[test]
fn ranks_count_what_occurs_at_depth(rt: HostRuntime) -> Result<(), Fail> {
    let mut views = Views::start(rt.alloc());
    let first = views.base(0, 5)?;
    let second = views.base(3, 6)?;
    let both = views.seen(3, &[first, second])?;
    let alone = views.seen(3, &[both])?;
    assert!(rt; views.normal(alone)? == 6);
    assert!(rt; known(&views, 6) == Some((1, None, 0b0011)));
    assert!(rt; parts(&views, 6) == Some([5].as_slice()));
    assert!(rt; parts(&views, 5) == Some([0, 4].as_slice()));
    assert!(rt; known(&views, 4) == Some((1, Some(6), 0b0010)));
    Ok(())
}
