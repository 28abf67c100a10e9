//! The edges and triangles of the complex that the tuples of a simplex form.

use crate::fault::FinderFault;
use std::alloc::{AllocError, Global};
use wf_task::Row;

/// The largest number of vertices of a complex: 256 values at each of four places.
const VERTICES: u32 = 1024;

/// The number of values at a place.
const VALUES: u32 = 256;

/// The places of the triangles of a tuple. A tuple of three values has the first of them only.
const PLACES: [(u8, u8, u8); 4] = [(0, 1, 2), (0, 1, 3), (0, 2, 3), (1, 2, 3)];

/// A triangle, given by its three edges.
#[derive(Clone, Copy, PartialEq, Eq, PartialOrd, Ord)]
pub(crate) struct Triangle {
    pub(crate) first: u32,
    pub(crate) second: u32,
    pub(crate) third: u32,
}

/// Returns the edges of the triangles in `rows`, in ascending order and without duplicates. The
/// four bytes of an edge are a place, the value there, a later place, and the value there.
pub(crate) fn edges_of(alloc: Global, rows: &[Row]) -> Result<Vec<u32>, AllocError> {
    let mut edges = Vec::new(alloc);
    for triangle in &triangles_of(alloc, rows)? {
        edges.push(triangle.first)?;
        edges.push(triangle.second)?;
        edges.push(triangle.third)?;
    }
    edges.sort_unstable();
    edges.dedup();
    Ok(edges)
}

/// Returns the triangles in `rows`, in ascending order and without duplicates.
pub(crate) fn triangles_of(alloc: Global, rows: &[Row]) -> Result<Vec<Triangle>, AllocError> {
    let mut triangles = Vec::new(alloc);
    for row in rows {
        add_triangles(row.as_slice(), &mut triangles)?;
    }
    triangles.sort_unstable();
    triangles.dedup();
    Ok(triangles)
}

/// Appends the triangles of the tuple `row` to `triangles`.
fn add_triangles(row: &[u8], triangles: &mut Vec<Triangle>) -> Result<(), AllocError> {
    for (first, second, third) in PLACES.iter().copied() {
        if let Some(triangle) = triangle_at(row, first, second, third) {
            triangles.push(triangle)?;
        }
    }
    Ok(())
}

/// Returns the triangle of `row` at three places in ascending order, or `None` if the row does not
/// have one of the places.
fn triangle_at(row: &[u8], first: u8, second: u8, third: u8) -> Option<Triangle> {
    let one = [first, *row.get(first as usize)?];
    let two = [second, *row.get(second as usize)?];
    let three = [third, *row.get(third as usize)?];
    Some(Triangle {
        first: edge(one, two),
        second: edge(one, three),
        third: edge(two, three),
    })
}

/// Returns the edge of two vertices, each given as a place and a value.
fn edge([first, value]: [u8; 2], [second, other]: [u8; 2]) -> u32 {
    u32::from_be_bytes([first, value, second, other])
}

/// Returns the edges outside a spanning forest: each joins two vertices that smaller edges already
/// connect.
pub(crate) fn free_edges(alloc: Global, edges: &[u32]) -> Result<Vec<u32>, FinderFault> {
    let mut trees = Vec::with_capacity(alloc, VERTICES as usize)?;
    for vertex in 0..VERTICES {
        trees.push(vertex)?;
    }
    let mut free = Vec::new(alloc);
    for edge in edges {
        if !joins(&mut trees, *edge)? {
            free.push(*edge)?;
        }
    }
    Ok(free)
}

/// Joins the trees of the two ends of `edge`. Returns `false` if they are one tree already.
fn joins(trees: &mut [u32], edge: u32) -> Result<bool, FinderFault> {
    let [first, value, second, other] = edge.to_be_bytes();
    let one = tree_of(trees, first, value)?;
    let two = tree_of(trees, second, other)?;
    if one == two {
        return Ok(false);
    }
    for tree in trees.iter_mut() {
        if *tree == two {
            *tree = one;
        }
    }
    Ok(true)
}

/// Returns the tree that contains the vertex at `place` with `value`, as the number of one of its
/// vertices.
fn tree_of(trees: &[u32], place: u8, value: u8) -> Result<u32, FinderFault> {
    let vertex = u32::from(place) * VALUES + u32::from(value);
    match trees.get(vertex as usize) {
        Some(tree) => Ok(*tree),
        None => Err(FinderFault::Internal),
    }
}
