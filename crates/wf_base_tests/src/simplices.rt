//! Tests of simplices, complexes and words.

use std::alloc::{AllocError, Global};
use std::test::Fail;
use wf_simplex::{Complex, Simplex, SimplexFault, Word, word_count};

/// The vertices of a simplex, each a process with its value.
type Pairs = &'static [(u8, u8)];

const EDGE: Pairs = &[(1, 7), (3, 0)];

const VERTEX: Pairs = &[(3, 0)];

const OTHER_VERTEX: Pairs = &[(3, 1)];

/// Lists of vertices with the fault of each, or `None` if they form a simplex.
static READ: [(Pairs, Option<SimplexFault>); 12] = [
    (&[(0, 0)], None),
    (&[(3, 63)], None),
    (&[(0, 5), (1, 5), (2, 5), (3, 5)], None),
    (&[(1, 0), (3, 1)], None),
    (&[], Some(SimplexFault::Empty)),
    (&[(4, 0)], Some(SimplexFault::Colour)),
    (&[(1, 0), (0, 0)], Some(SimplexFault::Colour)),
    (&[(1, 0), (1, 0)], Some(SimplexFault::Colour)),
    (&[(0, 64)], None),
    (&[(0, 0), (1, 255)], None),
    (&[(0, 64), (0, 0)], Some(SimplexFault::Colour)),
    (
        &[(0, 0), (1, 0), (2, 0), (3, 0), (4, 64)],
        Some(SimplexFault::Colour),
    ),
];

/// Simplices in ascending order: by size, and then as lists.
static ASCENDING: [Pairs; 8] = [
    &[(0, 0)],
    &[(0, 1)],
    &[(3, 0)],
    &[(0, 0), (1, 0)],
    &[(0, 0), (1, 1)],
    &[(0, 0), (2, 0)],
    &[(1, 0), (2, 0)],
    &[(0, 0), (1, 0), (2, 0)],
];

/// Facets, one of which is listed twice and one of which is a face of another.
static FACETS: [Pairs; 4] = [
    &[(0, 0), (1, 1)],
    &[(1, 1)],
    &[(0, 0), (1, 0)],
    &[(0, 0), (1, 1)],
];

static TETRAHEDRON: [Pairs; 1] = [&[(0, 0), (1, 0), (2, 0), (3, 0)]];

/// Simplices with their indices in the complex that [`FACETS`] generate, or `None` if they are not
/// in it.
static PLACES: [(Pairs, Option<u32>); 7] = [
    (&[(0, 0)], Some(0)),
    (&[(1, 0)], Some(1)),
    (&[(1, 1)], Some(2)),
    (&[(0, 0), (1, 0)], Some(3)),
    (&[(0, 0), (1, 1)], Some(4)),
    (&[(1, 2)], None),
    (&[(0, 1)], None),
];

/// The words of three participants in their order, as the block of each participant.
static WORDS: [[u8; 3]; 13] = [
    [0, 0, 0],
    [0, 0, 1],
    [0, 1, 0],
    [0, 1, 1],
    [0, 1, 2],
    [0, 2, 1],
    [1, 0, 0],
    [1, 0, 1],
    [1, 0, 2],
    [1, 1, 0],
    [1, 2, 0],
    [2, 0, 1],
    [2, 1, 0],
];

/// The words of [`WORDS`] whose first block has at least two participants.
static WORDS_OF_PAIRS: [[u8; 3]; 4] = [[0, 0, 0], [0, 0, 1], [0, 1, 0], [1, 0, 0]];

/// Creates the simplices with the vertices `rows`.
fn simplices(alloc: Global, rows: &[Pairs]) -> Result<Vec<Simplex>, Fail> {
    let mut simplices = Vec::new(alloc);
    for pairs in rows {
        simplices.push(Simplex::read(pairs)?)?;
    }
    Ok(simplices)
}

/// Returns whether `simplex` is greater than those before `place` in `ascending`, equal to the one
/// at `place`, and less than those behind it.
fn stands_at(ascending: &[Simplex], simplex: &Simplex, place: usize) -> bool {
    for (other_place, other) in ascending.iter().enumerate() {
        if simplex.cmp(other) != place.cmp(&other_place)
            || (simplex == other) != (place == other_place)
        {
            return false;
        }
    }
    true
}

/// Appends the blocks of the three participants of `word` to `list`. Other words are ignored.
fn put_levels(word: &Word, list: &mut Vec<[u8; 3]>) -> Result<(), AllocError> {
    if word.size() == 3 {
        list.push([word.level(0), word.level(1), word.level(2)])?;
    }
    Ok(())
}

/// Checks that each list of vertices of [`READ`] is a simplex or has its expected fault.
#[test]
fn simplices_are_read_or_refused(rt: HostRuntime) {
    for (place, (pairs, fault)) in READ.iter().enumerate() {
        assert!(rt; Simplex::read(pairs).err() == *fault, "at {place}");
    }
}

/// Returns the number of vertices of `simplex`, and the values of processes 0, 1, 3 and 4 in it.
fn values(simplex: &Simplex) -> (u8, [Option<u8>; 4]) {
    let values = [
        simplex.value(0),
        simplex.value(1),
        simplex.value(3),
        simplex.value(4),
    ];
    (simplex.colours(), values)
}

/// Returns the processes of `simplex` if it is an edge.
fn ends(simplex: &Simplex) -> Option<(u8, u8)> {
    if simplex.colours() != 2 {
        return None;
    }
    Some((simplex.colour(0), simplex.colour(1)))
}

/// Returns whether `face` is a face of `whole`.
fn is_face(face: Pairs, whole: Pairs) -> Result<bool, SimplexFault> {
    Ok(Simplex::read(face)?.is_face(&Simplex::read(whole)?))
}

/// Checks the values, the processes and the places of an edge.
#[test]
fn simplices_know_their_vertices(rt: HostRuntime) -> Result<(), Fail> {
    let edge = Simplex::read(EDGE)?;
    assert!(rt; values(&edge) == (2, [None, Some(7), Some(0), None]));
    assert!(rt; ends(&edge) == Some((1, 3)));
    assert!(rt; (edge.place(0), edge.place(1)) == (None, Some(0)));
    assert!(rt; (edge.place(3), edge.place(4)) == (Some(1), None));
    assert!(rt; Simplex::of_pairs(&[(1, 7), (3, 0)]) == edge);
    Ok(())
}

/// Checks which simplices are faces of an edge and of a vertex.
#[test]
fn faces_are_told_apart(rt: HostRuntime) {
    assert!(rt; is_face(VERTEX, EDGE) == Ok(true));
    assert!(rt; is_face(EDGE, EDGE) == Ok(true));
    assert!(rt; is_face(EDGE, VERTEX) == Ok(false));
    assert!(rt; is_face(OTHER_VERTEX, EDGE) == Ok(false));
}

/// Checks that the simplices of [`ASCENDING`] are in ascending order.
#[test]
fn simplices_are_ordered_by_size_and_then_as_lists(rt: HostRuntime) -> Result<(), Fail> {
    let ascending = simplices(rt.alloc(), &ASCENDING)?;
    for (place, simplex) in ascending.iter().enumerate() {
        assert!(rt; stands_at(&ascending, simplex, place), "at {place}");
    }
    Ok(())
}

/// Returns the number of simplices of the complex that `facets` generate, or `None` if there are
/// more than four facets.
fn complex_size(alloc: Global, facets: &[Pairs]) -> Result<Option<usize>, Fail> {
    let facets = simplices(alloc, facets)?;
    if facets.len() > 4 {
        return Ok(None);
    }
    Ok(Some(Complex::from_facets(alloc, &facets)?.simplices().len()))
}

/// Returns the index of a simplex in `complex`, and whether the complex has it.
fn found(complex: &Complex, pairs: Pairs) -> Result<(Option<u32>, bool), Fail> {
    let simplex = Simplex::read(pairs)?;
    Ok((complex.index(&simplex), complex.contains(&simplex)))
}

/// Checks the sizes of complexes that facets generate.
#[test]
fn complexes_are_closed_under_faces(rt: HostRuntime) -> Result<(), Fail> {
    assert!(rt; complex_size(rt.alloc(), &FACETS)? == Some(5));
    assert!(rt; complex_size(rt.alloc(), &TETRAHEDRON)? == Some(15));
    assert!(rt; complex_size(rt.alloc(), &[])? == Some(0));
    Ok(())
}

/// Checks the index of each simplex of [`PLACES`].
#[test]
fn simplices_of_a_complex_are_found(rt: HostRuntime) -> Result<(), Fail> {
    let facets = simplices(rt.alloc(), &FACETS)?;
    assert!(rt; facets.len() <= 4);
    let complex = Complex::from_facets(rt.alloc(), &facets)?;
    for (place, (pairs, index)) in PLACES.iter().enumerate() {
        assert!(rt;
            found(&complex, pairs)? == (*index, index.is_some()),
            "at {place}"
        );
    }
    Ok(())
}

/// Checks the order of the words of three participants, and which of them have two in the first
/// block.
#[test]
fn words_follow_one_another(rt: HostRuntime) -> Result<(), Fail> {
    let mut words = Vec::new(rt.alloc());
    let mut allowed = Vec::new(rt.alloc());
    let mut word = Word::first(3);
    for _ in 0..100 {
        put_levels(&word, &mut words)?;
        if word.allowed(2) {
            put_levels(&word, &mut allowed)?;
        }
        if !word.next() {
            break;
        }
    }
    assert!(rt; words.as_slice() == WORDS.as_slice());
    assert!(rt; allowed.as_slice() == WORDS_OF_PAIRS.as_slice());
    Ok(())
}

/// Checks the numbers of words of one to four participants: ordered set partitions.
#[test]
fn words_are_counted(rt: HostRuntime) {
    let counts = [word_count(1), word_count(2), word_count(3), word_count(4)];
    assert_eq!(rt; counts, [1, 3, 13, 75]);
}
