//! Tests of the reader of clausal proofs.

use std::alloc::{AllocError, Global};
use std::test::Fail;
use wf_sat_text::drat::{Literal, Reader, Reading, Transition};

/// Lets a new reader take a literal at index `from` of `piece`. Returns the index after it, or
/// `None` if the piece does not hold a whole literal there.
fn end_of_taken_literal(
    alloc: Global,
    piece: &[u8],
    from: usize,
) -> Result<Option<usize>, AllocError> {
    if from >= piece.len() {
        return Ok(None);
    }
    let mut reader = Reader::new(alloc, 12);
    reader.take_literal(piece, from)
}

/// Checks that the reader takes a literal at once only if it ends with a space in the same piece.
#[test]
fn whole_literals_are_taken(rt: HostRuntime) -> Result<(), Fail> {
    // refused are the end of the piece, another blank, a word, the 0, a variable too large, and a
    // sign alone
    let rows: [(&[u8], usize, Option<usize>); 9] = [
        (b"-12 7", 0, Some(4)),
        (b"1 12 7", 2, Some(5)),
        (b"-12", 0, None),
        (b"12\n", 0, None),
        (b"12x ", 0, None),
        (b"0 ", 0, None),
        (b"13 ", 0, None),
        (b"4294967297 ", 0, None),
        (b"- ", 0, None),
    ];
    for (piece, from, end) in rows {
        assert_eq!(rt;
            end_of_taken_literal(rt.alloc(), piece, from)?,
            end,
            "{piece:?}"
        );
    }
    Ok(())
}

/// Checks the transitions of the reader: a deletion begins, a number goes on, a literal is read,
/// and the step ends. Line feeds are counted.
#[test]
fn a_text_is_read_byte_by_byte(rt: HostRuntime) -> Result<(), Fail> {
    let mut reader = Reader::new(rt.alloc(), 12);
    reader.begin_deletion(b'd');
    let deletes = reader.is_deletion();
    reader.go_on(
        Reading::Number {
            is_negative: true,
            value: 1,
        },
        b'1',
    );
    let reads_twelve = matches!(
        reader.transition(b'2'),
        Transition::GoesOn {
            reading: Reading::Number { value: 12, .. },
        }
    );
    reader.push(Literal::negative(1), b'\n')?;
    let step = (reader.clause().len(), reader.line());
    reader.end_step(b'\n');
    let ended = (reader.clause().len(), reader.line());
    assert_eq!(rt;
        (deletes, reads_twelve, reader.is_deletion()),
        (true, true, false)
    );
    assert_eq!(rt; (step, ended), ((1, 2), (0, 3)));
    Ok(())
}
