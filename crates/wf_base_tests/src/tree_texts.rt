//! Tests of the text of obstructions: texts that are read and written again, lines that are
//! refused, and line numbers.

use std::alloc::{AllocError, Global};
use std::test::Fail;
use wf_report::CertFault;
use wf_tree_text::{
    FIRST_LINE, TreeNode, is_obstruction_text, line_of, obstructions_are_read_as_written,
    obstructions_are_written_as_read, read_obstruction, write_obstruction,
};

/// The first lines of an obstruction, which come before its nodes.
const FRONT: &str = "wfcheck obstruction 1\nprocesses 3\nsimplices 7\n";

/// An obstruction of the hourglass: the simplex of all three is split, and then one balance shows
/// that there is no map.
const HOURGLASS: &str =
    "wfcheck obstruction 1\nprocesses 3\nsimplices 7\nsplit 6\nbalance 2 1\nm 1 1 0\nm 1 3 0 1\nm 1 3 1 1\nend\n";

/// An obstruction with a cover of two sheets, which one move exchanges and another keeps, and below
/// it a case and two balances.
const COVER: &str =
    "wfcheck obstruction 1\nprocesses 3\nsimplices 7\ncover 6 2 0\np 0 1 2 3 1 0\np 0 2 1 0 0 1\ncase 4294967295\nbalance 7 6\nm 6 6 3 255 0 1\nbalance 2 0\nend\n";

/// Returns the text of the first lines and then `lines`.
fn text_of(alloc: Global, lines: &str) -> Result<String, AllocError> {
    let mut text = String::new(alloc);
    text.push_str(FRONT)?;
    text.push_str(lines)?;
    Ok(text)
}

/// Returns the number of the line at which the text with the nodes `lines` is refused, or 0 if it
/// is read.
fn refused(alloc: Global, lines: &str) -> Result<u32, AllocError> {
    let text = text_of(alloc, lines)?;
    match read_obstruction(alloc, text.as_bytes()) {
        Ok(_read) => Ok(0),
        Err(CertFault::Syntax(line)) => Ok(line),
        Err(_other) => Err(AllocError),
    }
}

/// Checks that obstructions are written as they were read, and that a first line without its line
/// feed doesn't begin one.
#[test]
fn what_is_read_is_written(rt: HostRuntime) -> Result<(), Fail> {
    let alloc = rt.alloc();
    for text in [HOURGLASS, COVER] {
        assert!(rt; is_obstruction_text(text.as_bytes()));
        let obstruction = read_obstruction(alloc, text.as_bytes())?;
        assert_eq!(rt; (obstruction.processes, obstruction.simplices), (3, 7));
        let written = write_obstruction(alloc, &obstruction)?;
        assert_eq!(rt; written.as_slice(), text.as_bytes());
    }
    assert!(rt; !is_obstruction_text(FIRST_LINE.as_bytes()));
    obstructions_are_read_as_written();
    obstructions_are_written_as_read();
    Ok(())
}

/// Checks the nodes of [`COVER`], and the line numbers of their entries.
#[test]
fn lines_are_parts_of_nodes(rt: HostRuntime) -> Result<(), Fail> {
    let alloc = rt.alloc();
    let obstruction = read_obstruction(alloc, COVER.as_bytes())?;
    let nodes = obstruction.nodes.as_slice();
    // the cover on line 4 has two moves, and the first balance one multiplier
    let lines = [
        line_of(nodes, 0, 0),
        line_of(nodes, 0, 2),
        line_of(nodes, 1, 0),
        line_of(nodes, 2, 1),
        line_of(nodes, 3, 0),
    ];
    assert_eq!(rt; lines, [4, 6, 7, 9, 10]);
    let [
        TreeNode::Cover(cover),
        TreeNode::Case { simplex },
        TreeNode::Balance(balance),
        TreeNode::Balance(_),
    ] = nodes
    else {
        return Err(Fail::from(AllocError));
    };
    assert_eq!(rt;
        (cover.simplex, cover.sheets, cover.corner, *simplex),
        (6, 2, 0, 4294967295)
    );
    assert_eq!(rt; cover.moves.len(), 2);
    assert_eq!(rt; cover.moves[0].sheets.as_slice(), [1, 0].as_slice());
    assert_eq!(rt;
        (balance.modulus, balance.sum, balance.multipliers.len()),
        (7, 6, 1)
    );
    assert_eq!(rt;
        balance.multipliers[0].others.as_slice(),
        [255, 0, 1].as_slice()
    );
    Ok(())
}

/// Checks that texts without a node, with unusual numbers and with many moves and multipliers are
/// read.
#[test]
fn texts_may_have_no_node_or_many(rt: HostRuntime) -> Result<(), Fail> {
    let alloc = rt.alloc();
    let good = [
        "end\n",
        "split 0\nend\n",
        "balance 0 0\nend\n",
        "balance 2 1\nm 0 5 0\nm 0 5 0 0\nm 0 5 0 1\nm 0 5 1\nm 0 6 0\nend\n",
        "cover 0 1 255\nend\n",
        "cover 0 1 0\np 0 0 1 0 0\np 0 0 1 1 0\np 0 0 3 0 0\np 0 1 1 0 0\np 2 0 3 0 0\nend\n",
    ];
    for lines in good {
        assert_eq!(rt; refused(alloc, lines)?, 0, "of {lines}");
    }
    Ok(())
}

/// Checks that a text is refused at its first bad line.
#[test]
fn the_first_bad_line_is_named(rt: HostRuntime) -> Result<(), Fail> {
    let alloc = rt.alloc();
    let bad = [
        // lines that are missing, that follow the end, or that mean nothing
        ("", 4),
        ("case 1\n", 5),
        ("end", 4),
        ("end\nend\n", 5),
        ("end\n\n", 5),
        ("\nend\n", 4),
        ("case\nend\n", 4),
        ("case 1 \nend\n", 4),
        ("case 1 2\nend\n", 4),
        ("case  1\nend\n", 4),
        ("case 01\nend\n", 4),
        ("balance 2\nend\n", 4),
        ("s 1\nend\n", 4),
        // covers and moves
        ("cover 1 0 0\nend\n", 4),
        ("cover 1 256 0\nend\n", 4),
        ("cover 1 2 256\nend\n", 4),
        ("p 0 0 1 0 0\nend\n", 4),
        ("split 1\np 0 0 1 0 0\nend\n", 5),
        ("cover 1 2 0\np 0 0 1 0 0\nend\n", 5),
        ("cover 1 2 0\np 0 0 1 0 0 1 1\nend\n", 5),
        ("cover 1 2 0\np 0 0 1 0 0 2\nend\n", 5),
        ("cover 1 2 0\np 1 0 1 0 0 1\nend\n", 5),
        ("cover 1 2 0\np 0 0 4 0 0 1\nend\n", 5),
        ("cover 1 2 0\np 0 256 1 0 0 1\nend\n", 5),
        ("cover 1 2 0\np 0 0 1 0 0 1\np 0 0 1 0 1 0\nend\n", 6),
        ("cover 1 2 0\np 0 0 2 0 0 1\np 0 0 1 0 1 0\nend\n", 6),
        // balances and multipliers
        ("m 1 1 0\nend\n", 4),
        ("case 1\nm 1 1 0\nend\n", 5),
        ("balance 2 1\ncase 1\nm 1 1 0\nend\n", 6),
        ("balance 2 1\nm 1 1 4\nend\n", 5),
        ("balance 2 1\nm 1 1 0 256\nend\n", 5),
        ("balance 2 1\nm 1 1 0 1 1 1 1\nend\n", 5),
        ("balance 2 1\nm 1 1 0 1\nm 2 1 0 1\nend\n", 6),
        ("balance 2 1\nm 1 2 0 1\nm 1 1 0 1\nend\n", 6),
        ("balance 2 1\nm 1 1 0 1\nm 1 1 0\nend\n", 6),
    ];
    for (lines, line) in bad {
        assert_eq!(rt; refused(alloc, lines)?, line, "of {lines}");
    }
    assert_eq!(rt; refused(alloc, "case 4294967296\nend\n")?, 4);
    let front = "wfcheck obstruction 1\nprocesses 3\nsimplices\n";
    assert!(rt; read_obstruction(alloc, front.as_bytes()).is_err());
    Ok(())
}

/// Checks the length limit of obstructions: a text of that length is refused at its first line, and
/// one byte more because of its length.
#[test]
fn a_text_above_the_limit_is_too_long(rt: HostRuntime) -> Result<(), Fail> {
    let alloc = rt.alloc();
    let longest = vec![in alloc; b'm'; 16_777_217]?;
    let found = read_obstruction(alloc, &longest).err();
    assert_eq!(rt; found, Some(CertFault::TooLong));
    let found = read_obstruction(alloc, &longest[1..]).err();
    assert_eq!(rt; found, Some(CertFault::Syntax(1)));
    Ok(())
}
