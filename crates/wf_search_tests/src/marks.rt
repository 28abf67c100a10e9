//! Tests of marks on executions, and of sets that fit into words, worked out by hand.

use std::alloc::AllocError;
use wf_network::{MarkMask, Marks, narrowed, pack_nibbles, pack_word, unpacked, unpacked_nibbles};

/// Checks that marks are taken in ascending order, and that `clear` removes all.
#[test]
fn marks_are_taken_in_order_and_cleared(rt: HostRuntime) -> Result<(), AllocError> {
    let mut marks = Marks::new(rt.alloc());
    marks.reserve(rt.alloc(), 200)?;
    marks.mark_each(&[MarkMask { word: 0, bits: 5 }, MarkMask { word: 3, bits: 1 }]);
    for (from, next) in [(0, 0), (0, 2), (3, 96)] {
        assert_eq!(rt; marks.take_next(from), Some(next));
    }
    assert_eq!(rt; marks.take_next(0), None);
    marks.mark_all();
    marks.clear();
    assert_eq!(rt; marks.take_next(0), None);
    Ok(())
}

/// Checks that sets of values below 64 are narrowed to words, and other sets aren't.
#[test]
fn sets_below_64_are_words(rt: HostRuntime) {
    let low = [[1, 0, 0, 0], [2, 0, 0, 0], [3, 0, 0, 0], [0; 4]];
    assert_eq!(rt; narrowed(low), Some([1, 2, 3, 0]));
    let wide = [[1, 0, 0, 0], [2, 0, 0, 1], [3, 0, 0, 0], [0; 4]];
    assert_eq!(rt; narrowed(wide), None);
}

/// Checks that four sets of small values are packed into one word and unpacked again. In
/// hexadecimal each digit of the smallest form is the set of one place, and the first place is the
/// last digit.
#[test]
fn small_sets_share_a_word(rt: HostRuntime) {
    let low = [8, 2, 15, 0];
    assert_eq!(rt;
        (pack_nibbles(low), pack_word(low)),
        (Some(0xf28), Some(0xf_0002_0008))
    );
    let parts = (unpacked_nibbles(0xf28), unpacked(0xf_0002_0008));
    assert_eq!(rt; parts, ([8, 2, 15, 0], [8, 2, 15, 0]));
    let more = [8, 16, 15, 0];
    assert_eq!(rt;
        (pack_nibbles(more), pack_word(more)),
        (None, Some(0xf_0010_0008))
    );
    let most = [8, 65_536, 15, 0];
    assert_eq!(rt; pack_word(most), None);
}
