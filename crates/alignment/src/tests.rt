//! The table of the alignments, and moves that were worked out by hand.
use crate::Alignment;
use c_ast::Place;
use std::test::Fail;

#[test]
fn counts_are_those_of_the_table(rt: HostRuntime) {
    let rows = [
        (1, 0, 0, 1, 1),
        (2, 1, 0, 1, 1),
        (3, 0, 1, 1, 1),
        (4, 2, 0, 1, 1),
        (5, 0, 2, 1, 1),
        (6, 1, 1, 1, 1),
        (7, 0, 0, 2, 1),
        (8, 0, 0, 1, 2),
        (9, 1, 0, 2, 1),
        (10, 0, 1, 1, 2),
        (11, 0, 0, 3, 1),
        (12, 0, 0, 1, 3),
    ];
    for (alignment, (number, p, q, a, b)) in Alignment::named().iter().zip(rows) {
        assert_eq!(rt; alignment.number(), number);
        assert_eq!(rt; alignment.counts(), (p, q, a, b), "alignment {number}");
    }
}

#[test]
fn sides_move_by_their_counts(rt: HostRuntime) {
    let (entry, exit) = (Place::Entry, Place::Exit);
    let (low, high) = (Place::Mark(7), Place::Mark(1_000_000));
    // Alignment 9 has the counts 1, 0, 2, 1, and alignment 8 the counts 0, 0, 1, 2.
    let [_, _, _, _, _, _, _, eighth, ninth, _, _, _] = Alignment::named();
    assert_eq!(rt; ninth.moves(entry, entry), (2, 1));
    assert_eq!(rt; eighth.moves(entry, entry), (1, 1));
    let rows = [
        (low, low, (2, 1), (1, 2)),
        (high, high, (2, 1), (1, 2)),
        (low, high, (1, 0), (1, 0)),
        (high, low, (0, 1), (0, 1)),
        (exit, low, (0, 1), (0, 1)),
        (high, exit, (1, 0), (1, 0)),
        (exit, exit, (0, 0), (0, 0)),
    ];
    for (first, second, of_ninth, of_eighth) in rows {
        assert!(rt; first != Place::Entry && second != Place::Entry);
        assert_eq!(rt;
            ninth.moves(first, second),
            of_ninth,
            "at {first:?} and {second:?}"
        );
        assert_eq!(rt;
            eighth.moves(first, second),
            of_eighth,
            "at {first:?} and {second:?}"
        );
    }
}
