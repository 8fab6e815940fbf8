//! Walks of pairs that were made by hand.
use crate::{Position, Spot, first_values, node_at, positions, second_values, walk};
use alignment::Alignment;
use c_ast::{Event, Pair, Place, Trace};
use horn_clauses::Node;
use sqlite_items::Items;
use std::alloc::{AllocError, Global};
use std::test::Fail;

/// An alignment's number, the marks that each side passes, and the positions of the walk.
struct Case {
    alignment: u32,
    first: &'static [u32],
    second: &'static [u32],
    walk: &'static [(usize, usize)],
}

const CASES: [Case; 10] = [
    // p, q, a, b = 0, 0, 1, 1: both sides move together
    Case {
        alignment: 1,
        first: &[7, 7],
        second: &[7, 7],
        walk: &[(0, 0), (1, 1), (2, 2), (3, 3)],
    },
    Case {
        alignment: 1,
        first: &[],
        second: &[],
        walk: &[(0, 0), (1, 1)],
    },
    // the side that is at its exit waits
    Case {
        alignment: 1,
        first: &[],
        second: &[3, 5],
        walk: &[(0, 0), (1, 1), (1, 2), (1, 3)],
    },
    // at different marks the side with the lower one moves
    Case {
        alignment: 1,
        first: &[3, 9],
        second: &[5],
        walk: &[(0, 0), (1, 1), (2, 1), (2, 2), (3, 2)],
    },
    // p = 1: side A takes two segments from the entry, and is out first
    Case {
        alignment: 2,
        first: &[7, 7],
        second: &[7, 7],
        walk: &[(0, 0), (2, 1), (3, 2), (3, 3)],
    },
    // p = 2: from the entry side A goes on from mark 7, but stops at mark 8
    Case {
        alignment: 4,
        first: &[7, 8, 8],
        second: &[7],
        walk: &[(0, 0), (2, 1), (2, 2), (3, 2), (4, 2)],
    },
    // q = 2: side B takes three segments from the entry
    Case {
        alignment: 5,
        first: &[7],
        second: &[7, 7, 7],
        walk: &[(0, 0), (1, 3), (2, 4)],
    },
    // a = 2: side A stays at its mark and goes on to its count
    Case {
        alignment: 7,
        first: &[7, 7, 7],
        second: &[7, 7],
        walk: &[(0, 0), (1, 1), (3, 2), (4, 3)],
    },
    // a = 2: side A stops early where it leaves mark 7, and goes on to its exit from mark 8
    Case {
        alignment: 7,
        first: &[7, 8, 8],
        second: &[7, 8],
        walk: &[(0, 0), (1, 1), (2, 2), (4, 3)],
    },
    // b = 3: side B takes three segments, and side A one
    Case {
        alignment: 12,
        first: &[7, 7],
        second: &[7, 7, 7],
        walk: &[(0, 0), (1, 1), (2, 4), (3, 4)],
    },
];

/// The trace that passes these marks. The only value at each is how many marks lie behind.
fn passing(alloc: Global, marks: &[u32]) -> Result<Trace, AllocError> {
    let mut events = Items::new(alloc);
    let mut behind = 0u32;
    for mark in marks {
        let values = Items::from_slice(alloc, &[i128::from(behind)])?;
        events.push(Event {
            mark: *mark,
            values,
        })?;
        behind = behind.saturating_add(1);
    }
    Ok(Trace { events, result: 99 })
}

fn pair_of(alloc: Global, case: &Case) -> Result<Pair, AllocError> {
    let input = Items::from_slice(alloc, &[5, 6])?;
    let first = passing(alloc, case.first)?;
    let second = passing(alloc, case.second)?;
    Ok(Pair {
        input,
        first,
        second,
    })
}

fn numbered(number: u32) -> Option<Alignment> {
    for alignment in Alignment::named().iter() {
        if alignment.number() == number {
            return Some(*alignment);
        }
    }
    None
}

fn are(made: &[Position], rows: &[(usize, usize)]) -> bool {
    made.len() == rows.len()
        && made.iter().zip(rows).all(|(position, row)| (position.first, position.second) == *row)
}

/// Whether the spot has the node and the values at the position.
fn is_at(pair: &Pair, spot: &Spot, position: Position) -> bool {
    spot.node == node_at(pair, position)
        && spot.first.as_slice() == first_values(pair, position)
        && spot.second.as_slice() == second_values(pair, position)
}

fn are_at(pair: &Pair, spots: &[Spot], made: &[Position]) -> bool {
    for (spot, position) in spots.iter().zip(made) {
        if !is_at(pair, spot, *position) {
            return false;
        }
    }
    spots.len() == made.len()
}

/// Whether the positions of the case are those of its table, and its spots are at them.
fn walks_so(alloc: Global, case: &Case) -> Result<bool, AllocError> {
    let pair = pair_of(alloc, case)?;
    let Some(alignment) = numbered(case.alignment) else {
        return Ok(false);
    };
    let made = positions(alloc, alignment, &pair)?;
    let spots = walk(alloc, alignment, &pair)?;
    Ok(are(made.as_slice(), case.walk) && are_at(&pair, spots.as_slice(), made.as_slice()))
}

#[test]
fn walks_follow_the_counts(rt: HostRuntime) -> Result<(), Fail> {
    for case in &CASES {
        assert!(rt;
            walks_so(rt.alloc(), case)?,
            "alignment {}, {:?}",
            case.alignment,
            case.walk
        );
    }
    Ok(())
}

/// The trace with one event.
fn with_event(
    alloc: Global,
    mark: u32,
    values: &[i128],
    returned: i128,
) -> Result<Trace, AllocError> {
    let values = Items::from_slice(alloc, values)?;
    let mut events = Items::new(alloc);
    events.push(Event { mark, values })?;
    Ok(Trace {
        events,
        result: returned,
    })
}

/// Two functions that add up the numbers below n, with the marks of their loops, at n = 0: A's
/// loop begins at i = 0, and B's at i = 1.
fn sums(alloc: Global) -> Result<Pair, AllocError> {
    let input = Items::from_slice(alloc, &[0])?;
    let first = with_event(alloc, 42, &[0, 0, 0], 0)?;
    let second = with_event(alloc, 42, &[0, 1, 0], 0)?;
    Ok(Pair {
        input,
        first,
        second,
    })
}

const SPOTS: [(Node, &[i128], &[i128]); 3] = [
    (Node(Place::Entry, Place::Entry), &[0], &[0]),
    (Node(Place::Exit, Place::Mark(42)), &[0], &[0, 1, 0]),
    (Node(Place::Exit, Place::Exit), &[0], &[0]),
];

#[test]
fn values_are_those_of_the_traces(rt: HostRuntime) -> Result<(), Fail> {
    let alloc = rt.alloc();
    let [_, second, _, _, _, _, _, _, _, _, _, _] = Alignment::named();
    let spots = walk(alloc, second, &sums(alloc)?)?;
    assert_eq!(rt; spots.len(), SPOTS.len());
    for (spot, (node, first, second)) in spots.as_slice().iter().zip(SPOTS) {
        assert_eq!(rt; spot.node, node);
        assert_eq!(rt; spot.first.as_slice(), first);
        assert_eq!(rt; spot.second.as_slice(), second);
    }
    Ok(())
}

#[test]
fn every_later_number_is_the_exit(rt: HostRuntime) -> Result<(), Fail> {
    let pair = sums(rt.alloc())?;
    let beyond = Position {
        first: 2,
        second: usize::MAX,
    };
    assert_eq!(rt; node_at(&pair, beyond), Node(Place::Exit, Place::Exit));
    assert_eq!(rt; first_values(&pair, beyond), [0].as_slice());
    assert_eq!(rt; second_values(&pair, beyond), [0].as_slice());
    Ok(())
}
