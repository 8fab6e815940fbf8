//! Rows and multipliers that were worked out by hand.
use crate::{is_checkable, refutes};
use lin_terms::Row;
use std::alloc::{AllocError, Global};
use std::process::Abort;
use std::test::Fail;

/// 2^56 - 1, the greatest entry and the greatest multiplier.
const MOST: i64 = (1 << 56) - 1;

/// Coefficients, constant and whether it is an equality.
type Entries = (&'static [i64], i64, bool);

/// Rows, their multipliers, and whether these refute them.
const SYSTEMS: [(&[Entries], &[i128], bool); 22] = [
    (&[], &[], false),
    // x - 1 >= 0 and -x >= 0
    (&[(&[1], -1, false), (&[-1], 0, false)], &[1, 1], true),
    (&[(&[1], -1, false), (&[-1], 0, false)], &[7, 7], true),
    (&[(&[1], -1, false), (&[-1], 0, false)], &[1, 2], false),
    (&[(&[1], -1, false), (&[-1], 0, false)], &[0, 0], false),
    // x >= 0 and -x >= 0, which 0 meets
    (&[(&[1], 0, false), (&[-1], 0, false)], &[1, 1], false),
    // x + 1 and x with -1 and 1: the first has to be an equality
    (&[(&[1], 1, false), (&[1], 0, false)], &[-1, 1], false),
    (&[(&[1], 1, true), (&[1], 0, false)], &[-1, 1], true),
    (&[(&[1], 1, false), (&[1], 0, true)], &[-1, 1], false),
    // rows without variables
    (&[(&[], -1, false)], &[1], true),
    (&[(&[], 0, false)], &[1], false),
    (&[(&[], 5, true)], &[-1], true),
    (&[(&[], 5, true)], &[1], false),
    (&[(&[0, 0], -3, false)], &[2], true),
    // each column counts
    (&[(&[1, 0], -1, false)], &[1], false),
    (&[(&[0, 1], -1, false)], &[1], false),
    // x = y and 2y - 2x >= 1, then 2x - 2y >= 1
    (&[(&[1, -1], 0, true), (&[-2, 2], -1, false)], &[2, 1], true),
    (
        &[(&[1, -1], 0, true), (&[2, -2], -1, false)],
        &[-2, 1],
        true,
    ),
    // 3x - 2y >= 1, 3x + y <= 2 and y >= 0, with x <= 0, then with x >= 1
    (
        &[
            (&[3, -2], -1, false),
            (&[-3, -1], 2, false),
            (&[0, 1], 0, false),
            (&[-1, 0], 0, false),
        ],
        &[1, 0, 2, 3],
        true,
    ),
    (
        &[
            (&[3, -2], -1, false),
            (&[-3, -1], 2, false),
            (&[0, 1], 0, false),
            (&[1, 0], -1, false),
        ],
        &[0, 1, 1, 3],
        true,
    ),
    // 2^32 x - 1 >= 0: 64 bits would lose the product
    (&[(&[1 << 32], -1, false)], &[1 << 32], false),
    (
        &[(&[MOST], -MOST, false), (&[-MOST], 0, false)],
        &[MOST as i128, MOST as i128],
        true,
    ),
];

fn rows_of(alloc: Global, given: &[Entries]) -> Result<Vec<Row>, AllocError> {
    let mut made = Vec::new(alloc);
    for (coefs, constant, equality) in given {
        made.push(Row::new(alloc, coefs, *constant, *equality)?)?;
    }
    Ok(made)
}

/// What `refutes` answers, where it may be asked.
fn answer(rt: &impl Abort, rows: &[Row], multipliers: &[i128]) -> bool {
    assert!(rt; is_checkable(rows, multipliers));
    refutes(rows, multipliers)
}

#[test]
fn small_rows(rt: HostRuntime) -> Result<(), Fail> {
    let alloc = rt.alloc();
    for (given, multipliers, want) in SYSTEMS {
        let made = rows_of(alloc, given)?;
        let got = answer(&rt, made.as_slice(), multipliers);
        assert_eq!(rt; got, want, "{made:?} with {multipliers:?}");
    }
    Ok(())
}

/// 4,096 rows that have only their last column, whose entries add up to 0, and the greatest entries
/// and multipliers.
#[test]
fn many_rows_and_columns(rt: HostRuntime) -> Result<(), Fail> {
    let alloc = rt.alloc();
    for columns in [1usize, 31, 32, 33, 64, 65] {
        let mut rows = Vec::with_capacity(alloc, 4096)?;
        let mut multipliers = Vec::with_capacity(alloc, 4096)?;
        for i in 0..4096 {
            let mut coefs = vec![in alloc; 0; columns]?;
            let _ = coefs.pop();
            coefs.push(if i % 2 == 0 { MOST } else { -MOST })?;
            rows.push(Row::new(alloc, coefs.as_slice(), -MOST, false)?)?;
            multipliers.push(i128::from(MOST))?;
        }
        assert!(rt;
            answer(&rt, rows.as_slice(), multipliers.as_slice()),
            "{columns} columns"
        );
        let _ = multipliers.pop();
        multipliers.push(i128::from(MOST - 1))?;
        assert!(rt;
            !answer(&rt, rows.as_slice(), multipliers.as_slice()),
            "{columns} columns"
        );
    }
    Ok(())
}
