//! Rows that were worked out by hand.
use crate::{Answer, Limit, decide};
use lin_terms::{Row, are_fitting_rows, have_one_length};
use std::alloc::{AllocError, Global};
use std::process::Abort;
use std::test::Fail;

/// 2^56 - 1, the greatest entry.
const MOST: i64 = (1 << 56) - 1;

/// Coefficients, constant and whether it is an equality.
type Entries = (&'static [i64], i64, bool);

/// What is answered: multipliers, or that there are none, or a limit.
type Want = Result<Option<&'static [i128]>, Limit>;

/// Rows, the cap, and what is answered.
const SYSTEMS: [(&[Entries], u32, Want); 21] = [
    (&[], 4, Ok(None)),
    (&[], 0, Ok(None)),
    // x - 1 >= 0 and -x >= 0
    (
        &[(&[1], -1, false), (&[-1], 0, false)],
        4,
        Ok(Some(&[1, 1])),
    ),
    (
        &[(&[1], -1, false), (&[-1], 0, false)],
        2,
        Ok(Some(&[1, 1])),
    ),
    (
        &[(&[1], -1, false), (&[-1], 0, false)],
        1,
        Err(Limit::ManyRows),
    ),
    // 2x - 1 >= 0 and 1 - 2x >= 0: no whole number, but 1/2
    (&[(&[2], -1, false), (&[-2], 1, false)], 4, Ok(None)),
    (
        &[(&[2], -1, false), (&[-2], 1, false)],
        1,
        Err(Limit::ManyRows),
    ),
    // 2x - 1 >= 0 and -2x >= 0: twice their sum is -2, which is divided by 2
    (
        &[(&[2], -1, false), (&[-2], 0, false)],
        4,
        Ok(Some(&[1, 1])),
    ),
    // 2 - x = 0 and 1 - x >= 0: the second less the first
    (
        &[(&[-1], 2, true), (&[-1], 1, false)],
        4,
        Ok(Some(&[-1, 1])),
    ),
    // x - 2 = 0 and x - 2 >= 0: their difference is 0 >= 0
    (&[(&[1], -2, true), (&[1], -2, false)], 4, Ok(None)),
    // 2x = 1 and 2x = 3
    (&[(&[2], -1, true), (&[2], -3, true)], 4, Ok(Some(&[-1, 1]))),
    // x = y, y >= 3 and x <= 2
    (
        &[
            (&[1, -1], 0, true),
            (&[0, 1], -3, false),
            (&[-1, 0], 2, false),
        ],
        4,
        Ok(Some(&[1, 1, 1])),
    ),
    // 5 = 0 does not hold, 5 >= 0 does
    (&[(&[0], 5, true)], 4, Ok(Some(&[-1]))),
    (&[(&[0], 5, false)], 4, Ok(None)),
    (&[(&[], -1, false)], 0, Ok(Some(&[1]))),
    // x >= y + 1 and y >= x: no lower bound of x alone
    (
        &[(&[1, -1], -1, false), (&[-1, 1], 0, false)],
        4,
        Ok(Some(&[1, 1])),
    ),
    // 3x - 2y >= 1, 3x + y <= 2 and y >= 0, with x >= 1
    (
        &[
            (&[3, -2], -1, false),
            (&[-3, -1], 2, false),
            (&[0, 1], 0, false),
            (&[1, 0], -1, false),
        ],
        9,
        Ok(Some(&[0, 1, 1, 3])),
    ),
    // the tighter of x >= 0 and x >= 1 stays
    (
        &[(&[1], 0, false), (&[1], -1, false), (&[-1], 0, false)],
        2,
        Ok(Some(&[0, 1, 1])),
    ),
    // (2^56 - 1) x >= 1 and x <= 0
    (
        &[(&[MOST], -1, false), (&[-1], 0, false)],
        4,
        Ok(Some(&[1, MOST as i128])),
    ),
    // the sum of (2^56 - 1) x + y >= 0 and y <= 5 - (2^56 - 2) x, so often that x vanishes
    (
        &[(&[MOST, 1], 0, false), (&[1 - MOST, -1], 5, false)],
        4,
        Err(Limit::WideRow),
    ),
    // three lower and three upper bounds of x make nine rows of y and z
    (
        &[
            (&[1, 1, 2], 0, false),
            (&[1, 2, 5], 0, false),
            (&[1, 3, 11], 0, false),
            (&[-1, 7, 1], 0, false),
            (&[-1, 17, 3], 0, false),
            (&[-1, 40, 7], 0, false),
        ],
        8,
        Err(Limit::ManyRows),
    ),
];

fn rows_of(alloc: Global, given: &[Entries]) -> Result<Vec<Row>, AllocError> {
    let mut made = Vec::new(alloc);
    for (coefs, constant, equality) in given {
        made.push(Row::new(alloc, coefs, *constant, *equality)?)?;
    }
    Ok(made)
}

fn is_wanted(answer: &Result<Answer, Limit>, want: &Want) -> bool {
    match (answer, want) {
        (Ok(Answer::Refuted(found)), Ok(Some(multipliers))) => found.as_slice() == *multipliers,
        (Ok(Answer::NotRefutable), Ok(None)) => true,
        (Err(found), Err(limit)) => *found == *limit,
        _ => false,
    }
}

/// What `decide` answers, where it may be asked.
fn answer(rt: &impl Abort, alloc: Global, rows: &[Row], cap: u32) -> Result<Answer, Limit> {
    assert!(rt; have_one_length(rows) && are_fitting_rows(rows));
    decide(alloc, rows, cap)
}

#[test]
fn rows_are_decided(rt: HostRuntime) -> Result<(), Fail> {
    let alloc = rt.alloc();
    for (given, cap, want) in SYSTEMS {
        let made = rows_of(alloc, given)?;
        let got = answer(&rt, alloc, made.as_slice(), cap);
        assert!(rt;
            is_wanted(&got, &want),
            "{made:?} with a cap of {cap}: {got:?}"
        );
    }
    Ok(())
}

/// The row x >= 0 again and again, of which one stays.
#[test]
fn at_most_4096_rows_are_given(rt: HostRuntime) -> Result<(), Fail> {
    let alloc = rt.alloc();
    let mut rows = Vec::with_capacity(alloc, 4097)?;
    for _ in 0..4096 {
        rows.push(Row::new(alloc, &[1], 0, false)?)?;
    }
    let most = answer(&rt, alloc, rows.as_slice(), 1);
    assert!(rt; is_wanted(&most, &Ok(None)));
    rows.push(Row::new(alloc, &[1], 0, false)?)?;
    let more = answer(&rt, alloc, rows.as_slice(), 5000);
    assert!(rt; is_wanted(&more, &Err(Limit::ManyRows)));
    Ok(())
}
