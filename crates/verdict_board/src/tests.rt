//! Passes that draw, one after another and in threads of their own.
ghost use Rattle.std.specs.Prelude.{◌≡◌, ℕ, ◌+◌, ◌<◌, ◌≤◌, IfOk};
ghost use Rattle.std.specs.Thread.{IsSync};
ghost use Rattle.verdict_board.specs.Passes.{IsOf, IsBelow, view_of, samples_of};

use crate::{Board, Pass, drawn_by_two};
use std::alloc::{AllocError, Global};
use std::test::Fail;
use std::thread::{Threads, join};

#[test]
fn two_passes_draw_each_number_once(rt: HostRuntime) -> Result<(), Fail> {
    let (board, mut first) = Board::new(rt.alloc(), 9, 4, 1)?;
    let mut second = board.split(&mut first)?;
    assert!(rt; !board.look(&mut first) && !board.look(&mut second));
    let zero = board.draw_sample(&mut first);
    let one = board.draw_sample(&mut second);
    assert!(rt; zero == 0 && one == 1);
    assert!(rt; !board.look(&mut second));
    assert!(rt; board.draw_alignment(&mut second) == 0);
    assert!(rt; board.raise(&mut first) && !board.raise(&mut second));
    assert!(rt; board.look(&mut first) && board.look(&mut second));
    board.join(&mut first, second);
    let _pass = drawn_by_two(rt.alloc())?;
    Ok(())
}

/// How many samples there are for the threads.
const SAMPLES: u32 = 500;

/// A pass, and the numbers that it drew, in a list of its own.
#[derive(Drop)]
struct Drawn {
    pass: Pass,
    numbers: Vec<u64>,
}

/// Draws until the numbers are past the samples or the stop is raised, and raises it at the number
/// `last`.
fn draws(alloc: Global, board: &Board, mut pass: Pass, last: u64) -> Result<Drawn, AllocError>
    requires of_board { IsOf board.now pass }
    requires samples { (samples_of pass).limit ≡ SAMPLES }
    requires below { IsBelow (samples_of pass) }
    ensures { IfOk result (λ d. IsOf board.now d.pass) }
{
    let mut numbers = Vec::new(alloc);
    for _turn in 0..SAMPLES + 1 {
        if board.look(&mut pass) {
            break;
        }
        let number = board.draw_sample(&mut pass);
        numbers.push(number)?;
        if number == last {
            let _first = board.raise(&mut pass);
        }
        if number >= SAMPLES as u64 {
            break;
        }
    }
    Ok(Drawn { pass, numbers })
}

/// Draws with as many passes more, each in a thread of its own, and joins them.
#[cycle(threads)]
fn drawn_by_many<R: Threads + Sync>(
    rt: &R,
    alloc: Global,
    board: &Board,
    mut first: Pass,
    more: u32,
    last: u64,
) -> Result<Drawn, AllocError>
    requires of_board { IsOf board.now first }
    requires samples { (samples_of first).limit ≡ SAMPLES }
    requires below { IsBelow (samples_of first) }
    requires splits { more ≤ (view_of first).splits }
    ensures { IfOk result (λ d. IsOf board.now d.pass) }
{
    if more == 0 {
        return draws(alloc, board, first, last);
    }
    let second = board.split(&mut first)?;
    let (one, others) = join(
        rt,
        || -> Result<Drawn, AllocError>
            requires { IsOf board.now second
                × ((samples_of second).limit ≡ SAMPLES) × IsBelow (samples_of second) }
            ensures { IfOk result (λ d. IsOf board.entry.now d.pass) }
        { draws(alloc, board, second, last) },
        || -> Result<Drawn, AllocError>
            requires { IsSync R.row × IsOf board.now first
                × ((samples_of first).limit ≡ SAMPLES) × IsBelow (samples_of first)
                × (0 < more) × (more ≤ (view_of first).splits + 1) }
            ensures { IfOk result (λ d. IsOf board.entry.now d.pass) }
        { drawn_by_many(rt, alloc, board, first, more - 1, last) },
    );
    let one = one?;
    let mut all = others?;
    let Drawn { pass, mut numbers } = one;
    all.numbers.append(&mut numbers)?;
    board.join(&mut all.pass, pass);
    Ok(all)
}

/// The numbers from 0 on, and no other.
fn are_from_0(numbers: &mut Vec<u64>) -> bool {
    numbers.sort_unstable();
    numbers.iter().enumerate().all(|(i, n)| *n == i as u64)
}

/// The number of threads, and the number at which one raises the stop.
const ROWS: &[(u32, u64)] = &[(2, 1000), (64, 1000), (2, 50), (64, 50)];

#[test]
fn threads_draw_each_number_once(rt: HostRuntime) -> Result<(), Fail> {
    for (threads, last) in ROWS {
        let (board, first) = Board::new(rt.alloc(), SAMPLES, 0, 63)?;
        let mut all = drawn_by_many(&rt, rt.alloc(), &board, first, threads - 1, *last)?;
        let wanted = if *last < SAMPLES as u64 {
            *last + 1
        } else {
            SAMPLES as u64 + *threads as u64
        };
        let count = all.numbers.len() as u64;
        assert!(rt; are_from_0(&mut all.numbers), "{threads} {last}");
        assert!(rt;
            wanted <= count && count <= wanted + *threads as u64,
            "{threads} {last} {count}"
        );
        assert_eq!(rt; board.look(&mut all.pass), *last < SAMPLES as u64);
    }
    Ok(())
}
