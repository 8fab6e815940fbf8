//! Moves of pairs of runs of random texts, from node to node along an alignment: of the clauses
//! from a node exactly one holds at the values there, and it leads where both runs move.
ghost use Rattle.std.specs.Prelude.{◌≡◌, ◌<◌};

use super::products::made;
use super::random::text_from;
use super::sampled::subject;
use super::steps::gives;
use alignment::Alignment;
use c_ast::{Pair, Place, Subject, Trace};
use horn_clauses::{Clause, Node};
use std::alloc::{AllocError, Global};
use std::test::Fail;
use trace_pair::{PairRefused, pair};

/// The letters are those of the random texts.
const SEEDS: [&str; 4] = [
    "int f(int a,int b){int s=0; int i=0; while(__mark(7) & (i<N)){i++; L} L return s;}",
    "int f(int a,int b){int s=a; int i=N; \
    do {i--; L if(C) break;} while(__mark(7) & (i>0)); L return s;}",
    "int f(int a,int b){int s=0; int i=b; \
    for(; __mark(5) & (i<7); i+=2) L while(__mark(7) & (s<N)) s+=2; return s+i;}",
    "int f(int a,int b){int s=b; \
    for(int i=0; __mark(7) & (i<N); i++){for(int j=i; __mark(9) & (j<2); j++) L} return s;}",
];

/// How many places of each run are behind: at the entry there is none.
#[derive(Clone, Copy)]
struct Position {
    first: usize,
    second: usize,
}

/// The place that the run meets next, and the values there.
fn place_at(trace: &Trace, behind: usize) -> Place {
    match behind.checked_sub(1) {
        None => Place::Entry,
        Some(passed) => match trace.events.as_slice().get(passed) {
            Some(event) => Place::Mark(event.mark),
            None => Place::Exit,
        },
    }
}

fn push_values(
    out: &mut Vec<i128>,
    inputs: &[i128],
    trace: &Trace,
    behind: usize,
) -> Result<(), AllocError> {
    match behind.checked_sub(1) {
        None => out.extend_from_slice(inputs),
        Some(passed) => match trace.events.as_slice().get(passed) {
            Some(event) => out.extend_from_slice(event.values.as_slice()),
            None => Ok(out.push(trace.result)?),
        },
    }
}

fn node_at(pair: &Pair, at: Position) -> Node {
    Node(
        place_at(&pair.first, at.first),
        place_at(&pair.second, at.second),
    )
}

/// Side A's values, then side B's.
fn values_at(alloc: Global, pair: &Pair, at: Position) -> Result<Vec<i128>, AllocError> {
    let mut values = Vec::new(alloc);
    let inputs = pair.input.as_slice();
    push_values(&mut values, inputs, &pair.first, at.first)?;
    push_values(&mut values, inputs, &pair.second, at.second)?;
    Ok(values)
}

/// Where the run is when it has taken so many segments, or is at its exit, or has left a mark for
/// another place.
fn moved(trace: &Trace, behind: usize, count: u32) -> usize {
    let mut at = behind;
    for _ in 0..count {
        let from = place_at(trace, at);
        if from == Place::Exit {
            return at;
        }
        at = at.saturating_add(1);
        if from != Place::Entry && place_at(trace, at) != from {
            return at;
        }
    }
    at
}

/// How many segments both runs take from a node; `None` at the exits.
fn counts_at(alignment: Alignment, node: Node) -> Option<(u32, u32)> {
    match node {
        Node(Place::Exit, Place::Exit) => None,
        Node(Place::Entry, Place::Entry) => Some(alignment.moves(Place::Entry, Place::Entry)),
        Node(Place::Entry, _) | Node(_, Place::Entry) => None,
        Node(first, second) => Some(alignment.moves(first, second)),
    }
}

fn next_position(alignment: Alignment, pair: &Pair, at: Position) -> Option<Position> {
    let (first, second) = counts_at(alignment, node_at(pair, at))?;
    Some(Position {
        first: moved(&pair.first, at.first, first),
        second: moved(&pair.second, at.second, second),
    })
}

/// Both runs move from a node, with these values there, to the next one, with these.
#[derive(Drop)]
struct Move {
    from: Node,
    values: Vec<i128>,
    to: Node,
    after: Vec<i128>,
}

fn move_between(
    alloc: Global,
    pair: &Pair,
    from: Position,
    to: Position,
) -> Result<Move, AllocError> {
    let values = values_at(alloc, pair, from)?;
    let after = values_at(alloc, pair, to)?;
    Ok(Move {
        from: node_at(pair, from),
        values,
        to: node_at(pair, to),
        after,
    })
}

/// Whether the clause, where it holds, leads where the runs move; `None` where it does not hold.
fn leads(alloc: Global, clause: &Clause, step: &Move) -> Result<Option<bool>, AllocError> {
    if !clause.from.same(&step.from) {
        return Ok(None);
    }
    let (rows, forms) = (clause.rows.as_slice(), clause.after.as_slice());
    let given = gives(
        alloc,
        rows,
        forms,
        step.values.as_slice(),
        step.after.as_slice(),
    )?;
    Ok(given.map(|same| same && clause.to.same(&step.to)))
}

/// Whether exactly one of the clauses holds, and leads where the runs move.
fn one_leads(alloc: Global, clauses: &[Clause], step: &Move) -> Result<bool, AllocError> {
    let mut holding = 0_u32;
    for clause in clauses {
        match leads(alloc, clause, step)? {
            None => {}
            Some(false) => return Ok(false),
            Some(true) => holding = holding.saturating_add(1),
        }
    }
    Ok(holding == 1)
}

/// How many moves were looked at, and how many pairs of texts have no product.
#[derive(Clone, Copy)]
struct Tally {
    moves: u32,
    limits: u32,
}

/// Whether each move of the pair's runs is led, from the entries to the exits. Each run passes at
/// most 64 marks.
fn pair_is_led(
    alloc: Global,
    clauses: &[Clause],
    alignment: Alignment,
    pair: &Pair,
    tally: &mut Tally,
) -> Result<bool, AllocError> {
    let mut at = Position {
        first: 0,
        second: 0,
    };
    for _ in 0..140 {
        let Some(next) = next_position(alignment, pair, at) else {
            return Ok(node_at(pair, at).same(&Node(Place::Exit, Place::Exit)));
        };
        let step = move_between(alloc, pair, at, next)?;
        if !one_leads(alloc, clauses, &step)? {
            return Ok(false);
        }
        tally.moves = tally.moves.saturating_add(1);
        at = next;
    }
    Ok(false)
}

/// The samples whose runs are followed: some of the small inputs, and some of those at random.
const SAMPLES: [u32; 6] = [0, 7, 18, 25, 40, 77];

fn sample_is_led(
    alloc: Global,
    clauses: &[Clause],
    alignment: Alignment,
    subject: &Subject,
    index: u32,
    tally: &mut Tally,
) -> Result<bool, AllocError>
    requires { index < subject.now.settings.samples }
{
    match pair(alloc, subject, index) {
        Ok(pair) => pair_is_led(alloc, clauses, alignment, &pair, tally),
        Err(PairRefused::Skipped(_)) => Ok(true),
        Err(PairRefused::Memory) => Err(AllocError),
    }
}

fn samples_are_led(
    alloc: Global,
    clauses: &[Clause],
    alignment: Alignment,
    subject: &Subject,
    tally: &mut Tally,
) -> Result<bool, AllocError>
    requires { subject.now.settings.samples ≡ 100 }
{
    for index in SAMPLES.as_slice() {
        if *index < 100 && !sample_is_led(alloc, clauses, alignment, subject, *index, tally)? {
            return Ok(false);
        }
    }
    Ok(true)
}

/// Whether the moves of both texts' runs are led under the alignment.
fn texts_are_led(
    alloc: Global,
    first: &str,
    second: &str,
    alignment: Alignment,
    tally: &mut Tally,
) -> Result<bool, Fail> {
    match made(alloc, first, second, "", alignment)? {
        Ok(product) => {
            let subject = subject(alloc, first, second)?;
            let clauses = product.clauses.as_slice();
            Ok(samples_are_led(alloc, clauses, alignment, &subject, tally)?)
        }
        Err(_) => {
            tally.limits = tally.limits.saturating_add(1);
            Ok(true)
        }
    }
}

fn numbered(alloc: Global, number: u32) -> Result<String, AllocError> {
    let seed = SEEDS[number as usize % SEEDS.len()];
    text_from(alloc, seed, 2, u64::from(number))
}

/// Whether the moves of nine pairs of texts are led under the alignment. Half of the pairs have one
/// seed.
fn alignment_is_led(alloc: Global, alignment: Alignment, tally: &mut Tally) -> Result<bool, Fail> {
    for k in 0..9_u32 {
        let number = alignment.number() * 9 + k;
        let first = numbered(alloc, number)?;
        let second = numbered(alloc, 1_000 + 3 * number)?;
        if !texts_are_led(alloc, first.as_str(), second.as_str(), alignment, tally)? {
            return Ok(false);
        }
    }
    Ok(true)
}

#[test]
fn one_clause_leads_where_both_runs_move(rt: HostRuntime) -> Result<(), Fail> {
    let mut tally = Tally {
        moves: 0,
        limits: 0,
    };
    for alignment in Alignment::named() {
        assert!(rt;
            alignment_is_led(rt.alloc(), alignment, &mut tally)?,
            "{}",
            alignment.number()
        );
    }
    let Tally { moves, limits } = tally;
    assert!(rt; moves >= 5_000 && limits <= 10, "{moves} {limits}");
    Ok(())
}
