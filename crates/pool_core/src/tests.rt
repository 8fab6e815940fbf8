//! Pools about small functions: what each call answers, refusal by refusal.
ghost use Rattle.std.specs.Prelude.{◌≡◌, ◌<◌, IfOk};
ghost use Rattle.c_ast.specs.View.{expression_of};
ghost use Rattle.c_ast.specs.Step.{first_variables};
ghost use Rattle.c_ast.specs.Tree.{Bin};
ghost use Rattle.c_ast.specs.Formed.{IsOver};
ghost use Rattle.alignment.specs.Number.{IsAlignment};
ghost use Rattle.relation.specs.Coupled.{HasSmallAtoms, HasLimit};

mod random;

use crate::{Item, Missing, Pool, PoolRefused, Snapshot, Verdict, Why};
use alignment::Alignment;
use c_ast::{BinOp, Expr, Func, Name, Place, Settings, Stmt, Subject, Var};
use horn_clauses::{Atom, Family, Node, Proofs, Rel};
use path_product::ProductLimit;
use relation::{Coupled, NotCoupled, has_small_atoms};
use sqlite_items::{Boxed, Items};
use std::alloc::{AllocError, Global};
use std::test::Fail;
use trace_pair::{PairRefused, pair};

// ---- subjects

/// What a function of the parameter `a` returns.
#[derive(Clone, Copy)]
enum Body {
    /// a + a
    Doubled,
    /// 2 * a
    Twice,
    /// a + 1
    Above,
    /// a - 1
    Below,
    /// a * a, of which no product is linear
    Squared,
}

use Body::{Above, Below, Doubled, Squared, Twice};

/// The bodies of A and B, the number of samples, and whether the input 0 is kept out.
type Functions = (Body, Body, u32, bool);

/// The expression of two operands.
fn joined(alloc: Global, op: BinOp, left: Expr, right: Expr) -> Result<Expr, AllocError>
    requires { IsOver (first_variables 1) (Bin op (expression_of left) (expression_of right)) }
    ensures { IfOk result (λ made. IsOver (first_variables 1) (expression_of made)) }
{
    Ok(Expr::Bin(op, Boxed::new(alloc, left)?, Boxed::new(alloc, right)?))
}

/// The value that the body returns.
fn value_of(alloc: Global, body: Body) -> Result<Expr, AllocError>
    ensures { IfOk result (λ made. IsOver (first_variables 1) (expression_of made)) }
{
    match body {
        Doubled => joined(alloc, BinOp::Add, Expr::Var(0), Expr::Var(0)),
        Twice => joined(alloc, BinOp::Mul, Expr::Num(2), Expr::Var(0)),
        Above => joined(alloc, BinOp::Add, Expr::Var(0), Expr::Num(1)),
        Below => joined(alloc, BinOp::Sub, Expr::Var(0), Expr::Num(1)),
        Squared => joined(alloc, BinOp::Mul, Expr::Var(0), Expr::Var(0)),
    }
}

/// `int f(int a) { return value; }`
fn returning(alloc: Global, value: Expr) -> Result<Func, AllocError>
    requires { IsOver (first_variables 1) (expression_of value) }
    ensures { IfOk result (λ func. func.params ≡ 1) }
{
    let mut vars = Vec::new(alloc);
    vars.push(Var {
        name: Name::new(String::from_str(alloc, "a")?),
        line: 1,
    })?;
    let mut body = Vec::new(alloc);
    body.push(Stmt::Return(value))?;
    let name = Name::new(String::from_str(alloc, "f")?);
    Ok(Func::new(name, 1, vars, body))
}

fn func_of(alloc: Global, body: Body) -> Result<Func, AllocError>
    ensures { IfOk result (λ func. func.params ≡ 1) }
{
    let value = value_of(alloc, body)?;
    returning(alloc, value)
}

/// `a`, or 1.
fn condition(keeps_out: bool) -> Expr
    ensures { IsOver (first_variables 1) (expression_of result) }
{
    if keeps_out {
        Expr::Var(0)
    } else {
        Expr::Num(1)
    }
}

fn subject_of(alloc: Global, functions: Functions) -> Result<Subject, AllocError> {
    let (first, second, samples, keeps_out) = functions;
    let Some(settings) = Settings::new(samples, 64, 400, 42) else {
        return Err(AllocError);
    };
    let first = func_of(alloc, first)?;
    let second = func_of(alloc, second)?;
    match Subject::with_condition(first, second, settings, condition(keeps_out)) {
        Ok(subject) => Ok(subject),
        Err(_) => Err(AllocError),
    }
}

// ---- what calls are given

/// The alignment at this place among the twelve.
fn alignment_at(at: usize) -> Alignment
    ensures { IsAlignment result }
{
    let alignment = Alignment::named()[at % 12];
    // What holds of each alignment.
    let _ = alignment.counts();
    alignment
}

/// At the node both values are equal; it is said so many times.
fn equal_at(alloc: Global, node: Node, times: u32) -> Result<(Node, Items<Atom>), AllocError> {
    let mut atoms = Items::new(alloc);
    for _ in 0..times {
        let coefs = Items::from_slice(alloc, &[1, -1])?;
        atoms.push(Atom::Linear {
            coefs,
            constant: 0,
            rel: Rel::Eq,
        })?;
    }
    Ok((node, atoms))
}

/// Parameters are equal, and so are results, which is said so many times.
fn equal(alloc: Global, times: u32) -> Result<Family, AllocError> {
    let mut nodes = Items::new(alloc);
    nodes.push(equal_at(alloc, Node(Place::Entry, Place::Entry), 1)?)?;
    nodes.push(equal_at(alloc, Node(Place::Exit, Place::Exit), times)?)?;
    Ok(Family { nodes })
}

/// Multipliers that prove it of a + a and of 2 * a.
fn multipliers(alloc: Global, times: u32) -> Result<Proofs, AllocError> {
    let mut lists = Items::new(alloc);
    for _ in 0..times {
        lists.push(Items::from_slice(alloc, &[2, 1])?)?;
        lists.push(Items::from_slice(alloc, &[-2, 1])?)?;
    }
    Ok(Proofs { lists })
}

/// The family where its atoms are small.
fn small(family: Family) -> Result<Family, AllocError>
    ensures { IfOk result (λ made. HasSmallAtoms made) }
{
    if !has_small_atoms(&family) {
        return Err(AllocError);
    }
    Ok(family)
}

fn coupled(
    alloc: Global,
    subject: &Subject,
    alignment: Alignment,
    times: u32,
) -> Result<Coupled, AllocError> {
    let proofs = multipliers(alloc, times)?;
    let family = small(equal(alloc, times)?)?;
    match Coupled::new(alloc, subject, alignment, family, proofs) {
        Ok(coupled) => Ok(coupled),
        Err(_) => Err(AllocError),
    }
}

/// The limit that the product meets.
fn limit_of(
    alloc: Global,
    subject: &Subject,
    alignment: Alignment,
) -> Result<ProductLimit, AllocError>
    ensures { IfOk result (HasLimit subject.now alignment) }
{
    let nodes = Items::new(alloc);
    let lists = Items::new(alloc);
    match Coupled::new(
        alloc,
        subject,
        alignment,
        Family { nodes },
        Proofs { lists },
    ) {
        Err(NotCoupled::Limit(limit)) => Ok(limit),
        _ => Err(AllocError),
    }
}

// ---- calls

/// A call of a pool, beside which there is another. An alignment stands by its place among the
/// twelve.
#[derive(Clone, Copy)]
enum Call {
    /// The worker adds what is said of the sample with this index: `append`, or `skip`.
    Tell(u32, u32),
    /// The same of the other subject.
    TellOther(u32, u32),
    /// The same of the other subject to the other pool.
    TellBeside(u32, u32),
    /// The worker adds the candidates of all pairs under the alignment.
    Mine(u32, usize),
    /// It adds those of all pairs of the other pool.
    MineBeside(u32, usize),
    /// Before it does, it adds what is said of the sample with this index.
    MineLate(u32, usize, u32),
    /// The worker adds that the alignment's product meets a limit, on all pairs.
    Try(u32, usize),
    /// The same on all pairs of the other pool.
    TryBeside(u32, usize),
    /// On this input of the sample with this index A and B return these.
    Differ(u32, i128, i128, i128),
    /// The equality of parameters and of results, so many times, couples the functions under the
    /// alignment, as is drawn from pairs with these indexes.
    Couple(usize, u32, &'static [u32]),
    /// The same of the other subject.
    CoupleOther(usize, u32, &'static [u32]),
    /// The verdict is asked for.
    Conclude,
}

use Call::{
    Conclude, Couple, CoupleOther, Differ, Mine, MineBeside, MineLate, Tell, TellBeside, TellOther,
    Try, TryBeside,
};

/// A verdict.
#[derive(Clone, Copy, PartialEq, Eq)]
enum Kind {
    /// The alignment's number, and how many pairs there are.
    Equivalent(u32, usize),
    /// The sample's index, its input, and what A and B return.
    Different(u32, i128, i128, i128),
    Unknown,
}

use Kind::{Different, Equivalent, Unknown};

/// What a call answers.
#[derive(Clone, Copy, PartialEq, Eq)]
enum Answer {
    /// Its item stands at this position.
    At(u32),
    Refused(PoolRefused),
    /// The verdict is this one.
    Is(Kind),
    Lacks(Missing),
}

use Answer::{At, Is, Lacks, Refused};
use PoolRefused::{Closed, Double, NoPair, Stale, Stranger, Unmined};

fn tell(
    alloc: Global,
    pool: &mut Pool,
    worker: u32,
    subject: &Subject,
    index: u32,
) -> Result<u32, PoolRefused> {
    if index >= subject.settings().samples() {
        return Err(PoolRefused::Memory);
    }
    match pair(alloc, subject, index) {
        Ok(pair) => pool.append(alloc, worker, subject, index, pair),
        Err(PairRefused::Skipped(skipped)) => pool.skip(worker, subject, index, skipped),
        Err(PairRefused::Memory) => Err(PoolRefused::Memory),
    }
}

fn mine(alloc: Global, pool: &mut Pool, worker: u32, at: usize) -> Result<u32, PoolRefused> {
    let alignment = alignment_at(at);
    let (snapshot, candidates) = pool.candidates(alloc, alignment)?;
    pool.mined(worker, &snapshot, alignment, candidates)
}

fn mine_beside(
    alloc: Global,
    pool: &mut Pool,
    beside: &mut Pool,
    worker: u32,
    at: usize,
) -> Result<u32, PoolRefused> {
    let alignment = alignment_at(at);
    let (snapshot, candidates) = beside.candidates(alloc, alignment)?;
    pool.mined(worker, &snapshot, alignment, candidates)
}

fn mine_late(
    alloc: Global,
    pool: &mut Pool,
    worker: u32,
    subject: &Subject,
    at: usize,
    index: u32,
) -> Result<u32, PoolRefused> {
    let alignment = alignment_at(at);
    let (snapshot, candidates) = pool.candidates(alloc, alignment)?;
    let _ = tell(alloc, pool, worker, subject, index);
    pool.mined(worker, &snapshot, alignment, candidates)
}

fn try_on(
    alloc: Global,
    pool: &mut Pool,
    worker: u32,
    snapshot: &Snapshot,
    alignment: Alignment,
) -> Result<u32, PoolRefused> {
    let limit = limit_of(alloc, snapshot.subject(), alignment)?;
    pool.tried(worker, snapshot, alignment, Why::Product(limit))
}

fn try_all(
    alloc: Global,
    pool: &mut Pool,
    worker: u32,
    alignment: Alignment,
) -> Result<u32, PoolRefused> {
    let snapshot = pool.snapshot(alloc)?;
    try_on(alloc, pool, worker, &snapshot, alignment)
}

fn try_beside(
    alloc: Global,
    pool: &mut Pool,
    beside: &Pool,
    worker: u32,
    alignment: Alignment,
) -> Result<u32, PoolRefused> {
    let snapshot = beside.snapshot(alloc)?;
    try_on(alloc, pool, worker, &snapshot, alignment)
}

fn differ(
    alloc: Global,
    pool: &mut Pool,
    index: u32,
    input: i128,
    first: i128,
    second: i128,
) -> Result<u32, PoolRefused> {
    let input = Items::from_slice(alloc, &[input])?;
    pool.post(
        0,
        Verdict::Different {
            index,
            input,
            first,
            second,
        },
    )
}

fn couple(
    alloc: Global,
    pool: &mut Pool,
    subject: &Subject,
    alignment: Alignment,
    times: u32,
    indexes: &[u32],
) -> Result<u32, PoolRefused> {
    let coupled = coupled(alloc, subject, alignment, times)?;
    let indexes = Items::from_slice(alloc, indexes)?;
    pool.post(0, Verdict::Equivalent { coupled, indexes })
}

/// The first value; 0 where there is none.
fn first_of(values: &[i128]) -> i128 {
    match values.first() {
        Some(value) => *value,
        None => 0,
    }
}

fn kind_of(verdict: &Verdict) -> Kind {
    match verdict {
        Verdict::Equivalent { coupled, indexes } => {
            Equivalent(coupled.alignment().number(), indexes.len())
        }
        Verdict::Different {
            index,
            input,
            first,
            second,
        } => Different(*index, first_of(input.as_slice()), *first, *second),
        Verdict::Unknown { .. } => Unknown,
    }
}

fn conclude(alloc: Global, pool: &Pool) -> Answer {
    match pool.conclude(alloc) {
        Ok(verdict) => Is(kind_of(&verdict)),
        Err(missing) => Lacks(missing),
    }
}

fn placed(answer: Result<u32, PoolRefused>) -> Answer {
    match answer {
        Ok(place) => At(place),
        Err(why) => Refused(why),
    }
}

/// What the call answers.
fn ask(
    alloc: Global,
    pool: &mut Pool,
    beside: &mut Pool,
    subject: &Subject,
    other: &Subject,
    call: Call,
) -> Answer {
    match call {
        Tell(worker, index) => placed(tell(alloc, pool, worker, subject, index)),
        TellOther(worker, index) => placed(tell(alloc, pool, worker, other, index)),
        TellBeside(worker, index) => placed(tell(alloc, beside, worker, other, index)),
        Mine(worker, at) => placed(mine(alloc, pool, worker, at)),
        MineBeside(worker, at) => { placed(mine_beside(alloc, pool, beside, worker, at)) }
        MineLate(worker, at, index) => {
            placed(mine_late(alloc, pool, worker, subject, at, index))
        }
        Try(worker, at) => placed(try_all(alloc, pool, worker, alignment_at(at))),
        TryBeside(worker, at) => placed(try_beside(alloc, pool, beside, worker, alignment_at(at))),
        Differ(index, input, first, second) => {
            placed(differ(alloc, pool, index, input, first, second))
        }
        Couple(at, times, indexes) => {
            placed(couple(alloc, pool, subject, alignment_at(at), times, indexes))
        }
        CoupleOther(at, times, indexes) => {
            placed(couple(alloc, pool, other, alignment_at(at), times, indexes))
        }
        Conclude => conclude(alloc, pool),
    }
}

// ---- histories

/// An item without what was found: who added it, and of what.
#[derive(Clone, Copy, PartialEq, Eq)]
enum Entry {
    /// The worker and the sample's index.
    Pair(u32, u32),
    Skipped(u32, u32),
    /// The worker, the number of pairs, and the alignment's number.
    Mined(u32, u32, u32),
    Tried(u32, u32, u32),
    Posted(u32, Kind),
}

fn entry_of(item: &Item) -> Entry {
    match item {
        Item::Pair { worker, index, .. } => Entry::Pair(*worker, *index),
        Item::Skipped { worker, index, .. } => Entry::Skipped(*worker, *index),
        Item::Mined {
            worker,
            prefix,
            alignment,
            ..
        } => Entry::Mined(*worker, *prefix, alignment.number()),
        Item::Tried {
            worker,
            prefix,
            alignment,
            ..
        } => Entry::Tried(*worker, *prefix, alignment.number()),
        Item::Posted { worker, verdict } => Entry::Posted(*worker, kind_of(verdict)),
    }
}

/// Whether the history has these entries and no other.
fn are_entries(items: &[Item], entries: &[Entry]) -> bool {
    items.len() == entries.len()
        && items
            .iter()
            .zip(entries)
            .all(|(item, entry)| entry_of(item) == *entry)
}

// ---- tables

/// A call, and what it answers.
type Row = (Call, Answer);

/// The number of the first row whose call answers otherwise.
fn first_wrong(
    alloc: Global,
    pool: &mut Pool,
    beside: &mut Pool,
    subject: &Subject,
    other: &Subject,
    rows: &[Row],
) -> Option<usize> {
    for (number, (call, want)) in rows.iter().enumerate() {
        if ask(alloc, pool, beside, subject, other, *call) != *want {
            return Some(number);
        }
    }
    None
}

fn pool_of(alloc: Global, subject: &Subject) -> Result<Pool, AllocError> {
    let subject = subject.copy(alloc)?;
    Pool::new(alloc, subject)
}

fn play_over(
    alloc: Global,
    subject: &Subject,
    other: &Subject,
    rows: &[Row],
) -> Result<Option<usize>, AllocError> {
    let mut beside = pool_of(alloc, other)?;
    let mut pool = pool_of(alloc, subject)?;
    Ok(first_wrong(alloc, &mut pool, &mut beside, subject, other, rows))
}

/// Plays the rows on a new pool about the functions, beside one about the others.
fn play(
    alloc: Global,
    functions: Functions,
    others: Functions,
    rows: &[Row],
) -> Result<Option<usize>, AllocError> {
    let subject = subject_of(alloc, functions)?;
    let other = subject_of(alloc, others)?;
    play_over(alloc, &subject, &other, rows)
}

/// A product that meets a limit, and a difference on the samples 1 and 2; sample 0 is skipped.
const LIMITED: Functions = (Squared, Above, 3, true);

/// Another subject, with a sample more.
const MORE: Functions = (Squared, Above, 4, true);

/// Each refusal of samples, candidates and reasons after those that come before it.
const REFUSALS: &[Row] = &[
    (Conclude, Lacks(Missing::Sample(0))),
    (TellOther(0, 0), Refused(Stranger)),
    (Tell(0, 0), At(0)),
    (Tell(1, 0), Refused(Double(0))),
    (TellOther(1, 0), Refused(Stranger)),
    (Conclude, Lacks(Missing::Sample(1))),
    // no pair
    (Try(0, 0), Refused(Unmined(1))),
    (TryBeside(0, 0), Refused(Stranger)),
    (Mine(0, 0), At(1)),
    (Mine(1, 0), Refused(Double(1))),
    (MineBeside(1, 0), Refused(Stranger)),
    (Try(0, 0), At(2)),
    (Try(1, 0), Refused(Double(2))),
    (TryBeside(1, 0), Refused(Stranger)),
    // a pair, and another of the other pool
    (Tell(1, 2), At(3)),
    (Tell(0, 2), Refused(Double(3))),
    (TellOther(0, 2), Refused(Stranger)),
    (Conclude, Lacks(Missing::Sample(1))),
    (TellBeside(0, 1), At(0)),
    (MineBeside(0, 0), Refused(Stranger)),
    (TryBeside(0, 0), Refused(Stranger)),
    (Mine(0, 0), At(4)),
    (Try(0, 0), At(5)),
    // the worker's own pair is not in its snapshot, whose candidates are there
    (MineLate(1, 0, 1), Refused(Stale(1))),
    (Tell(1, 1), Refused(Double(6))),
    // another pair that differs, and only the first alignment was tried
    (Conclude, Lacks(Missing::Differs(3))),
    (Try(0, 11), Refused(Unmined(12))),
    (Mine(0, 11), At(7)),
    (Try(0, 10), Refused(Unmined(11))),
    (Try(0, 11), At(8)),
    (Try(2, 11), Refused(Double(8))),
    (Conclude, Lacks(Missing::Differs(3))),
    // sample 0 is skipped, and there is no sample 9
    (Differ(0, 0, 0, 1), Refused(NoPair(0))),
    (Differ(9, 1, 1, 2), Refused(NoPair(9))),
    (Differ(1, 2, 1, 2), Refused(NoPair(1))),
    (Differ(1, 1, 0, 2), Refused(NoPair(1))),
    (Differ(1, 1, 1, 3), Refused(NoPair(1))),
    (Differ(1, 1, 1, 1), Refused(NoPair(1))),
    (Differ(2, 2, 4, 3), At(9)),
    // after the verdict
    (Conclude, Is(Different(2, 2, 4, 3))),
    (Tell(0, 1), Refused(Closed)),
    (Tell(0, 0), Refused(Closed)),
    (TellOther(0, 1), Refused(Closed)),
    (TellOther(0, 0), Refused(Closed)),
    (Mine(0, 3), Refused(Closed)),
    (Mine(0, 11), Refused(Closed)),
    (MineBeside(0, 0), Refused(Closed)),
    (Try(0, 3), Refused(Closed)),
    (Try(0, 11), Refused(Closed)),
    (TryBeside(0, 0), Refused(Closed)),
    (Differ(2, 2, 4, 3), Refused(Closed)),
    (Differ(0, 0, 0, 1), Refused(Closed)),
];

/// The other pool is about the same subject.
const SAME_SUBJECT: &[Row] = &[
    (TellOther(0, 1), At(0)),
    (Tell(1, 2), At(1)),
    // the first pair alone
    (TellBeside(0, 1), At(0)),
    (TryBeside(0, 0), Refused(Unmined(1))),
    (MineBeside(1, 0), Refused(Stale(1))),
    (MineBeside(0, 0), At(2)),
    (MineBeside(1, 0), Refused(Stale(1))),
    (MineBeside(0, 0), Refused(Double(2))),
    (TryBeside(0, 0), At(3)),
    (TryBeside(0, 0), Refused(Double(3))),
    // both, and then as many in another order
    (TellBeside(0, 2), At(1)),
    (TryBeside(1, 0), Refused(Unmined(1))),
    (MineBeside(1, 0), At(4)),
    (TryBeside(1, 0), At(5)),
    (Differ(1, 1, 1, 2), At(6)),
    (MineBeside(0, 0), Refused(Closed)),
];

/// The pairs of the other pool are others.
const OTHER_PAIRS: &[Row] = &[
    (TellBeside(0, 2), At(0)),
    // more than there are
    (MineBeside(0, 0), Refused(Stale(1))),
    (TryBeside(0, 0), Refused(Stale(1))),
    (Tell(0, 1), At(0)),
    // as many, of which nothing is there
    (MineBeside(0, 0), Refused(Stale(1))),
    (TryBeside(0, 0), Refused(Stale(1))),
    // of which all is there
    (Mine(0, 0), At(1)),
    (MineBeside(0, 0), Refused(Stale(1))),
    (TryBeside(0, 0), Refused(Stale(1))),
    (Try(0, 0), At(2)),
    (TryBeside(0, 0), Refused(Stale(1))),
    // another order
    (Tell(1, 2), At(3)),
    (TellBeside(1, 1), At(1)),
    (MineBeside(0, 0), Refused(Stale(2))),
    (TryBeside(0, 0), Refused(Stale(2))),
    (Differ(1, 1, 1, 2), At(4)),
    (MineBeside(0, 0), Refused(Closed)),
    (TryBeside(0, 0), Refused(Closed)),
];

/// Verdicts of functions that are coupled, beside others that are coupled, too.
const COUPLINGS: &[Row] = &[
    (CoupleOther(0, 1, &[]), Refused(Stranger)),
    (CoupleOther(0, 1, &[1]), Refused(Stranger)),
    (Couple(0, 1, &[]), Refused(Unmined(1))),
    (Couple(0, 1, &[1]), Refused(Stale(1))),
    (Tell(0, 1), At(0)),
    (Tell(0, 2), At(1)),
    (Couple(0, 1, &[2]), Refused(Stale(1))),
    (Couple(0, 1, &[2, 1]), Refused(Stale(2))),
    (Couple(0, 1, &[1, 2, 0]), Refused(Stale(3))),
    (Couple(0, 1, &[1]), Refused(Unmined(1))),
    (Couple(0, 1, &[1, 2]), Refused(Unmined(1))),
    (Mine(0, 0), At(2)),
    (Couple(0, 1, &[1]), Refused(Unmined(1))),
    (Couple(11, 1, &[1, 2]), Refused(Unmined(12))),
    (CoupleOther(0, 1, &[1, 2]), Refused(Stranger)),
    // no candidates have an atom twice
    (Couple(0, 2, &[1, 2]), Refused(Unmined(1))),
    (CoupleOther(0, 2, &[1, 2]), Refused(Stranger)),
    (Couple(0, 1, &[1, 2]), At(3)),
    (Conclude, Is(Equivalent(1, 2))),
    (Couple(0, 1, &[1, 2]), Refused(Closed)),
    (Couple(0, 2, &[1, 2]), Refused(Closed)),
    (Couple(0, 1, &[2, 1]), Refused(Closed)),
    (CoupleOther(0, 1, &[1, 2]), Refused(Closed)),
    (Differ(1, 1, 2, 2), Refused(Closed)),
];

/// Equal results, and a product that meets a limit under each alignment.
const UNDECIDED: &[Row] = &[
    (Tell(0, 0), At(0)),
    (Tell(0, 1), At(1)),
    (Mine(0, 0), At(2)),
    (Try(0, 0), At(3)),
    (Conclude, Lacks(Missing::Sample(2))),
    (Tell(0, 2), At(4)),
    // the first was tried on fewer pairs
    (Conclude, Lacks(Missing::Alignment(1))),
    (Mine(0, 1), At(5)),
    (Try(0, 1), At(6)),
    (Conclude, Lacks(Missing::Alignment(1))),
    (Mine(0, 0), At(7)),
    (Try(0, 0), At(8)),
    (Conclude, Lacks(Missing::Alignment(3))),
    (Mine(0, 2), At(9)),
    (Try(0, 2), At(10)),
    (Mine(0, 3), At(11)),
    (Try(0, 3), At(12)),
    (Mine(0, 4), At(13)),
    (Try(0, 4), At(14)),
    (Mine(0, 5), At(15)),
    (Try(0, 5), At(16)),
    (Mine(0, 6), At(17)),
    (Try(0, 6), At(18)),
    (Mine(0, 7), At(19)),
    (Try(0, 7), At(20)),
    (Mine(0, 8), At(21)),
    (Try(0, 8), At(22)),
    (Mine(0, 9), At(23)),
    (Try(0, 9), At(24)),
    (Mine(0, 10), At(25)),
    (Try(0, 10), At(26)),
    (Mine(0, 11), At(27)),
    (Conclude, Lacks(Missing::Alignment(12))),
    (Try(0, 11), At(28)),
    (Conclude, Is(Unknown)),
];

#[test]
fn calls_are_refused_in_order(rt: HostRuntime) -> Result<(), Fail> {
    let alloc = rt.alloc();
    assert_eq!(rt; play(alloc, LIMITED, MORE, REFUSALS)?, None);
    assert_eq!(rt; play(alloc, LIMITED, LIMITED, SAME_SUBJECT)?, None);
    assert_eq!(rt; play(alloc, LIMITED, LIMITED, OTHER_PAIRS)?, None);
    let (twice, doubled) = ((Doubled, Twice, 3, false), (Doubled, Doubled, 3, false));
    assert_eq!(rt; play(alloc, twice, doubled, COUPLINGS)?, None);
    let squared = (Squared, Squared, 3, true);
    assert_eq!(rt; play(alloc, squared, squared, UNDECIDED)?, None);
    Ok(())
}

// ---- whole histories

/// Whether the calls answer so, and the history is then this one.
fn leaves(
    alloc: Global,
    pool: &mut Pool,
    beside: &mut Pool,
    subject: &Subject,
    rows: &[Row],
    entries: &[Entry],
) -> bool {
    let wrong = first_wrong(alloc, pool, beside, subject, subject, rows);
    wrong.is_none() && are_entries(pool.history(), entries)
}

fn has_history_over(
    alloc: Global,
    subject: &Subject,
    rows: &[Row],
    entries: &[Entry],
) -> Result<bool, AllocError> {
    let mut beside = pool_of(alloc, subject)?;
    let mut pool = pool_of(alloc, subject)?;
    Ok(leaves(alloc, &mut pool, &mut beside, subject, rows, entries))
}

/// Whether the calls on a new pool about the functions leave this history.
fn has_history(
    alloc: Global,
    functions: Functions,
    rows: &[Row],
    entries: &[Entry],
) -> Result<bool, AllocError> {
    let subject = subject_of(alloc, functions)?;
    has_history_over(alloc, &subject, rows, entries)
}

const DIFFERENCE: &[Row] = &[
    (Tell(0, 0), At(0)),
    (Differ(0, 0, 1, -1), At(1)),
    (Conclude, Is(Different(0, 0, 1, -1))),
];

const EQUIVALENCE: &[Row] = &[
    (Tell(0, 0), At(0)),
    (Mine(0, 0), At(1)),
    (Couple(0, 1, &[0]), At(2)),
    (Conclude, Is(Equivalent(1, 1))),
];

#[test]
fn histories_end_with_their_verdict(rt: HostRuntime) -> Result<(), Fail> {
    let alloc = rt.alloc();
    let apart = [Entry::Pair(0, 0), Entry::Posted(0, Different(0, 0, 1, -1))];
    assert!(rt; has_history(alloc, (Above, Below, 100, false), DIFFERENCE, &apart)?);
    let alike = [
        Entry::Pair(0, 0),
        Entry::Mined(0, 1, 1),
        Entry::Posted(0, Equivalent(1, 1)),
    ];
    assert!(rt; has_history(alloc, (Doubled, Twice, 1, false), EQUIVALENCE, &alike)?);
    Ok(())
}
