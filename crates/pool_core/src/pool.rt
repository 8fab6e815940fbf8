//! The pool: each call adds one item, or is refused and changes nothing.
ghost use Rattle.std.specs.Prelude.{◌≡◌, ◌==◌, List, position, ◌↔◌, ◌<◌, ◌≤◌, ◌≢◌, ◌∷◌, [], ℤ, length, take, drop, map, IsTrue, IfOk, OnOk, OnErr};
ghost use Rattle.std.specs.List.{list_any};
ghost use Rattle.std.specs.Option.{option_copied};
ghost use Rattle.horn_clauses.specs.Family.{atoms_at};
ghost use Rattle.houdini.specs.Within.{IsSublist, candidates_or_false};
ghost use Rattle.miners.specs.Candidates.{AreMinedFrom};
ghost use Rattle.pool_core.specs.declared.item.Item.TheVariants as item;
ghost use Rattle.pool_core.specs.declared.verdict.Verdict.TheVariants.{Equivalent, Different};
ghost use Rattle.pool_core.specs.Candidates.{IsDrawnFrom};
ghost use Rattle.pool_core.specs.History.{pairs_of, indexes_of, verdict_of, has_index, has_mined, has_tried, has_later_pair, IsOpen, HasPair, MayFollow, IsLegal};
ghost use Rattle.pool_core.specs.Plays.{State, with_item, snapshot_of, IsSnapshot, HasFirstPairs, IsDrawnFromMined, MayCall, Plays, AnswersConclusion};
ghost use Rattle.pool_core.specs.Plays.{Append, Skip, Mine, Try, Post};
ghost use Rattle.pool_core.specs.Beside.{added_of, IsPairOf, HasDrawn};

use crate::conclude::conclude;
use crate::lives::Lives;
use crate::log::Log;
use crate::pages::{Added, Pages};
use crate::{Item, Missing, PoolRefused, SharedPair, Snapshot, Verdict, Why};
use alignment::Alignment;
use c_ast::{Pair, Subject};
use horn_clauses::{Atom, Family, Node};
use miners::Candidates;
use relation::Coupled;
use sqlite_items::Items;
use std::alloc::{AllocError, Global};
use std::marker::Model;
use trace_pair::Skipped;

/// What workers found about a subject. Contracts see the subject and the history, which is legal.
#[derive(Debug, Drop)]
pub struct Pool {
    subject: Subject,
    log: Log,
    /// The pairs of the history.
    pairs: Pages,
    /// The candidates of each alignment, of the first pairs.
    lives: Lives,
}

impl Model for Pool {
    ghost use Rattle.std.specs.Coded.{codes};
    ghost use Rattle.c_ast.specs.contracts.stmt.Stmt as stmts;
    ghost use Rattle.c_ast.specs.contracts.expr.Expr as exprs;
    ghost use Rattle.pool_core.specs.Plays.{State};
    ghost use Rattle.pool_core.specs.Beside.{IsKept};

    ghost Value = { State };

    ghost coded = { Prim.hlevel (codes, stmts.the_row.coded, exprs.the_row.coded) };

    ghost view = { λ p. record { subject = p.subject; items = p.log.items } };

    ghost invariant = { λ p. IsKept p.subject p.log p.pairs p.lives.fronts.items };
}

// ---- what is compared

/// Whether the first pairs have these indexes.
fn begin_with(pairs: &Pages, indexes: &[u32]) -> bool
    ensures { IsTrue result ↔ (indexes.now
        ≡ take (length indexes.now) (map (λ added. added.index) pairs.now)) }
{
    if indexes.len() > pairs.len() {
        return false;
    }
    for (k, index) in indexes.iter().enumerate() {
        if pairs.get(k).index != *index {
            return false;
        }
    }
    true
}

/// Whether the worker added one of the pairs behind the first so many.
fn has_later_pair(pairs: &Pages, worker: u32, count: usize) -> bool
    ensures { result ≡ list_any (λ other. other == worker)
        (drop count (map (λ added. added.worker) pairs.now)) }
{
    for k in count..pairs.len() {
        if pairs.get(k).worker == worker {
            return true;
        }
    }
    false
}

/// How many of the atoms are found when the first so many were, and this one comes next.
fn found_with(atoms: &[Atom], count: usize, next: &Atom) -> usize
    requires { count ≤ length atoms.now }
    ensures within { result ≤ length atoms.now }
    ensures step { (others : List Atom) → IsSublist (drop count atoms.now) (next.now ∷ others)
        ↔ IsSublist (drop result atoms.now) others }
{
    if count == atoms.len() {
        return count;
    }
    let wanted = &atoms[count];
    if wanted.same(next) {
        return count + 1;
    }
    count
}

/// Whether the atoms are some of those that are given, in their order.
fn is_sublist(atoms: &[Atom], given: &[Atom]) -> bool
    ensures { IsTrue result ↔ IsSublist atoms.now given.now }
{
    let mut count = 0;
    for next in given {
        count = found_with(atoms, count, next);
    }
    count == atoms.len()
}

/// Whether the atoms are some of the candidates at the node, in their order.
fn are_drawn_at(candidates: &Candidates, node: &Node, atoms: &[Atom]) -> bool
    ensures { IsTrue result
        ↔ IsSublist atoms.now (candidates_or_false (atoms_at candidates.now node.now)) }
{
    match candidates.at(node) {
        Some(given) => is_sublist(atoms, given),
        None => is_sublist(atoms, &[Atom::False]),
    }
}

/// Whether the family is drawn from the candidates.
fn is_drawn_from(candidates: &Candidates, family: &Family) -> bool
    ensures { IsTrue result ↔ IsDrawnFrom (atoms_at candidates.now) family.now }
{
    for entry in family.nodes.as_slice() {
        if !are_drawn_at(candidates, &entry.0, entry.1.as_slice()) {
            return false;
        }
    }
    true
}

/// The item's verdict, where it is one.
fn verdict_in(item: &Item) -> Option<&Verdict>
    ensures { option_copied result ≡ verdict_of (item.now ∷ []) }
{
    match item {
        Item::Posted { verdict, .. } => Some(verdict),
        _ => None,
    }
}

fn same_values(first: &[i128], second: &[i128]) -> bool
    ensures { IsTrue result ↔ (first.now ≡ second.now) }
{
    first == second
}

/// Whether the pair has this input and these results.
fn is_pair_of(pair: &Pair, input: &[i128], first: &i128, second: &i128) -> bool
    ensures { IsTrue result ↔ ((pair.now.input ≡ input.now)
        × (pair.now.first.result ≡ first.now) × (pair.now.second.result ≡ second.now)) }
{
    same_values(pair.input.as_slice(), input)
        && pair.first.result == *first
        && pair.second.result == *second
}

/// Whether the item is a pair with this input and these results.
fn is_such_pair(item: &Item, input: &[i128], first: &i128, second: &i128) -> bool
    ensures { IsTrue result ↔ IsPairOf item.now input.now first.now second.now }
{
    match item {
        Item::Pair { pair, .. } => is_pair_of(pair.pair(), input, first, second),
        _ => false,
    }
}

/// Whether the item has candidates from which the family is drawn.
fn has_drawn(item: &Item, family: &Family) -> bool
    ensures { IsTrue result ↔ HasDrawn item.now family.now }
{
    match item {
        Item::Mined { candidates, .. } => is_drawn_from(candidates, family),
        _ => false,
    }
}

impl Pool {
    /// An empty history about the subject, with room for all that can be said of it.
    pub fn new(alloc: Global, subject: Subject) -> Result<Pool, AllocError>
        ensures { IfOk result (λ pool. pool ≡ record { subject = subject; items = [] }) }
    {
        let log = Log::new(alloc, subject.settings().samples())?;
        let lives = Lives::new(alloc, &subject)?;
        Ok(Pool {
            subject,
            log,
            pairs: Pages::new(alloc),
            lives,
        })
    }

    // ---- what is there; no call takes memory

    /// The subject.
    pub fn subject(&self) -> &Subject
        ensures { result.now ≡ self.now.subject }
    {
        &self.subject
    }

    /// The history, which is legal.
    pub fn history(&self) -> &[Item]
        ensures items { result.now ≡ self.now.items }
        ensures legal { IsLegal self.now.subject self.now.items }
    {
        self.log.items()
    }

    /// The history alone.
    pub fn into_history(self) -> Vec<Item>
        ensures { result.items ≡ self.items }
    {
        self.log.into_items()
    }

    /// The verdict, where one is posted: it is the last item.
    pub fn verdict(&self) -> Option<&Verdict>
        ensures { option_copied result ≡ verdict_of self.now.items }
    {
        match self.log.items().last() {
            Some(item) => verdict_in(item),
            None => None,
        }
    }

    // ---- what a call is asked

    /// Whether no verdict is posted. What holds of every pool is handed on here.
    fn is_open(&self) -> bool
        ensures undecided { IsTrue result ↔ IsOpen self.now.items }
        ensures legal { IsLegal self.now.subject self.now.items }
    {
        let _ = self.history();
        self.verdict().is_none()
    }

    fn is_own(&self, subject: &Subject) -> bool
        ensures { IsTrue result ↔ (subject.now ≡ self.now.subject) }
    {
        subject.same(&self.subject)
    }

    /// Whether the snapshot has the first pairs.
    fn has_first(&self, snapshot: &Snapshot) -> bool
        ensures first { IsTrue result ↔ HasFirstPairs self.now snapshot.now }
        ensures few { IsTrue result
            → length snapshot.now.pairs ≤ length (pairs_of self.now.items) }
        ensures snapshot { IsSnapshot snapshot.now }
    {
        // What holds of every snapshot.
        let _ = snapshot.subject();
        snapshot.are_first_of(&self.pairs)
    }

    /// Whether the first pairs have these indexes.
    fn begins_with(&self, indexes: &[u32]) -> bool
        ensures first { IsTrue result
            ↔ (indexes.now ≡ take (length indexes.now) (indexes_of self.now.items)) }
        ensures few { IsTrue result → length indexes.now ≤ length (pairs_of self.now.items) }
        ensures small { IsTrue result → length indexes.now ≤ 1000 }
    {
        // There are at most 1,000 samples.
        let _ = self.log.items();
        begin_with(&self.pairs, indexes)
    }

    /// Whether the worker added a pair that is not among the first so many.
    fn has_later_pair(&self, worker: u32, count: u32) -> bool
        ensures { result ≡ has_later_pair worker count self.now.items }
    {
        has_later_pair(&self.pairs, worker, count as usize)
    }

    /// Where the item of the sample stands.
    fn sample_at(&self, index: u32) -> Option<u32>
        requires { index < self.now.subject.settings.samples }
        ensures { result ≡ position (has_index index) self.now.items }
    {
        self.log.sample_at(index)
    }

    /// Where the candidates of so many pairs under the alignment stand.
    fn mined_at(&self, prefix: u32, alignment: Alignment) -> Option<u32>
        requires { prefix ≤ length (pairs_of self.now.items) }
        ensures { result ≡ position (has_mined prefix alignment) self.now.items }
    {
        self.log.mined_at(prefix, alignment)
    }

    /// Whether there are any.
    fn has_mined(&self, prefix: u32, alignment: Alignment) -> bool
        requires { prefix ≤ length (pairs_of self.now.items) }
        ensures { result ≡ list_any (has_mined prefix alignment) self.now.items }
    {
        self.log.has_mined(prefix, alignment)
    }

    /// Where the reason of the alignment stands, with the candidates of so many pairs.
    fn tried_at(&self, prefix: u32, alignment: Alignment) -> Option<u32>
        requires { prefix ≤ length (pairs_of self.now.items) }
        ensures { result ≡ position (has_tried prefix alignment) self.now.items }
    {
        self.log.tried_at(prefix, alignment)
    }

    // ---- what a call adds

    /// Adds an item that is no pair.
    fn put(&mut self, item: Item) -> u32
        requires follows { MayFollow self.old.subject self.old.items item }
        requires no_pair { added_of (item ∷ []) ≡ [] }
        ensures place { result ≡ length self.old.items }
        ensures items { self.new ≡ with_item self.old item }
    {
        self.log.push(item)
    }

    /// Adds a pair, which comes to be shared: the history and the pages hold it. An error leaves
    /// all as it was.
    fn put_pair(
        &mut self,
        alloc: Global,
        worker: u32,
        index: u32,
        pair: Pair,
    ) -> Result<u32, AllocError>
        requires { MayFollow self.old.subject self.old.items (item.Pair worker index pair) }
        ensures place { IfOk result (λ place. place ≡ length self.old.items) }
        ensures items { OnOk result (self.new ≡ with_item self.old (item.Pair worker index pair)) }
        ensures err { OnErr result (self.new ≡ self.old) }
    {
        let pair = SharedPair::new(alloc, pair)?;
        let again = pair.again()?;
        self.pairs.add(
            alloc,
            Added {
                worker,
                index,
                pair: again,
            },
        )?;
        Ok(
            self.log.push(Item::Pair {
                worker,
                index,
                pair,
            }),
        )
    }

    // ---- samples

    /// Adds the pair of a sample. It alone takes memory.
    pub fn append(
        &mut self,
        alloc: Global,
        worker: u32,
        subject: &Subject,
        index: u32,
        pair: Pair,
    ) -> Result<u32, PoolRefused>
        requires { MayCall (Append worker subject.now index pair) }
        ensures { Plays self.old (Append worker subject.now index pair) result self.new }
    {
        if !self.is_open() {
            return Err(PoolRefused::Closed);
        }
        if !self.is_own(subject) {
            return Err(PoolRefused::Stranger);
        }
        if let Some(place) = self.sample_at(index) {
            return Err(PoolRefused::Double(place));
        }
        Ok(self.put_pair(alloc, worker, index, pair)?)
    }

    /// Adds that a sample is skipped.
    pub fn skip(
        &mut self,
        worker: u32,
        subject: &Subject,
        index: u32,
        skipped: Skipped,
    ) -> Result<u32, PoolRefused>
        requires { MayCall (Skip worker subject.now index skipped) }
        ensures { Plays self.old (Skip worker subject.now index skipped) result self.new }
    {
        if !self.is_open() {
            return Err(PoolRefused::Closed);
        }
        if !self.is_own(subject) {
            return Err(PoolRefused::Stranger);
        }
        if let Some(place) = self.sample_at(index) {
            return Err(PoolRefused::Double(place));
        }
        Ok(self.put(Item::Skipped {
            worker,
            index,
            skipped,
        }))
    }

    // ---- alignments

    /// All pairs so far.
    pub fn snapshot(&self, alloc: Global) -> Result<Snapshot, AllocError>
        ensures { IfOk result (λ snapshot. snapshot ≡ snapshot_of self.now) }
    {
        let subject = self.subject.copy(alloc)?;
        let pairs = self.pairs.again(alloc)?;
        Ok(Snapshot::new(subject, pairs))
    }

    /// All pairs so far, with their candidates under the alignment. Those of the pairs that came
    /// since it was last asked for are mined now.
    pub fn candidates(
        &mut self,
        alloc: Global,
        alignment: Alignment,
    ) -> Result<(Snapshot, Candidates), AllocError>
        ensures snapshot { IfOk result (λ made. made.0 ≡ snapshot_of self.old) }
        ensures mined { IfOk result (λ made.
            AreMinedFrom self.old.subject alignment (pairs_of self.old.items) made.1) }
        ensures same { self.new ≡ self.old }
    {
        let snapshot = self.snapshot(alloc)?;
        let candidates = self.lives.candidates(alloc, alignment, &self.pairs)?;
        Ok((snapshot, candidates))
    }

    /// Adds the candidates of a snapshot under the alignment. They are to rest on all pairs that
    /// the worker added. Takes no memory.
    pub fn mined(
        &mut self,
        worker: u32,
        snapshot: &Snapshot,
        alignment: Alignment,
        candidates: Candidates,
    ) -> Result<u32, PoolRefused>
        requires { MayCall (Mine worker snapshot.now alignment candidates) }
        ensures { Plays self.old (Mine worker snapshot.now alignment candidates) result self.new }
    {
        if !self.is_open() {
            return Err(PoolRefused::Closed);
        }
        if !self.is_own(snapshot.subject()) {
            return Err(PoolRefused::Stranger);
        }
        let prefix = snapshot.len();
        if !self.has_first(snapshot) || self.has_later_pair(worker, prefix) {
            return Err(PoolRefused::Stale(prefix as usize));
        }
        if let Some(place) = self.mined_at(prefix, alignment) {
            return Err(PoolRefused::Double(place));
        }
        Ok(self.put(Item::Mined {
            worker,
            prefix,
            alignment,
            candidates,
        }))
    }

    /// Adds why the alignment has no coupling, as far as it was tried on the snapshot's candidates.
    /// Takes no memory.
    pub fn tried(
        &mut self,
        worker: u32,
        snapshot: &Snapshot,
        alignment: Alignment,
        why: Why,
    ) -> Result<u32, PoolRefused>
        requires { MayCall (Try worker snapshot.now alignment why) }
        ensures { Plays self.old (Try worker snapshot.now alignment why) result self.new }
    {
        if !self.is_open() {
            return Err(PoolRefused::Closed);
        }
        if !self.is_own(snapshot.subject()) {
            return Err(PoolRefused::Stranger);
        }
        let prefix = snapshot.len();
        if !self.has_first(snapshot) {
            return Err(PoolRefused::Stale(prefix as usize));
        }
        if !self.has_mined(prefix, alignment) {
            return Err(PoolRefused::Unmined(alignment.number()));
        }
        if let Some(place) = self.tried_at(prefix, alignment) {
            return Err(PoolRefused::Double(place));
        }
        Ok(self.put(Item::Tried {
            worker,
            prefix,
            alignment,
            why,
        }))
    }

    // ---- verdicts

    /// Whether a pair has the index, the input and both results, and these differ.
    fn is_seen(&self, index: u32, input: &[i128], first: &i128, second: &i128) -> bool
        ensures { IsTrue result
            ↔ (HasPair self.now.items index input.now first.now second.now × (first.now ≢ second.now)) }
    {
        if first == second {
            return false;
        }
        if index >= self.log.samples() {
            return false;
        }
        match self.log.sample(index) {
            Some(item) => is_such_pair(item, input, first, second),
            None => false,
        }
    }

    /// Whether candidates of so many pairs were mined under the alignment, and the family is drawn
    /// from them.
    fn is_drawn(&self, prefix: u32, alignment: Alignment, family: &Family) -> bool
        requires { prefix ≤ length (pairs_of self.now.items) }
        ensures { IsTrue result ↔ IsDrawnFromMined self.now prefix alignment family.now }
    {
        match self.log.mined(prefix, alignment) {
            Some(item) => has_drawn(item, family),
            None => false,
        }
    }

    /// Adds that the functions are equivalent.
    fn post_equivalence(
        &mut self,
        worker: u32,
        coupled: Coupled,
        indexes: Items<u32>,
    ) -> Result<u32, PoolRefused>
        ensures { Plays self.old (Post worker (Equivalent coupled indexes)) result self.new }
    {
        if !self.is_open() {
            return Err(PoolRefused::Closed);
        }
        if !self.is_own(coupled.subject()) {
            return Err(PoolRefused::Stranger);
        }
        if !self.begins_with(indexes.as_slice()) {
            return Err(PoolRefused::Stale(indexes.len()));
        }
        let prefix = indexes.len() as u32;
        let alignment = coupled.alignment();
        if !self.is_drawn(prefix, alignment, coupled.family()) {
            return Err(PoolRefused::Unmined(alignment.number()));
        }
        Ok(self.put(Item::Posted {
            worker,
            verdict: Verdict::Equivalent { coupled, indexes },
        }))
    }

    /// Adds that the functions differ.
    fn post_difference(
        &mut self,
        worker: u32,
        index: u32,
        input: Items<i128>,
        first: i128,
        second: i128,
    ) -> Result<u32, PoolRefused>
        ensures { Plays self.old (Post worker (Different index input first second)) result self.new }
    {
        if !self.is_open() {
            return Err(PoolRefused::Closed);
        }
        if !self.is_seen(index, input.as_slice(), &first, &second) {
            return Err(PoolRefused::NoPair(index));
        }
        Ok(self.put(Item::Posted {
            worker,
            verdict: Verdict::Different {
                index,
                input,
                first,
                second,
            },
        }))
    }

    /// Adds the verdict, after which nothing follows. It is not that nothing is decided. Takes no
    /// memory.
    pub fn post(&mut self, worker: u32, verdict: Verdict) -> Result<u32, PoolRefused>
        requires { MayCall (Post worker verdict) }
        ensures { Plays self.old (Post worker verdict) result self.new }
    {
        match verdict {
            Verdict::Equivalent { coupled, indexes } => {
                self.post_equivalence(worker, coupled, indexes)
            }
            Verdict::Different {
                index,
                input,
                first,
                second,
            } => self.post_difference(worker, index, input, first, second),
            Verdict::Unknown { .. } => unreachable!(),
        }
    }

    /// The posted verdict, where there is one; else that nothing is decided, where all samples and
    /// all alignments say so; else the first that is missing.
    pub fn conclude(&self, alloc: Global) -> Result<Verdict, Missing>
        ensures { AnswersConclusion self.now result }
    {
        conclude(alloc, &self.log, self.verdict(), self.pairs.len() as u32)
    }
}
