//! The verdict that a history comes to, or what is missing for one.
ghost use Rattle.std.specs.Prelude.{◌≡◌, ◌≢◌, ◌↔◌, ◌<◌, ◌≤◌, ◌+◌, ◌-◌, [], ◌∷◌, true, false, List, ℕ, length, slice_get, Some, IsTrue, IsSomeAnd, IfOk, MatchOption};
ghost use Rattle.std.specs.List.{list_any};
ghost use Rattle.std.specs.Option.{option_copied};
ghost use Rattle.c_ast.specs.Comparison.{Comparison};
ghost use Rattle.alignment.specs.Number.{IsAlignment};
ghost use Rattle.pool_core.specs.declared.verdict.Verdict.TheVariants as verdict;
ghost use Rattle.pool_core.specs.declared.verdict.SampleWhy.{SampleWhy};
ghost use Rattle.pool_core.specs.declared.verdict.Why.{Why};
ghost use Rattle.pool_core.specs.History.{pairs_of, has_index, has_tried, verdict_of, HasSample, HasReason, HaveEqualResults};
ghost use Rattle.pool_core.specs.Plays.{HaveSamples, AreAllTried, IsFirstDifference, AnswersConclusion};
ghost use Rattle.pool_core.specs.Tables.{most_items};

use crate::log::Log;
use crate::{Item, Missing, SampleWhy, Verdict, Why};
use alignment::Alignment;
use sqlite_items::Items;
use std::alloc::{AllocError, Global};

// ---- what is missing

/// The least index of a sample without an item.
fn missing_sample(log: &Log) -> Option<u32>
    ensures { MatchOption result
        (HaveSamples log.now.items log.now.samples)
        (λ index. (index < log.now.samples) × HaveSamples log.now.items index
        × (list_any (has_index index) log.now.items ≡ false)) }
{
    for index in 0..log.samples() {
        if !log.has_sample(index) {
            return Some(index);
        }
    }
    None
}

/// Whether the item is no pair whose results differ.
fn is_equal(item: &Item) -> bool
    ensures { IsTrue result ↔ HaveEqualResults (item.now ∷ []) }
{
    match item {
        Item::Pair { pair, .. } => {
            let pair = pair.pair();
            pair.first.result == pair.second.result
        }
        _ => true,
    }
}

/// Where the first pair stands whose results differ.
#[tactic(auto, using(crate::proofs::Looking::equal_more, crate::proofs::Looking::first_difference))]
fn first_difference(log: &Log) -> Option<u32>
    ensures { MatchOption result
        (HaveEqualResults log.now.items)
        (IsFirstDifference log.now.items) }
{
    let items = log.items();
    for place in 0..items.len() {
        if !is_equal(&items[place]) {
            return Some(place as u32);
        }
    }
    None
}

/// The alignment that so many others come before.
fn alignment_after(k: u32) -> Alignment
    requires { k < 12 }
    ensures { result ≡ k + 1 }
{
    Alignment::named()[k as usize]
}

/// The number of the least alignment that was not tried on all pairs, of which there are so many.
fn missing_alignment(log: &Log, pairs: u32) -> Option<u32>
    requires few { pairs ≤ log.now.samples }
    requires all { pairs ≡ length (pairs_of log.now.items) }
    ensures { MatchOption result
        (AreAllTried log.now.items 13)
        (λ number. IsAlignment number × AreAllTried log.now.items number
        × (list_any (has_tried pairs number) log.now.items ≡ false)) }
{
    for k in 0..12 {
        if !log.has_tried(pairs, alignment_after(k)) {
            return Some(k + 1);
        }
    }
    None
}

// ---- what is said

/// What the history has of the sample.
#[tactic(auto, using(crate::proofs::Looking::said_pair, crate::proofs::Looking::said_skipped))]
fn said(log: &Log, index: u32) -> SampleWhy
    requires below { index < log.now.samples }
    requires there { list_any (has_index index) log.now.items ≡ true }
    ensures { HasSample log.now.items index result }
{
    match log.sample(index).unwrap() {
        Item::Pair { .. } => SampleWhy::Equal,
        Item::Skipped { skipped, .. } => SampleWhy::Skipped(*skipped),
        Item::Mined { .. } | Item::Tried { .. } | Item::Posted { .. } => unreachable!(),
    }
}

/// What the history has of each sample.
fn all_said(alloc: Global, log: &Log) -> Result<Items<SampleWhy>, AllocError>
    requires { HaveSamples log.now.items log.now.samples }
    ensures { IfOk result (λ made. (length made ≡ log.now.samples)
        × ((index : ℕ) → index < log.now.samples
        → IsSomeAnd (slice_get made index) (HasSample log.now.items index))) }
{
    let mut made = Items::new(alloc);
    for index in 0..log.samples() {
        made.push(said(log, index))?;
    }
    Ok(made)
}

/// The reason of the alignment, with the candidates of so many pairs.
#[tactic(auto, using(crate::proofs::Looking::reason_of))]
fn reason(alloc: Global, log: &Log, pairs: u32, alignment: Alignment) -> Result<Why, AllocError>
    requires few { pairs ≤ log.now.samples }
    requires there { list_any (has_tried pairs alignment) log.now.items ≡ true }
    ensures { IfOk result (HasReason log.now.items pairs alignment) }
{
    match log.tried(pairs, alignment).unwrap() {
        Item::Tried { why, .. } => why.copy(alloc),
        _ => unreachable!(),
    }
}

/// The reasons of the twelve, with the candidates of all pairs, of which there are so many.
fn all_reasons(alloc: Global, log: &Log, pairs: u32) -> Result<Items<Why>, AllocError>
    requires few { pairs ≤ log.now.samples }
    requires all { pairs ≡ length (pairs_of log.now.items) }
    requires there { AreAllTried log.now.items 13 }
    ensures { IfOk result (λ made. (length made ≡ 12)
        × ((alignment : ℕ) → IsAlignment alignment
        → IsSomeAnd (slice_get made (alignment - 1)) (HasReason log.now.items pairs alignment))) }
{
    let mut made = Items::new(alloc);
    for k in 0..12 {
        made.push(reason(alloc, log, pairs, alignment_after(k))?)?;
    }
    Ok(made)
}

/// The verdict that is posted, or else that nothing is decided, where that is so; else the first
/// that is missing. `posted` is the history's verdict, and it has so many pairs.
pub(crate) fn conclude(
    alloc: Global,
    log: &Log,
    posted: Option<&Verdict>,
    pairs: u32,
) -> Result<Verdict, Missing>
    requires few { pairs ≤ log.now.samples }
    requires all { pairs ≡ length (pairs_of log.now.items) }
    requires posted { option_copied posted ≡ verdict_of log.now.items }
    requires found { (samples : List SampleWhy) → (alignments : List Why)
        → verdict_of log.now.items ≢ Some (verdict.Unknown samples alignments) }
    ensures { (subject : Comparison) → subject.settings.samples ≡ log.now.samples
        → AnswersConclusion (record { subject = subject; items = log.now.items }) result }
{
    if let Some(found) = posted {
        return Ok(found.copy(alloc)?);
    }
    if let Some(index) = missing_sample(log) {
        return Err(Missing::Sample(index));
    }
    if let Some(place) = first_difference(log) {
        return Err(Missing::Differs(place));
    }
    if let Some(number) = missing_alignment(log, pairs) {
        return Err(Missing::Alignment(number));
    }
    let samples = all_said(alloc, log)?;
    let alignments = all_reasons(alloc, log, pairs)?;
    Ok(Verdict::Unknown {
        samples,
        alignments,
    })
}
