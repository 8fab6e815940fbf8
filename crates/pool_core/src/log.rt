//! A history with room for all its items, and tables of where they stand.
ghost use Rattle.std.specs.Prelude.{◌≡◌, ◌<◌, ◌≤◌, length, position, replicate, true, None, Some, [], Bool, IfOk, IfSome, Contains, is_some};
ghost use Rattle.std.specs.List.{list_any};
ghost use Rattle.alignment.specs.Number.{IsAlignment};
ghost use Rattle.pool_core.specs.declared.item.Item.{Item};
ghost use Rattle.pool_core.specs.declared.item.Item.TheVariants as item;
ghost use Rattle.pool_core.specs.History.{has_index, has_mined, has_tried};
ghost use Rattle.pool_core.specs.Tables.{most_items, slot_of, with_logged, IsUnlogged};

use crate::{Item, Verdict};
use alignment::Alignment;
use sqlite_items::Items;
use std::alloc::{AllocError, Global};
use std::marker::Model;

/// The items, in their order. The tables tell of each sample, and of each number of pairs under
/// each alignment, where its item stands. Contracts see the number of samples and the items.
#[derive(Debug, Drop)]
pub(crate) struct Log {
    samples: u32,
    items: Vec<Item>,
    /// Of the sample with each index.
    at_samples: Items<Option<u32>>,
    /// Of the candidates of each number of pairs, twelve alignments to a number.
    at_mined: Items<Option<u32>>,
    /// Of the reasons, likewise.
    at_tried: Items<Option<u32>>,
}

impl Model for Log {
    ghost use Rattle.std.specs.Prelude.{◌≤◌, length, vec_capacity};
    ghost use Rattle.std.specs.Coded.{codes};
    ghost use Rattle.c_ast.specs.contracts.stmt.Stmt as stmts;
    ghost use Rattle.c_ast.specs.contracts.expr.Expr as exprs;
    ghost use Rattle.pool_core.specs.Tables.{Logged, most_items, AreTables};

    ghost Value = { Logged };

    ghost coded = { Prim.hlevel (codes, stmts.the_row.coded, exprs.the_row.coded) };

    ghost view = { λ l. record { samples = l.samples; items = l.items.items } };

    ghost invariant = { λ l. (l.samples ≤ 1000)
        × (length l.items.items ≤ most_items l.samples)
        × (most_items l.samples ≤ vec_capacity l.items)
        × AreTables l.at_samples l.at_mined l.at_tried
        (record { samples = l.samples; items = l.items.items }) };
}

/// So many slots of nothing.
fn empty_slots(alloc: Global, count: usize) -> Result<Items<Option<u32>>, AllocError>
    ensures { IfOk result (λ slots. slots ≡ replicate count None) }
{
    Ok(Items::from_vec(vec![in alloc; None; count]?))
}

/// The slot of so many pairs and the alignment.
fn slot_of(prefix: u32, alignment: Alignment) -> usize
    requires { prefix ≤ 1000 }
    ensures slot { result ≡ slot_of prefix alignment }
    ensures named { IsAlignment alignment }
{
    prefix as usize * 12 + (alignment.number() as usize - 1)
}

impl Log {
    /// An empty history of so many samples, at most 1,000, with room for all that can be said.
    pub(crate) fn new(alloc: Global, samples: u32) -> Result<Log, AllocError>
        requires { samples ≤ 1000 }
        ensures { IfOk result (λ log. log ≡ record { samples = samples; items = [] }) }
    {
        let count = samples as usize;
        Ok(Log {
            samples,
            items: Vec::with_capacity(alloc, count + 24 * (count + 1) + 1)?,
            at_samples: empty_slots(alloc, count)?,
            at_mined: empty_slots(alloc, 12 * (count + 1))?,
            at_tried: empty_slots(alloc, 12 * (count + 1))?,
        })
    }

    /// The items.
    pub(crate) fn items(&self) -> &[Item]
        ensures items { result.now ≡ self.now.items }
        ensures few { length self.now.items ≤ most_items self.now.samples }
        ensures few_samples { self.now.samples ≤ 1000 }
    {
        self.items.as_slice()
    }

    /// The items, out of the tables.
    pub(crate) fn into_items(self) -> Vec<Item>
        ensures { result.items ≡ self.items }
    {
        self.items
    }

    /// How many samples there are.
    pub(crate) fn samples(&self) -> u32
        ensures { result ≡ self.now.samples }
    {
        self.samples
    }

    /// Where the item of the sample stands.
    pub(crate) fn sample_at(&self, index: u32) -> Option<u32>
        requires { index < self.now.samples }
        ensures place { result ≡ position (has_index index) self.now.items }
        ensures some { is_some result ≡ list_any (has_index index) self.now.items }
        ensures within { IfSome result (λ place. place < length self.now.items) }
    {
        self.at_samples.as_slice()[index as usize]
    }

    /// Where the candidates of so many pairs under the alignment stand.
    pub(crate) fn mined_at(&self, prefix: u32, alignment: Alignment) -> Option<u32>
        requires { prefix ≤ self.now.samples }
        ensures place { result ≡ position (has_mined prefix alignment) self.now.items }
        ensures some { is_some result ≡ list_any (has_mined prefix alignment) self.now.items }
        ensures within { IfSome result (λ place. place < length self.now.items) }
    {
        self.at_mined.as_slice()[slot_of(prefix, alignment)]
    }

    /// Where the reason of the alignment, with the candidates of so many pairs, stands.
    pub(crate) fn tried_at(&self, prefix: u32, alignment: Alignment) -> Option<u32>
        requires { prefix ≤ self.now.samples }
        ensures place { result ≡ position (has_tried prefix alignment) self.now.items }
        ensures some { is_some result ≡ list_any (has_tried prefix alignment) self.now.items }
        ensures within { IfSome result (λ place. place < length self.now.items) }
    {
        self.at_tried.as_slice()[slot_of(prefix, alignment)]
    }

    /// Whether there is an item of the sample.
    pub(crate) fn has_sample(&self, index: u32) -> bool
        requires { index < self.now.samples }
        ensures { result ≡ list_any (has_index index) self.now.items }
    {
        self.sample_at(index).is_some()
    }

    /// Whether there are candidates of so many pairs under the alignment.
    pub(crate) fn has_mined(&self, prefix: u32, alignment: Alignment) -> bool
        requires { prefix ≤ self.now.samples }
        ensures { result ≡ list_any (has_mined prefix alignment) self.now.items }
    {
        self.mined_at(prefix, alignment).is_some()
    }

    /// Whether there is a reason of the alignment, with the candidates of so many pairs.
    pub(crate) fn has_tried(&self, prefix: u32, alignment: Alignment) -> bool
        requires { prefix ≤ self.now.samples }
        ensures { result ≡ list_any (has_tried prefix alignment) self.now.items }
    {
        self.tried_at(prefix, alignment).is_some()
    }

    /// The item at this place.
    #[tactic(auto, using(crate::proofs::Looking::read_contains))]
    fn item(&self, place: Option<u32>) -> Option<&Item>
        requires { IfSome place (λ place. place < length self.now.items) }
        ensures some { is_some result ≡ is_some place }
        ensures passes { (test : Item → Bool) → place ≡ position test self.now.items
            → IfSome result (λ found. test found.now ≡ true) }
        ensures stands { IfSome result (λ found. Contains self.now.items found.now) }
    {
        match place {
            None => None,
            Some(place) => Some(&self.items[place as usize]),
        }
    }

    /// The item of the sample.
    pub(crate) fn sample(&self, index: u32) -> Option<&Item>
        requires { index < self.now.samples }
        ensures some { is_some result ≡ list_any (has_index index) self.now.items }
        ensures of { IfSome result (λ found. has_index index found.now ≡ true) }
        ensures stands { IfSome result (λ found. Contains self.now.items found.now) }
    {
        self.item(self.sample_at(index))
    }

    /// The candidates of so many pairs under the alignment.
    pub(crate) fn mined(&self, prefix: u32, alignment: Alignment) -> Option<&Item>
        requires { prefix ≤ self.now.samples }
        ensures some { is_some result ≡ list_any (has_mined prefix alignment) self.now.items }
        ensures of { IfSome result (λ found. has_mined prefix alignment found.now ≡ true) }
        ensures stands { IfSome result (λ found. Contains self.now.items found.now) }
    {
        self.item(self.mined_at(prefix, alignment))
    }

    /// The reason of the alignment, with the candidates of so many pairs.
    pub(crate) fn tried(&self, prefix: u32, alignment: Alignment) -> Option<&Item>
        requires { prefix ≤ self.now.samples }
        ensures some { is_some result ≡ list_any (has_tried prefix alignment) self.now.items }
        ensures of { IfSome result (λ found. has_tried prefix alignment found.now ≡ true) }
        ensures stands { IfSome result (λ found. Contains self.now.items found.now) }
    {
        self.item(self.tried_at(prefix, alignment))
    }

    /// Adds an item of the sample.
    fn push_sample(&mut self, index: u32, item: Item) -> u32
        requires of_sample { has_index index item ≡ true }
        requires new { IsUnlogged self.old item }
        requires room { length self.old.items < most_items self.old.samples }
        ensures place { result ≡ length self.old.items }
        ensures items { self.new ≡ with_logged self.old item }
    {
        let place = self.items.len() as u32;
        self.at_samples.set(index as usize, Some(place));
        self.items.push(item).unwrap();
        place
    }

    /// Adds the candidates of so many pairs under the alignment.
    fn push_mined(&mut self, prefix: u32, alignment: Alignment, item: Item) -> u32
        requires of_mined { has_mined prefix alignment item ≡ true }
        requires new { IsUnlogged self.old item }
        requires room { length self.old.items < most_items self.old.samples }
        ensures place { result ≡ length self.old.items }
        ensures items { self.new ≡ with_logged self.old item }
    {
        let place = self.items.len() as u32;
        self.at_mined.set(slot_of(prefix, alignment), Some(place));
        self.items.push(item).unwrap();
        place
    }

    /// Adds a reason of the alignment, with the candidates of so many pairs.
    fn push_tried(&mut self, prefix: u32, alignment: Alignment, item: Item) -> u32
        requires of_tried { has_tried prefix alignment item ≡ true }
        requires new { IsUnlogged self.old item }
        requires room { length self.old.items < most_items self.old.samples }
        ensures place { result ≡ length self.old.items }
        ensures items { self.new ≡ with_logged self.old item }
    {
        let place = self.items.len() as u32;
        self.at_tried.set(slot_of(prefix, alignment), Some(place));
        self.items.push(item).unwrap();
        place
    }

    /// Adds a verdict.
    fn push_verdict(&mut self, worker: u32, verdict: Verdict) -> u32
        requires { length self.old.items < most_items self.old.samples }
        ensures place { result ≡ length self.old.items }
        ensures items { self.new ≡ with_logged self.old (item.Posted worker verdict) }
    {
        let place = self.items.len() as u32;
        self.items.push(Item::Posted { worker, verdict }).unwrap();
        place
    }

    /// Adds an item whose slot is empty, and says where it stands. Takes no memory.
    pub(crate) fn push(&mut self, item: Item) -> u32
        requires new { IsUnlogged self.old item }
        requires room { length self.old.items < most_items self.old.samples }
        ensures place { result ≡ length self.old.items }
        ensures items { self.new ≡ with_logged self.old item }
    {
        match item {
            Item::Pair {
                worker,
                index,
                pair,
            } => self.push_sample(
                index,
                Item::Pair {
                    worker,
                    index,
                    pair,
                },
            ),
            Item::Skipped {
                worker,
                index,
                skipped,
            } => self.push_sample(
                index,
                Item::Skipped {
                    worker,
                    index,
                    skipped,
                },
            ),
            Item::Mined {
                worker,
                prefix,
                alignment,
                candidates,
            } => self.push_mined(
                prefix,
                alignment,
                Item::Mined {
                    worker,
                    prefix,
                    alignment,
                    candidates,
                },
            ),
            Item::Tried {
                worker,
                prefix,
                alignment,
                why,
            } => self.push_tried(
                prefix,
                alignment,
                Item::Tried {
                    worker,
                    prefix,
                    alignment,
                    why,
                },
            ),
            Item::Posted { worker, verdict } => self.push_verdict(worker, verdict),
        }
    }
}
