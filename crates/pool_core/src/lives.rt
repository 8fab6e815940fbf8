//! Candidates of each alignment that are kept up to date.
ghost use Rattle.std.specs.Prelude.{◌≡◌, ◌≤◌, ◌<◌, ◌+◌, [], ℕ, length, map, All, IfOk, OnOk, OnErr};
ghost use Rattle.c_ast.specs.Comparison.{Comparison};
ghost use Rattle.walks.specs.Laws.{IsNarrowPair};
ghost use Rattle.miners.specs.Candidates.{AreMinedFrom};
ghost use Rattle.miners.specs.Gathered.{with_pair};

use crate::pages::Pages;
use alignment::Alignment;
use c_ast::{Pair, Subject};
use live_mining::Live;
use miners::Candidates;
use std::alloc::{AllocError, Global};

/// What is mined under an alignment, of the first so many pairs.
#[derive(Debug, Drop)]
pub struct Front {
    pub live: Live,
    pub count: usize,
}

impl Front {
    ghost use Rattle.pool_core.specs.Beside.{IsFront};

    /// One more pair. An error leaves all as it was.
    fn add(&mut self, alloc: Global, pair: &Pair) -> Result<(), AllocError>
        requires narrow { IsNarrowPair pair.now }
        requires room { self.old.count < 4294967295 }
        ensures live { OnOk result (self.new.live ≡ with_pair self.old.live pair.now) }
        ensures count { OnOk result (self.new.count ≡ self.old.count + 1) }
        ensures err { OnErr result (self.new ≡ self.old) }
    {
        self.live.add(alloc, pair)?;
        self.count += 1;
        Ok(())
    }

    /// Adds the pairs behind those that it counts. Where memory ends, those that were added stay.
    fn follow(&mut self, alloc: Global, pages: &Pages) -> Result<(), AllocError>
        requires narrow { All (λ added. IsNarrowPair added.pair) pages.now }
        ensures front { (subject : Comparison) (alignment : ℕ)
            → IsFront subject (map (λ added. added.pair) pages.now) alignment self.old
            → IsFront subject (map (λ added. added.pair) pages.now) alignment self.new }
        ensures all { OnOk result (length pages.now ≤ self.new.count) }
    {
        while self.count < pages.len() {
            let added = pages.get(self.count);
            self.add(alloc, added.pair.pair())?;
        }
        Ok(())
    }
}

/// One for each of the twelve alignments, in their order.
#[derive(Debug, Drop)]
pub struct Lives {
    pub fronts: Vec<Front>,
    ghost twelve: { length fronts.items ≡ 12 },
}

impl Lives {
    ghost use Rattle.pool_core.specs.Beside.{AreFronts};

    /// No pair yet.
    pub(crate) fn new(alloc: Global, subject: &Subject) -> Result<Lives, AllocError>
        ensures { IfOk result (λ lives. AreFronts subject.now [] lives.fronts.items) }
    {
        let mut fronts = Vec::new(alloc);
        for alignment in Alignment::named() {
            let live = Live::new(alloc, subject, alignment)?;
            fronts.push(Front { live, count: 0 })?;
        }
        Ok(Lives { fronts })
    }

    /// The candidates of the pairs under the alignment. Those that came since it was last asked for
    /// are mined now; where memory ends, what was mined stays.
    pub(crate) fn candidates(
        &mut self,
        alloc: Global,
        alignment: Alignment,
        pages: &Pages,
    ) -> Result<Candidates, AllocError>
        requires narrow { All (λ added. IsNarrowPair added.pair) pages.now }
        ensures candidates { IfOk result (λ made. (subject : Comparison)
            → AreFronts subject (map (λ added. added.pair) pages.now) self.old.fronts.items
            → AreMinedFrom subject alignment (map (λ added. added.pair) pages.now) made) }
        ensures fronts { (subject : Comparison)
            → AreFronts subject (map (λ added. added.pair) pages.now) self.old.fronts.items
            → AreFronts subject (map (λ added. added.pair) pages.now) self.new.fronts.items }
    {
        let at = alignment.number() as usize - 1;
        let front = &mut self.fronts[at];
        front.follow(alloc, pages)?;
        let made = front.live.candidates(alloc)?;
        Ok(made)
    }
}
