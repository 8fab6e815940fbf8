//! Candidates that are kept while pairs come in.
ghost use Rattle.std.specs.Prelude.{◌≡◌, IfOk, OnOk, OnErr};
ghost use Rattle.walks.specs.Laws.{IsNarrowPair};
ghost use Rattle.miners.specs.Gathered.{nothing_gathered, with_pair, family_of};

use alignment::Alignment;
use c_ast::{Pair, Subject};
use miners::{Candidates, Mining};
use std::alloc::{AllocError, Global};
use std::marker::Model;

/// What is mined of the pairs so far, of one subject under one alignment. Contracts see the atoms
/// that are left at each node that was met.
#[derive(Debug, Drop)]
pub struct Live {
    mining: Mining,
}

impl Model for Live {
    ghost use Rattle.miners.specs.Gathered.{Gathered};

    ghost Value = { Gathered };

    ghost view = { λ l. l.mining };
}

impl Live {
    /// No pair yet.
    pub fn new(alloc: Global, subject: &Subject, alignment: Alignment) -> Result<Live, AllocError>
        ensures { IfOk result (λ live. live ≡ nothing_gathered subject.now alignment) }
    {
        let mining = Mining::new(alloc, subject, alignment)?;
        Ok(Live { mining })
    }

    /// One more pair. An error leaves all as it was.
    pub fn add(&mut self, alloc: Global, pair: &Pair) -> Result<(), AllocError>
        requires { IsNarrowPair pair.now }
        ensures ok { OnOk result (self.new ≡ with_pair self.old pair.now) }
        ensures err { OnErr result (self.new ≡ self.old) }
    {
        self.mining.add(alloc, pair)
    }

    /// The candidates of the pairs that were added.
    pub fn candidates(&self, alloc: Global) -> Result<Candidates, AllocError>
        ensures { IfOk result (λ candidates. candidates ≡ family_of self.now) }
    {
        self.mining.candidates(alloc)
    }
}
