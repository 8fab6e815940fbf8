//! A pair of runs that several lists hold.
ghost use Rattle.std.specs.Prelude.{◌≡◌, IfOk};

use c_ast::Pair;
use std::alloc::{AllocError, Global};
use std::marker::Model;
use std::sync::Arc;

/// A holder of a pair. Contracts see the pair.
#[derive(Debug, Drop)]
pub struct SharedPair {
    pair: Arc<Pair>,
}

impl Model for SharedPair {
    ghost use Rattle.c_ast.specs.declared.trace.Pair.{Pair};
    ghost use Rattle.std.specs.Arc.{arc_value};

    ghost Value = { Pair };

    ghost view = { λ s. arc_value s.pair };
}

impl SharedPair {
    /// The first holder of the pair.
    pub fn new(alloc: Global, pair: Pair) -> Result<SharedPair, AllocError>
        ensures { IfOk result (λ shared. shared ≡ pair) }
    {
        Ok(SharedPair {
            pair: Arc::new(alloc, pair)?,
        })
    }

    /// The pair.
    pub fn pair(&self) -> &Pair
        ensures { result.now ≡ self.now }
    {
        &self.pair
    }

    /// Another holder of the same pair.
    pub fn again(&self) -> Result<SharedPair, AllocError>
        ensures { IfOk result (λ shared. shared ≡ self.now) }
    {
        Ok(SharedPair {
            pair: Arc::try_clone(&self.pair)?,
        })
    }
}
