//! Verdicts, and why there may be none.
ghost use Rattle.std.specs.Prelude.{◌≡◌, IfOk};

use elimination::Limit;
use horn_clauses::Family;
use path_product::ProductLimit;
use relation::Coupled;
use sqlite_items::Items;
use std::alloc::{AllocError, Global};
use trace_pair::Skipped;

/// Why an alignment has no coupling, as far as it was tried on the candidates of some pairs.
#[derive(Debug, Drop)]
pub enum Why {
    /// No family of the candidates is linear.
    NoCoupling,
    /// The making of the product meets this limit, which is not want of memory.
    Product(ProductLimit),
    /// The refutation of an obligation meets a limit.
    AtObligation {
        /// Its number among the obligations of `left`, from 0.
        obligation: usize,
        /// What was left of the candidates: it contains every linear family of them.
        left: Family,
        /// What is met there, which is not want of memory.
        limit: Limit,
    },
}

/// Why a sample decides nothing.
#[derive(Clone, Copy, Debug, PartialEq, Eq)]
pub enum SampleWhy {
    /// Both runs return, with equal results.
    Equal,
    /// The sample is no pair.
    Skipped(Skipped),
}

/// What is found about two functions.
#[derive(Debug, Drop)]
pub enum Verdict {
    /// No input that meets the condition makes the functions return differently.
    Equivalent {
        /// A family that couples them.
        coupled: Coupled,
        /// The indexes of the pairs from whose candidates the family is drawn.
        indexes: Items<u32>,
    },
    /// Both functions return on this input, differently.
    Different {
        /// The sample's index.
        index: u32,
        /// Its input: a value for each parameter.
        input: Items<i128>,
        /// What side A returns.
        first: i128,
        /// What side B returns.
        second: i128,
    },
    /// Neither was found.
    Unknown {
        /// Why each sample decides nothing, by its index.
        samples: Items<SampleWhy>,
        /// Why each of the twelve alignments has no coupling, in the order of their numbers.
        alignments: Items<Why>,
    },
}

fn copy_reasons(alloc: Global, reasons: &[Why]) -> Result<Items<Why>, AllocError>
    ensures { IfOk result (λ made. made ≡ reasons.now) }
{
    let mut made = Items::new(alloc);
    for why in reasons {
        made.push(why.copy(alloc)?)?;
    }
    Ok(made)
}

impl Why {
    /// The same reason again.
    pub fn copy(&self, alloc: Global) -> Result<Why, AllocError>
        ensures { IfOk result (λ made. made ≡ self.now) }
    {
        match self {
            Why::NoCoupling => Ok(Why::NoCoupling),
            Why::Product(limit) => Ok(Why::Product(*limit)),
            Why::AtObligation {
                obligation,
                left,
                limit,
            } => {
                let left = left.copy(alloc)?;
                Ok(Why::AtObligation {
                    obligation: *obligation,
                    left,
                    limit: *limit,
                })
            }
        }
    }
}

impl Verdict {
    /// The same verdict again.
    pub fn copy(&self, alloc: Global) -> Result<Verdict, AllocError>
        ensures { IfOk result (λ made. made ≡ self.now) }
    {
        match self {
            Verdict::Equivalent { coupled, indexes } => {
                let coupled = coupled.copy(alloc)?;
                let indexes = Items::from_slice(alloc, indexes.as_slice())?;
                Ok(Verdict::Equivalent { coupled, indexes })
            }
            Verdict::Different {
                index,
                input,
                first,
                second,
            } => {
                let input = Items::from_slice(alloc, input.as_slice())?;
                Ok(Verdict::Different {
                    index: *index,
                    input,
                    first: *first,
                    second: *second,
                })
            }
            Verdict::Unknown {
                samples,
                alignments,
            } => {
                let samples = Items::from_slice(alloc, samples.as_slice())?;
                let alignments = copy_reasons(alloc, alignments.as_slice())?;
                Ok(Verdict::Unknown {
                    samples,
                    alignments,
                })
            }
        }
    }
}
