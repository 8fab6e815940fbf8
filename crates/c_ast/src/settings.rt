//! The numbers that bound a search, as the command line gives them.
ghost use Rattle.std.specs.Prelude.{◌≡◌, IsSome, IsTrue, IfSome, ◌↔◌};
ghost use Rattle.c_ast.specs.Bounds.{Bounds, AreBounds, bounds};

use std::marker::Model;

/// The greatest number of samples. The least is 1.
pub const MOST_SAMPLES: u32 = 1000;

/// The greatest number of marks that a run may pass. The least is 1.
pub const MOST_MARKS: u32 = 250;

/// The greatest number of rows that an elimination may keep. The least is 1.
pub const MOST_ROWS: u32 = 4000;

/// How much is tried: numbers within their ranges.
#[derive(Clone, Copy, Debug)]
pub struct Settings {
    samples: u32,
    marks: u32,
    rows: u32,
    seed: u64,
}

impl Model for Settings {
    ghost use Rattle.c_ast.specs.Bounds.{Bounds, AreBounds, bounds};

    ghost Value = { Bounds };

    ghost view = { λ s. bounds s.samples s.marks s.rows s.seed };

    ghost invariant = { λ s. AreBounds (bounds s.samples s.marks s.rows s.seed) };

    ghost inverse = { λ b. record {
      samples = b.samples;
      marks = b.marks;
      rows = b.rows;
      seed = b.seed;
    } };
}

impl Settings {
    /// The settings of these numbers; `None` where one of them is out of its range. Takes no
    /// memory.
    pub fn new(samples: u32, marks: u32, rows: u32, seed: u64) -> Option<Settings>
        ensures in_range { IsSome result ↔ AreBounds (bounds samples marks rows seed) }
        ensures settings { IfSome result (λ settings. settings ≡ bounds samples marks rows seed) }
    {
        let in_range = (1..=MOST_SAMPLES).contains(&samples)
            && (1..=MOST_MARKS).contains(&marks)
            && (1..=MOST_ROWS).contains(&rows);
        if in_range {
            Some(Settings {
                samples,
                marks,
                rows,
                seed,
            })
        } else {
            None
        }
    }

    /// How many inputs are sampled: 1 to 1,000.
    pub fn samples(&self) -> u32
        ensures number { result ≡ self.now.samples }
        ensures within { AreBounds self.now }
    {
        self.samples
    }

    /// How many marks a run may pass: 1 to 250.
    pub fn marks(&self) -> u32
        ensures number { result ≡ self.now.marks }
        ensures within { AreBounds self.now }
    {
        self.marks
    }

    /// How many rows an elimination may keep: 1 to 4,000.
    pub fn rows(&self) -> u32
        ensures number { result ≡ self.now.rows }
        ensures within { AreBounds self.now }
    {
        self.rows
    }

    /// What the words of later inputs are drawn from.
    pub fn seed(&self) -> u64
        ensures { result ≡ self.now.seed }
    {
        self.seed
    }

    /// Whether all numbers are equal.
    pub fn same(&self, other: &Settings) -> bool
        ensures { IsTrue result ↔ (self.now ≡ other.now) }
    {
        self.samples == other.samples
            && self.marks == other.marks
            && self.rows == other.rows
            && self.seed == other.seed
    }
}
