//! The twelve alignments, numbered from 1. Each has four counts: at the entries the sides take 1
//! + p and 1 + q segments, and at one mark a and b.
ghost use Rattle.std.specs.Prelude.{◌≡◌, ◌<◌, ◌≤◌, ◌↔◌, ◌∷◌, []};
ghost use Rattle.alignment.specs.Counts.{at_marks};

use c_ast::Place;
use std::marker::Model;

/// p, q, a and b of each alignment, in their order.
#[rattlefmt::skip]
const ROWS: [(u32, u32, u32, u32); 12] = [
    (0, 0, 1, 1),
    (1, 0, 1, 1),
    (0, 1, 1, 1),
    (2, 0, 1, 1),
    (0, 2, 1, 1),
    (1, 1, 1, 1),
    (0, 0, 2, 1),
    (0, 0, 1, 2),
    (1, 0, 2, 1),
    (0, 1, 1, 2),
    (0, 0, 3, 1),
    (0, 0, 1, 3),
];

/// One of the twelve alignments. Contracts see its number, 1 to 12.
#[derive(Clone, Copy, Debug, PartialEq, Eq)]
pub struct Alignment {
    number: u32,
}

impl Model for Alignment {
    ghost use Rattle.std.specs.Prelude.{ℕ};
    ghost use Rattle.std.specs.Coded.{coded_ℕ};
    ghost use Rattle.alignment.specs.Number.{IsAlignment};

    ghost Value = { ℕ };

    ghost coded = { coded_ℕ };

    ghost view = { λ a. a.number };

    ghost invariant = { λ a. IsAlignment a.number };

    ghost inverse = { λ number. record { number = number } };
}

fn at_marks(counts: (u32, u32, u32, u32), first: u32, second: u32) -> (u32, u32)
    ensures { result ≡ at_marks counts first second }
{
    if first == second {
        (counts.2, counts.3)
    } else if first < second {
        (1, 0)
    } else {
        (0, 1)
    }
}

impl Alignment {
    ghost use Rattle.alignment.specs.Number.{IsAlignment};
    ghost use Rattle.alignment.specs.Counts.{counts_of, counts_at};

    /// The twelve, in the order of their numbers.
    pub fn named() -> [Alignment; 12]
        ensures { result ≡ 1 ∷ 2 ∷ 3 ∷ 4 ∷ 5 ∷ 6 ∷ 7 ∷ 8 ∷ 9 ∷ 10 ∷ 11 ∷ 12 ∷ [] }
    {
        [
            Alignment { number: 1 },
            Alignment { number: 2 },
            Alignment { number: 3 },
            Alignment { number: 4 },
            Alignment { number: 5 },
            Alignment { number: 6 },
            Alignment { number: 7 },
            Alignment { number: 8 },
            Alignment { number: 9 },
            Alignment { number: 10 },
            Alignment { number: 11 },
            Alignment { number: 12 },
        ]
    }

    /// Its number, 1 to 12.
    pub fn number(&self) -> u32
        ensures number { result ≡ self.now }
        ensures named { IsAlignment result }
    {
        self.number
    }

    /// Its counts p, q, a and b.
    pub fn counts(&self) -> (u32, u32, u32, u32)
        ensures counts { result ≡ counts_of self.now }
        ensures few_first { result.0 ≤ 2 }
        ensures few_second { result.1 ≤ 2 }
        ensures some_at_marks { (0 < result.2) × (0 < result.3) }
        ensures named { IsAlignment self.now }
    {
        ROWS[self.number as usize - 1]
    }

    /// How many segments each side takes where the first function is at `first` and the second at
    /// `second`.
    pub fn moves(&self, first: Place, second: Place) -> (u32, u32)
        requires { (first ≡ Place.Entry) ↔ (second ≡ Place.Entry) }
        ensures counts { result ≡ counts_at (counts_of self.now) first second }
        ensures few_first { result.0 ≤ 3 }
        ensures few_second { result.1 ≤ 3 }
        ensures named { IsAlignment self.now }
    {
        let counts = self.counts();
        match (first, second) {
            (Place::Entry, _) => (1 + counts.0, 1 + counts.1),
            (Place::Mark(j), Place::Mark(k)) => at_marks(counts, j, k),
            (Place::Exit, Place::Exit) => (0, 0),
            (Place::Exit, _) => (0, 1),
            (_, _) => (1, 0),
        }
    }
}
