//! The kinds of step on a board's words, with what each tells the pass that makes it.
ghost use Rattle.verdict_board.specs.Views.{first_view, spent_view, split_left, split_right, joined};
ghost use Rattle.verdict_board.specs.Told.{Looked, DrewSample, DrewAlignment, Raised, Learned};

use crate::view::{Limits, View};
use atomic_table::{Join, Play, Split, TableRule};

/// What holds of the words and of all views, between any two steps.
pub struct Fair;

impl TableRule<u8, View, Limits> for Fair {
    ghost use Rattle.verdict_board.specs.Rule.{Holds};

    ghost holds = { Holds };

    ghost first = { λ key. first_view key.samples key.alignments key.passes };
}

/// A load of the stop.
pub struct Looks;

impl Play<u8, View> for Looks {
    ghost then = { λ s. Looked };
}

/// 1 is added to the ticket of samples.
pub struct DrawsSample;

impl Play<u8, View> for DrawsSample {
    ghost then = { λ s. DrewSample };
}

/// 1 is added to the ticket of alignments.
pub struct DrawsAlignment;

impl Play<u8, View> for DrawsAlignment {
    ghost then = { λ s. DrewAlignment };
}

/// The stop becomes 1 where it was 0.
pub struct Raises;

impl Play<u8, View> for Raises {
    ghost then = { λ s. Raised };
}

/// A load that changes nothing, and tells what the pass now knows.
pub struct Learns;

impl Play<u8, View> for Learns {
    ghost then = { λ s. Learned };
}

/// A new pass is cut off.
pub struct Halves;

impl Split<View> for Halves {
    ghost left = { split_left };

    ghost right = { split_right };
}

/// One pass takes in another.
pub struct Both;

impl Join<View> for Both {
    ghost both = { joined };

    ghost spent = { spent_view };
}
