//! Laws of refutations, over the definitions alone. Each is the contract of a call that does
//! nothing. They speak of rows and multipliers of any number and size.
ghost use Rattle.farkas_check.specs.Laws.{AlikeRowsAreRefuted, IdleRowsChangeNothing, MoreRowsAreRefutable, RefutableRowsHaveNoPoint, RefutableRowsHaveNoIntegerPoint};

/// Rows that some multipliers refute have no point. (The half of Farkas' lemma that makes the check
/// sound.)
pub fn refutable_rows_have_no_point()
    ensures fractions { RefutableRowsHaveNoPoint }
    ensures whole_numbers { RefutableRowsHaveNoIntegerPoint }
{}

/// Multipliers refute rows as well when another row stands among them that is taken 0 times, and
/// when it is left out again; and columns of zeros change nothing.
pub fn law_of_idle_rows()
    ensures idle { IdleRowsChangeNothing }
    ensures more { MoreRowsAreRefutable }
    ensures alike { AlikeRowsAreRefuted }
{}
