//! Workers find what two functions have in common, or where they differ.
//!
//! What all alignments share is made once (`ground`). Under an alignment the greatest linear family
//! of the candidates is searched (`search`): it couples the functions, or the alignment is refused
//! for a reason. `specs/Found.antt` says what a search finds. One worker alone takes the samples in
//! order and then the alignments (`alone`), and `specs/Solved.antt` says what is solved.
#![tactic(auto)]

mod alone;
mod ground;
mod search;
mod solved;

pub use alone::solve_alone;
pub use search::Found;
pub use solved::Solved;
