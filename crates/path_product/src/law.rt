//! The law of products, the contract of a function that does nothing. `specs/Laws.antt` states it.
ghost use Rattle.path_product.specs.Laws.{LawOfProducts};

/// Where the making of a product meets no limit, its nodes are those that clauses lead to from the
/// two entries, and the two exits; its clauses fit their nodes; and at each node but the two exits,
/// at all values there, both sides move exactly where some clause leads.
pub fn law_of_products()
    ensures { LawOfProducts }
{}
