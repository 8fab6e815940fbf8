//! Linear forms over the variables of a place, `coefs · v + constant`, and rows, which say of one
//! that it is 0 or at least 0.
//!
//! Forms are made exactly or not at all: a form that has an entry of 2^50 or more in size is
//! refused. What a form's value is, and which form a sum, a product or a form over forms is, stands
//! in `specs/Form.antt`, over integers of any size. When a row holds, and which shapes lists of
//! rows have, stands in `specs/Row.antt`, which row is tight in `specs/Tight.antt`, and which row
//! says the sign of a form in `specs/Sign.antt`. What other crates' proofs may cite are the laws of
//! `specs/Laws.antt`.
#![tactic(auto)]

mod divisor;
mod fault;
mod form;
mod law;
mod over;
mod point;
mod products;
mod row;
mod sign;
#[cfg(test)]
mod tests;

pub use divisor::gcd;
pub use fault::{FormFault, ProductFault};
pub use form::{
    Form, WIDE_FORM, add, are_fitting_forms, constant_form, difference, fits_form, is_fitting_form,
    scale, variable_form,
};
pub use law::{
    law_of_divisors, law_of_dots, law_of_forms, law_of_rows, law_of_signs, law_of_tight_rows,
    law_of_values, law_of_vectors,
};
pub use over::{coef_over, compose, constant_over};
pub use point::Point;
pub use products::product;
pub use row::{
    MOST_ROWS, Row, WIDE_ROW, are_fitting_multipliers, are_fitting_rows, columns_of,
    have_one_length, is_fitting_row, never_row, tight,
};
pub use sign::{Sign, tight_row};
