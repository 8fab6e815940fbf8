//! Why no form was made.
ghost use Rattle.std.specs.Prelude.{◌≡◌};

use std::alloc::AllocError;

/// Why a form or a row was not made.
#[derive(Clone, Copy, Debug, PartialEq, Eq)]
pub enum FormFault {
    /// An entry of it would reach 2^50 in size.
    WideForm,
    /// Memory ran out.
    Memory,
}

impl From<AllocError> for FormFault {
    ghost use Rattle.std.specs.Prelude.{◌≡◌};
    ghost use Rattle.lin_terms.specs.declared.fault.FormFault.TheVariants.{Memory};

    ghost from_gives = { λ _ fault. fault ≡ Memory };

    fn from(_: AllocError) -> FormFault {
        FormFault::Memory
    }
}

/// Why the product of two forms was not made.
#[derive(Clone, Copy, Debug, PartialEq, Eq)]
pub enum ProductFault {
    /// None of the two forms is constant.
    NonLinear,
    /// An entry of it would reach 2^50 in size.
    WideForm,
    /// Memory ran out.
    Memory,
}

impl From<FormFault> for ProductFault {
    ghost use Rattle.std.specs.Prelude.{◌≡◌};
    ghost use Rattle.lin_terms.specs.Makes.{product_fault_of};

    ghost from_gives = { λ fault why. why ≡ product_fault_of fault };

    fn from(fault: FormFault) -> ProductFault {
        match fault {
            FormFault::WideForm => ProductFault::WideForm,
            FormFault::Memory => ProductFault::Memory,
        }
    }
}
