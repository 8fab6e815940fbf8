//! Exact division: a multiple of a number over the number.

/// A number that divides what it is asked to divide. Modulo 2^128 a quotient by an odd number is a
/// product with the number's inverse, and one by a power of two is a shift (Jebelean 1993).
#[derive(Drop)]
pub struct Divisor {
    shift: u32,
    inverse: i128,
}

/// The inverse of an odd number modulo 2^128. Of the first guess three bits are right, since the
/// square of an odd number is 1 modulo 8; each step doubles that (Newton).
fn inverse_of(odd: i128) -> i128 {
    let mut inverse = odd;
    for _ in 0..6 {
        inverse = inverse.wrapping_mul(2i128.wrapping_sub(odd.wrapping_mul(inverse)));
    }
    inverse
}

impl Divisor {
    /// Its powers of two apart, and the inverse of what is left modulo 2^128.
    pub fn new(divisor: i128) -> Divisor {
        let shift = divisor.trailing_zeros();
        let inverse = inverse_of(divisor.wrapping_shr(shift));
        Divisor { shift, inverse }
    }

    /// A multiple of the divisor over the divisor.
    #[inline(always)]
    pub fn quotient(&self, multiple: i128) -> i128 {
        multiple.wrapping_shr(self.shift).wrapping_mul(self.inverse)
    }
}
