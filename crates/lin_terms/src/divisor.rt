//! Greatest common divisors, and quotients that are rounded down.
ghost use Rattle.std.specs.Prelude.{◌≡◌, ◌<◌};
ghost use Rattle.std.specs.Int.{IsGcd};
ghost use Rattle.lin_terms.specs.Divisor.{gcd, gcd_of, IsGcdOf, floor_div};

/// The greatest common divisor, by Euclid's algorithm. Of 0 and 0 it is 0.
pub fn gcd(mut a: u128, mut b: u128) -> u128
    ensures exact { result ≡ gcd a b }
    ensures greatest { IsGcd a b result }
{
    // Most lists of numbers come to 1 soon, and then no number is divided any more.
    if a == 1 {
        return 1;
    }
    while b != 0 {
        let remainder = a % b;
        a = b;
        b = remainder;
    }
    a
}

/// The greatest common divisor of the entries' sizes: 0 where each entry is 0, and at most 2^63.
pub fn gcd_of(xs: &[i64]) -> u64
    ensures exact { result ≡ gcd_of xs.now }
    ensures greatest { IsGcdOf result xs.now }
{
    let mut g = 0;
    for x in xs {
        g = gcd(g, u128::from(x.unsigned_abs()));
    }
    g as u64
}

/// `x` over the divisor, rounded down. A divisor of 2^63 is fine, and so is `i64::MIN` over 1.
pub fn floor_div(x: i64, divisor: u64) -> i64
    requires { 0 < divisor }
    ensures { result ≡ floor_div x divisor }
{
    i128::from(x).div_euclid(i128::from(divisor)) as i64
}
