//! Lists of coefficients of which at most four are not 0, held by the places of these four.
ghost use Rattle.std.specs.Prelude.{◌≡◌, ◌+◌, ◌<◌, ◌≤◌, ◌^◌, ◌*ℤ◌, unsigned_abs};
ghost use Rattle.c_ast.specs.FitsRun.{FitsRun};
ghost use Rattle.miners.specs.Mined.{are_few, sizes};
ghost use Rattle.miners.specs.Sparse.{coef_of, is_zero, is_negative, ones_in, twos_in, ones_of, twos_of, Places, GoesOn, IsFree, can_follow, is_done};

/// A coefficient of the template.
#[derive(Clone, Copy, Debug, PartialEq, Eq)]
pub enum Coef {
    Two,
    One,
    Zero,
    MinusOne,
    MinusTwo,
}

/// A coefficient, and the number of the value that it is of.
#[derive(Clone, Copy, Debug, PartialEq, Eq)]
pub struct Term {
    pub index: u8,
    pub coef: Coef,
}

/// The coefficients that are not 0. A term whose coefficient is 0 is free.
#[derive(Clone, Copy, Debug, PartialEq, Eq)]
pub struct Shape {
    pub first: Term,
    pub second: Term,
    pub third: Term,
    pub fourth: Term,
}

/// What the coefficients are of.
#[derive(Clone, Copy, Debug, PartialEq, Eq)]
pub enum Kind {
    /// An equality.
    Equality,
    /// A bound: the first term is its 1, and the second its -1.
    Bound,
}

/// A free term.
const FREE: Term = Term {
    index: 0,
    coef: Coef::Zero,
};

impl Coef {
    /// The coefficient as a number.
    pub fn value(self) -> i64
        ensures { result ≡ coef_of self }
    {
        match self {
            Coef::Two => 2,
            Coef::One => 1,
            Coef::Zero => 0,
            Coef::MinusOne => -1,
            Coef::MinusTwo => -2,
        }
    }

    /// The value, times the coefficient.
    pub fn times(self, value: &i128) -> i128
        requires { FitsRun value.now }
        ensures product { result ≡ coef_of self *ℤ value.now }
        ensures below { unsigned_abs result < 2 ^ 101 }
    {
        match self {
            Coef::Two => *value + *value,
            Coef::One => *value,
            Coef::Zero => 0,
            Coef::MinusOne => -*value,
            Coef::MinusTwo => -(*value + *value),
        }
    }

    fn is_zero(self) -> bool
        ensures { result ≡ is_zero self }
    {
        match self {
            Coef::Zero => true,
            _ => false,
        }
    }

    fn is_negative(self) -> bool
        ensures { result ≡ is_negative self }
    {
        match self {
            Coef::MinusOne | Coef::MinusTwo => true,
            _ => false,
        }
    }

    fn ones(self) -> u8
        ensures ones { result ≡ ones_in self }
        ensures few { result ≤ 1 }
    {
        match self {
            Coef::One | Coef::MinusOne => 1,
            _ => 0,
        }
    }

    fn twos(self) -> u8
        ensures twos { result ≡ twos_in self }
        ensures few { result ≤ 1 }
    {
        match self {
            Coef::Two | Coef::MinusTwo => 1,
            _ => 0,
        }
    }
}

/// Whether an equality has as many coefficients of size 1 and of size 2.
fn are_few(ones: u8, twos: u8) -> bool
    requires { ones + twos ≤ 10 }
    ensures { result ≡ are_few (sizes ones twos) }
{
    ones + twos <= 3 || ones == 4 && twos == 0
}

/// Whether the coefficient, which is not 0, may come after as many of size 1 and of size 2.
fn can_follow(coef: Coef, ones: u8, twos: u8) -> bool
    requires few_ones { ones ≤ 4 }
    requires few_twos { twos ≤ 4 }
    ensures { result ≡ can_follow coef (sizes ones twos) }
{
    let begins = ones + twos == 0;
    !(coef.is_negative() && begins) && are_few(coef.ones() + ones, coef.twos() + twos)
}

impl Shape {
    /// The shape whose coefficients are all 0.
    pub fn empty() -> Shape
        ensures { IsFree result }
    {
        Shape {
            first: FREE,
            second: FREE,
            third: FREE,
            fourth: FREE,
        }
    }

    #[tactic(auto, unfolding(crate::specs::Sparse::ones_of))]
    fn ones(&self) -> u8
        ensures ones { result ≡ ones_of self.now }
        ensures few { result ≤ 4 }
    {
        self.first.coef.ones()
            + (self.second.coef.ones() + (self.third.coef.ones() + self.fourth.coef.ones()))
    }

    #[tactic(auto, unfolding(crate::specs::Sparse::twos_of))]
    fn twos(&self) -> u8
        ensures twos { result ≡ twos_of self.now }
        ensures few { result ≤ 4 }
    {
        self.first.coef.twos()
            + (self.second.coef.twos() + (self.third.coef.twos() + self.fourth.coef.twos()))
    }

    /// The shape with the term in place of its first free one.
    fn placed(&self, term: Term) -> Shape
        requires { ones_of self.now + twos_of self.now < 4 }
        ensures { Places self.now term.index term.coef result }
    {
        let shape = *self;
        if shape.first.coef.is_zero() {
            return Shape {
                first: term,
                ..shape
            };
        }
        if shape.second.coef.is_zero() {
            return Shape {
                second: term,
                ..shape
            };
        }
        if shape.third.coef.is_zero() {
            return Shape {
                third: term,
                ..shape
            };
        }
        Shape {
            fourth: term,
            ..shape
        }
    }

    fn go_on_equality(&self, term: Term) -> Option<Shape>
        ensures { GoesOn Kind.Equality self.now term.index term.coef result }
    {
        if term.coef.is_zero() {
            return Some(*self);
        }
        if can_follow(term.coef, self.ones(), self.twos()) {
            Some(self.placed(term))
        } else {
            None
        }
    }

    fn go_on_plus(&self, term: Term) -> Option<Shape>
        requires { term.coef ≡ Coef.One }
        ensures { GoesOn Kind.Bound self.now term.index term.coef result }
    {
        let shape = *self;
        if shape.first.coef.is_zero() {
            Some(Shape {
                first: term,
                ..shape
            })
        } else {
            None
        }
    }

    fn go_on_minus(&self, term: Term) -> Option<Shape>
        requires { term.coef ≡ Coef.MinusOne }
        ensures { GoesOn Kind.Bound self.now term.index term.coef result }
    {
        let shape = *self;
        if shape.second.coef.is_zero() {
            Some(Shape {
                second: term,
                ..shape
            })
        } else {
            None
        }
    }

    fn go_on_bound(&self, term: Term) -> Option<Shape>
        ensures { GoesOn Kind.Bound self.now term.index term.coef result }
    {
        match term.coef {
            Coef::Zero => Some(*self),
            Coef::One => self.go_on_plus(term),
            Coef::MinusOne => self.go_on_minus(term),
            Coef::Two | Coef::MinusTwo => None,
        }
    }

    /// The shape with one more coefficient, where it may have it there.
    pub fn go_on(&self, kind: Kind, term: Term) -> Option<Shape>
        ensures { GoesOn kind self.now term.index term.coef result }
    {
        match kind {
            Kind::Equality => self.go_on_equality(term),
            Kind::Bound => self.go_on_bound(term),
        }
    }

    fn is_coprime(&self) -> bool
        ensures { result ≡ is_done Kind.Equality self.now }
    {
        self.ones() >= 1
    }

    fn is_any(&self) -> bool
        ensures { result ≡ is_done Kind.Bound self.now }
    {
        !self.first.coef.is_zero() || !self.second.coef.is_zero()
    }

    /// Whether the coefficients are a whole list of the kind.
    pub fn is_done(&self, kind: Kind) -> bool
        ensures { result ≡ is_done kind self.now }
    {
        match kind {
            Kind::Equality => self.is_coprime(),
            Kind::Bound => self.is_any(),
        }
    }
}
