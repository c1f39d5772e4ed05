//! Why a step of a check was refused.
ghost use Rattle.std.specs.Prelude.{◌≡◌};
ghost use Rattle.abs_domain.specs.Why.{why_text};

use std::error::Error;
use std::fmt;

/// What could not be proved of a word of code, or of the way from one word to the next.
#[derive(Clone, Copy, Debug, PartialEq, Eq)]
pub enum Why {
    /// The word means nothing, or is not legal where it stands.
    IllegalWord,
    /// The word is legal at some vector types only, and the vector type is not known.
    VtypeUnknown,
    /// The bytes of an access may lie outside every zone with the right.
    AccessNotProved,
    /// The bytes of a store lie in a zone that may not be written.
    ReadOnly,
    /// A jump may lead to an address where no block begins.
    TargetNotABlock,
    /// A register's interval of the next block may not hold.
    IntervalNotProved,
    /// A register's equality of the next block may not hold.
    EqualityNotProved,
    /// An order of two registers of the next block may not hold.
    OrderNotProved,
    /// A fact on vector registers of the next block may not hold.
    VectorFactNotProved,
    /// The next block's budget may be larger than what is left of this block's.
    BudgetNotProved,
}

impl Why {
    /// What could not be proved, in words.
    pub fn words(self) -> &'static str
        ensures { result.now ≡ why_text self }
    {
        match self {
            Why::IllegalWord => "no legal instruction",
            Why::VtypeUnknown => "the vector type is not known",
            Why::AccessNotProved => "an access is not proved",
            Why::ReadOnly => "a store to read-only memory",
            Why::TargetNotABlock => "a target is no block",
            Why::IntervalNotProved => "an interval is not proved",
            Why::EqualityNotProved => "an equality is not proved",
            Why::OrderNotProved => "an order is not proved",
            Why::VectorFactNotProved => "a vector fact is not proved",
            Why::BudgetNotProved => "a budget is not proved",
        }
    }
}

impl fmt::Display for Why {
    ghost use Rattle.std.specs.Prelude.{Some};
    ghost use Rattle.abs_domain.specs.Why.{why_text};

    ghost output = { λ why. Some (why_text why) };

    fn fmt<W: fmt::Write>(&self, f: &mut fmt::Formatter<W>) -> fmt::Result {
        f.write_str(self.words())
    }
}

impl Error for Why {}
