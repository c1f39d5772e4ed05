//! Why an image is not accepted.
ghost use Rattle.std.specs.Prelude.{◌≡◌};
ghost use Rattle.block_checker.specs.Refusals.{IsAt, address_of, name_of, refusal, words_of};

use abs_state::Why;
use region_mem::Digits;
use std::error::Error;
use std::fmt;

/// Why an image is not accepted with its certificate: the first fault of a check, in the order in which it looks. Where an
/// error carries an address, it is that of the word at which the check stopped. `NoMemory` alone says nothing of the image.
#[derive(Clone, Copy, Debug, PartialEq, Eq)]
pub enum CheckError {
    /// The certificate is for vector registers of another length.
    WrongVlen,
    /// No block begins at the image's entry.
    NoEntryBlock,
    /// The four bytes at the address do not lie in one segment that may be executed.
    NotCode(u32),
    /// The word means nothing, or is not legal where it stands.
    IllegalWord(u32),
    /// The word is legal at some vector types only, and the vector type is not known; or the next block states a vector
    /// type that is not known to be the one.
    VtypeUnknown(u32),
    /// The bytes of an access may lie outside every zone of memory with the right.
    AccessNotProved(u32),
    /// The bytes of a store lie in a zone of memory that may not be written.
    ReadOnly(u32),
    /// The word may lead to an address where no block begins, and which is not the end of a run.
    TargetNotABlock(u32),
    /// A register, or vl, may lie outside the interval that the next block states.
    IntervalNotProved(u32),
    /// A register, or vl, may differ from the sum that the next block states.
    EqualityNotProved(u32),
    /// The order of two registers that the next block states may not hold.
    OrderNotProved(u32),
    /// A fact on vector registers that the next block states may not hold.
    VectorFactNotProved(u32),
    /// The budget of the block may be too small for the instructions taken and for the next block's budget.
    BudgetNotProved(u32),
    /// The block has more than 4,096 instructions: the address is that of the next one.
    BlockTooLong(u32),
    /// An allocation was refused.
    NoMemory,
}

impl CheckError {
    /// The error's name, as it stands above, without its address.
    pub fn name(self) -> &'static str
        ensures { result.now ≡ name_of self }
    {
        match self {
            CheckError::WrongVlen => "WrongVlen",
            CheckError::NoEntryBlock => "NoEntryBlock",
            CheckError::NotCode(_) => "NotCode",
            CheckError::IllegalWord(_) => "IllegalWord",
            CheckError::VtypeUnknown(_) => "VtypeUnknown",
            CheckError::AccessNotProved(_) => "AccessNotProved",
            CheckError::ReadOnly(_) => "ReadOnly",
            CheckError::TargetNotABlock(_) => "TargetNotABlock",
            CheckError::IntervalNotProved(_) => "IntervalNotProved",
            CheckError::EqualityNotProved(_) => "EqualityNotProved",
            CheckError::OrderNotProved(_) => "OrderNotProved",
            CheckError::VectorFactNotProved(_) => "VectorFactNotProved",
            CheckError::BudgetNotProved(_) => "BudgetNotProved",
            CheckError::BlockTooLong(_) => "BlockTooLong",
            CheckError::NoMemory => "NoMemory",
        }
    }

    /// The address that the error carries: that of the word at which the check stopped.
    pub fn address(self) -> Option<u32>
        ensures { result ≡ address_of self }
    {
        match self {
            CheckError::WrongVlen | CheckError::NoEntryBlock | CheckError::NoMemory => None,
            CheckError::NotCode(pc)
            | CheckError::IllegalWord(pc)
            | CheckError::VtypeUnknown(pc)
            | CheckError::AccessNotProved(pc)
            | CheckError::ReadOnly(pc)
            | CheckError::TargetNotABlock(pc)
            | CheckError::IntervalNotProved(pc)
            | CheckError::EqualityNotProved(pc)
            | CheckError::OrderNotProved(pc)
            | CheckError::VectorFactNotProved(pc)
            | CheckError::BudgetNotProved(pc)
            | CheckError::BlockTooLong(pc) => Some(pc),
        }
    }

    /// What is wrong, in words. The address, if there is one, follows them.
    fn words(self) -> &'static str
        ensures { result.now ≡ words_of self }
    {
        match self {
            CheckError::WrongVlen => "the certificate is for another vector length",
            CheckError::NoEntryBlock => "no block begins at the entry",
            CheckError::NotCode(_) => "no code",
            CheckError::IllegalWord(_) => Why::IllegalWord.words(),
            CheckError::VtypeUnknown(_) => "the vector type is not known to be as wanted",
            CheckError::AccessNotProved(_) => Why::AccessNotProved.words(),
            CheckError::ReadOnly(_) => Why::ReadOnly.words(),
            CheckError::TargetNotABlock(_) => Why::TargetNotABlock.words(),
            CheckError::IntervalNotProved(_) => Why::IntervalNotProved.words(),
            CheckError::EqualityNotProved(_) => Why::EqualityNotProved.words(),
            CheckError::OrderNotProved(_) => Why::OrderNotProved.words(),
            CheckError::VectorFactNotProved(_) => Why::VectorFactNotProved.words(),
            CheckError::BudgetNotProved(_) => Why::BudgetNotProved.words(),
            CheckError::BlockTooLong(_) => "a block is too long",
            CheckError::NoMemory => "out of memory",
        }
    }
}

/// What could not be proved, at the word at this address.
pub(crate) fn told(why: Why, pc: u32) -> CheckError
    ensures value { result ≡ refusal why pc }
    ensures at { IsAt pc result }
{
    match why {
        Why::IllegalWord => CheckError::IllegalWord(pc),
        Why::VtypeUnknown => CheckError::VtypeUnknown(pc),
        Why::AccessNotProved => CheckError::AccessNotProved(pc),
        Why::ReadOnly => CheckError::ReadOnly(pc),
        Why::TargetNotABlock => CheckError::TargetNotABlock(pc),
        Why::IntervalNotProved => CheckError::IntervalNotProved(pc),
        Why::EqualityNotProved => CheckError::EqualityNotProved(pc),
        Why::OrderNotProved => CheckError::OrderNotProved(pc),
        Why::VectorFactNotProved => CheckError::VectorFactNotProved(pc),
        Why::BudgetNotProved => CheckError::BudgetNotProved(pc),
    }
}

impl fmt::Display for CheckError {
    ghost use Rattle.std.specs.Prelude.{Some};
    ghost use Rattle.block_checker.specs.Refusals.{error_text};

    ghost output = { λ error. Some (error_text error) };

    fn fmt<W: fmt::Write>(&self, f: &mut fmt::Formatter<W>) -> fmt::Result {
        let words = self.words();
        match self.address() {
            Some(pc) => write!(f, "{words} at {}", Digits(u64::from(pc))),
            None => f.write_str(words),
        }
    }
}

impl Error for CheckError {}
