//! Laws of the definitions, each on a function that does nothing.

ghost use Rattle.std.specs.Prelude.{◌≡◌};
ghost use Rattle.scalar_core.specs.declared.hart.TheConstants.{EXIT};
ghost use Rattle.scalar_core.specs.Laws.{DividesSigned, DividesUnsigned, StepsKeepHarts};

/// A step leads from a hart's state to a hart's state.
pub fn steps_keep_harts()
    ensures { StepsKeepHarts }
{}

/// div and rem are division with remainder, with the M extension's answers where the divisor is 0 and where the quotient
/// overflows; so are divu and remu.
pub fn division_with_remainder()
    ensures signed { DividesSigned }
    ensures unsigned { DividesUnsigned }
{}

/// The address that ends a run, in numbers.
pub fn exit_in_numbers()
    ensures { EXIT ≡ 0xFFFF_FFF0 }
{}
