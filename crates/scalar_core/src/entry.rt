//! What the registers hold at the start of a run.

ghost use Rattle.std.specs.Prelude.{◌≡◌, ◌<◌, ℕ};
ghost use Rattle.scalar_core.specs.declared.entry.EntryValue.TheVariants.{Passed};
ghost use Rattle.scalar_core.specs.Entry.{entry_value as entry_value_of};

use crate::hart::EXIT;
use region_mem::STACK_END;

/// What a register holds at the start of a run.
#[derive(Clone, Copy, PartialEq)]
pub enum EntryValue {
    /// The number.
    Number(u32),
    /// What is passed at the place.
    Passed(usize),
}

/// What a register holds at the start of a run: ra (x1) [`EXIT`], sp (x2) [`STACK_END`], a0 to a7
/// (x10 to x17) what is passed at the eight places, and every other one 0.
#[tactic(auto, unfolding(crate::specs::Entry::entry_value))]
pub fn entry_value(register: u8) -> EntryValue
    ensures value { result ≡ entry_value_of register }
    ensures place { (place : ℕ) → result ≡ Passed place → place < 8 }
{
    if register == 1 {
        EntryValue::Number(EXIT)
    } else if register == 2 {
        EntryValue::Number(STACK_END)
    } else if 10 <= register && register < 18 {
        EntryValue::Passed(usize::from(register - 10))
    } else {
        EntryValue::Number(0)
    }
}
