//! Why an image is refused with its certificate: what stands there, what was known, and what is wanted.
//!
//! A reason is a value, whose text is one or more lines. Each line begins with two spaces and ends in a newline.
#![tactic(auto)]

mod access;
mod check;
mod edge;
mod gaps;
mod groups;
mod illegal;
mod rules;
mod spans;
mod sums;
mod unshown;
mod vtypes;

pub use access::{Access, Apart, Elements, Operand};
pub use check::{CheckReason, Wanted, check_reason, reason_of};
pub use edge::{Edge, Entered, Left, Source};
pub use gaps::Gap;
pub use illegal::{Group, Illegal, operands_in};
pub use rules::{Role, Rule};
pub use sums::Sum;
pub use unshown::{Number, Unshown};
pub use vtypes::HeldVtype;
