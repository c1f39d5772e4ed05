//! Linear forms over unknown numbers, and the ranges in which their values lie.
//!
//! A form is a constant and terms, each a coefficient times an atom: an unknown number that is known by its number
//! alone. What a form means is a number modulo 2^32, as registers of 32 bits hold it.
#![tactic(auto)]

mod differences;
mod forms;
mod laws;
mod loops;
mod ranges;
mod sums;

pub use differences::{Multiple, is_at_least, is_not_less};
pub use forms::{Form, Term};
pub use laws::{
    agree_below, forms_stay_below, multiples_stay_below, orders_hold, ranges_fit,
    substitutions_stay_below, sums_stay_below,
};
pub use loops::{
    atom_range, left_range, moved_range, number_range, pointer_range, round_paid, same_paid,
};
pub use ranges::{Atom, Atoms, Change, End, Range, Split};
