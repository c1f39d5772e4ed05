//! What is known of a number, and what an instruction makes of the numbers that it reads.
ghost use Rattle.std.specs.Prelude.{◌≡◌};
ghost use Rattle.abs_domain.specs.Values.{computed_range as computed_range_of, known_of};
ghost use Rattle.abs_domain.specs.Values.{or_full as or_full_of};

use linear_facts::{Form, Range};
use std::marker::Model;

/// A number as far as it is known: it is the form's value modulo 2^32, and lies in the range.
#[derive(Drop)]
pub struct Value<'a> {
    pub form: &'a Form<8>,
    pub range: Range,
}

impl<'a> Model for Value<'a> {
    ghost use Rattle.abs_domain.specs.Values.{ValueView};

    ghost Value = { ValueView };

    ghost view = { λ a. record { form = a.form.now; range = a.range } };
}

/// What an instruction makes of its operands, as far as it is known.
#[derive(Drop)]
pub enum Effect {
    /// The form's value. Interval arithmetic gives the interval, where that stays within 32 bits.
    Computed {
        form: Form<16>,
        interval: Option<Range>,
    },
    /// A number with only its range known.
    Fresh {
        range: Range,
    },
    /// A number that is known already.
    Copied {
        form: Form<8>,
        range: Range,
    },
}

/// The one number of a range, if it has just one.
pub fn known(range: Range) -> Option<u32>
    ensures { result ≡ known_of range }
{
    if range.lo == range.hi {
        Some(range.lo)
    } else {
        None
    }
}

/// The range, or all numbers of 32 bits where there is none.
pub(crate) fn or_full(range: Option<Range>) -> Range
    ensures { result ≡ or_full_of range }
{
    match range {
        Some(range) => range,
        None => Range::FULL,
    }
}

/// The range of a computed number: the numbers in both the interval and the form's range, the interval where they have none
/// in common, and all numbers where there is neither.
#[tactic(auto, unfolding(crate::specs::Values::computed_range))]
pub fn computed_range(interval: Option<Range>, form_range: Option<Range>) -> Range
    ensures { result ≡ computed_range_of interval form_range }
{
    match interval {
        None => or_full(form_range),
        Some(interval) => match form_range {
            None => interval,
            Some(range) => interval.meet(&range).unwrap_or(interval),
        },
    }
}
