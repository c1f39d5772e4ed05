//! Intervals as they are told, and that of vl.

use explanations::Address;
use linear_facts::Range;
use std::fmt;

/// The numbers from one to another, as addresses.
#[derive(Clone, Copy)]
pub(crate) struct Span(pub(crate) Range);

impl fmt::Display for Span {
    ghost use Rattle.std.specs.Prelude.{Some};
    ghost use Rattle.check_reasons.specs.Spans.{span_text};

    ghost output = { λ span. Some (span_text span.0) };

    fn fmt<W: fmt::Write>(&self, f: &mut fmt::Formatter<W>) -> fmt::Result {
        let low = Address(u64::from(self.0.lo));
        let high = Address(u64::from(self.0.hi));
        write!(f, "{low}..={high}")
    }
}

/// What is known of vl, as a line.
#[derive(Clone, Copy)]
pub(crate) struct VlLine(pub(crate) Range);

impl fmt::Display for VlLine {
    ghost use Rattle.std.specs.Prelude.{Some};
    ghost use Rattle.check_reasons.specs.Spans.{vl_line};

    ghost output = { λ line. Some (vl_line line.0) };

    fn fmt<W: fmt::Write>(&self, f: &mut fmt::Formatter<W>) -> fmt::Result {
        let vl = Span(self.0);
        writeln!(f, "  known: vl in {vl}")
    }
}
