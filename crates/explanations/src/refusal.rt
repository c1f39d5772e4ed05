//! What is refused, in a sentence, and behind it the lines of its reason.
use std::fmt;

/// An error and its reason. The text is the error's on a line of its own, and then the reason's lines.
#[derive(Drop)]
pub struct Refusal<E, R> {
    pub error: E,
    pub reason: R,
}

impl<E: fmt::Display, R: fmt::Display> fmt::Display for Refusal<E, R> {
    ghost use Rattle.explanations.specs.Refusal.{refusal_text};

    ghost output = { λ refusal. refusal_text (E.output refusal.error) (R.output refusal.reason) };

    fn fmt<W: fmt::Write>(&self, f: &mut fmt::Formatter<W>) -> fmt::Result {
        let Refusal { error, reason } = self;
        write!(f, "  {error}\n{reason}")
    }
}
