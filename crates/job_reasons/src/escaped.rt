//! Words of the user, as they are told: a control character by its code.
ghost use Rattle.std.specs.Fmt.{WritesOnOk};
ghost use Rattle.job_reasons.specs.Escaped.{escaped_text};

use std::fmt;

/// A character. A control character is written as its code.
#[derive(Clone, Copy)]
struct Shown(char);

impl fmt::Display for Shown {
    ghost use Rattle.std.specs.Prelude.{Some};
    ghost use Rattle.job_reasons.specs.Escaped.{shown_text};

    ghost output = { λ shown. Some (shown_text shown.0) };

    fn fmt<W: fmt::Write>(&self, f: &mut fmt::Formatter<W>) -> fmt::Result {
        let c = self.0;
        if c.is_control() {
            let code = c as u32;
            write!(f, "\\u{{{code:x}}}")
        } else {
            f.write_char(c)
        }
    }
}

/// A text of the user, in which control characters are told by their codes, as `\u{1b}`.
#[derive(Clone, Copy)]
pub struct Escaped<'a>(pub &'a str);

impl fmt::Display for Escaped<'_> {
    ghost use Rattle.std.specs.Prelude.{Some};
    ghost use Rattle.job_reasons.specs.Escaped.{escaped_text};

    ghost output = { λ escaped. Some (escaped_text escaped.0.now) };

    fn fmt<W: fmt::Write>(&self, f: &mut fmt::Formatter<W>) -> fmt::Result {
        write_escaped(self.0, f)
    }
}

/// Writes the characters of a text in turn.
fn write_escaped<W: fmt::Write>(text: &str, f: &mut fmt::Formatter<W>) -> fmt::Result
    ensures { WritesOnOk W.write_str_gives f.old result (escaped_text text.now) f.new }
{
    for c in text.chars() {
        let shown = Shown(c);
        write!(f, "{shown}")?;
    }
    Ok(())
}
