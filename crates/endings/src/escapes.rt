//! Words of the user, told to a sink: a control character by its code.
ghost use Rattle.std.specs.Prelude.{◌≡◌, ◌<◌, ◌++◌, codes, false};
ghost use Rattle.std.specs.Fmt.{digit_glyph, digits};
ghost use Rattle.job_reasons.specs.Escaped.{escaped_text, shown_text};
ghost use Rattle.rv_listing.specs.Sinks.{Told};

use rv_listing::{Failed, Sink, put};

/// A digit of base 16.
fn digit(value: u8) -> u8
    requires { value < 16 }
    ensures { result ≡ digit_glyph false value }
{
    if value < 10 {
        b'0' + value
    } else {
        b'a' + (value - 10)
    }
}

/// Tells a control character by its code, as `\u{1b}`.
fn put_code<S: Sink>(code: u8, out: &mut S) -> Result<(), Failed>
    ensures { Told result (S.contents out.old) (S.contents out.new)
        (S.failures out.old) (S.failures out.new)
        (codes "\\u{" ++ (digits 16 false code ++ codes "}")) }
{
    if code < 16 {
        put(out, &[b'\\', b'u', b'{', digit(code), b'}'])
    } else {
        let (high, low) = (digit(code / 16), digit(code % 16));
        put(out, &[b'\\', b'u', b'{', high, low, b'}'])
    }
}

/// Tells a character.
fn put_char<S: Sink>(c: char, out: &mut S) -> Result<(), Failed>
    ensures { Told result (S.contents out.old) (S.contents out.new)
        (S.failures out.old) (S.failures out.new) (shown_text c) }
{
    if c.is_control() {
        put_code(c as u8, out)
    } else {
        let mut bytes = [0u8; 4];
        put(out, c.encode_utf8(&mut bytes).as_bytes())
    }
}

/// Tells a text of the user, in which control characters are told by their codes.
pub fn put_escaped<S: Sink>(text: &str, out: &mut S) -> Result<(), Failed>
    ensures { Told result (S.contents out.old) (S.contents out.new)
        (S.failures out.old) (S.failures out.new) (escaped_text text.now) }
{
    for c in text.chars() {
        put_char(c, out)?;
    }
    Ok(())
}
