//! Numbers, as they are typed.

ghost use Rattle.std.specs.Prelude.{◌≡◌, ◌≤◌};
ghost use Rattle.monitor.specs.Numbers.{address_of, aligned_of, count_of, number_of, register_of};
ghost use Rattle.monitor.specs.Numbers.{spelled};

use rv_decode::Reg;

/// What at most `most` digits of a base spell, where it is below 2^32.
fn number_in(radix: u32, most: usize, word: &str) -> Option<u32>
    requires least { 2 ≤ radix }
    requires most { radix ≤ 36 }
    ensures { result ≡ spelled radix most word.now }
{
    if word.len() > most || word.starts_with('+') {
        return None;
    }
    u32::from_str_radix(word, radix).ok()
}

/// An address: one to eight digits of base 16.
pub(crate) fn address(word: &str) -> Option<u32>
    ensures { result ≡ address_of word.now }
{
    number_in(16, 8, word)
}

/// A number: one to ten decimal digits.
pub(crate) fn number(word: &str) -> Option<u32>
    ensures { result ≡ number_of word.now }
{
    number_in(10, 10, word)
}

/// An address of an instruction.
pub(crate) fn aligned(word: &str) -> Option<u32>
    ensures { result ≡ aligned_of word.now }
{
    match address(word) {
        Some(address) if address % 4 == 0 => Some(address),
        Some(_) | None => None,
    }
}

/// A register's number.
pub(crate) fn register(word: &str) -> Option<Reg>
    ensures { result ≡ register_of word.now }
{
    match number(word) {
        Some(number) if number < 32 => Some(Reg::new(number as u8)),
        Some(_) | None => None,
    }
}

/// How many bytes or words are shown.
pub(crate) fn count(word: &str) -> Option<u32>
    ensures { result ≡ count_of word.now }
{
    match number(word) {
        Some(count) if count >= 1 && count <= 256 => Some(count),
        Some(_) | None => None,
    }
}
