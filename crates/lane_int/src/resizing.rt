//! Elements of one width as elements of another.
ghost use Rattle.std.specs.Prelude.{◌≡◌, length, map};
ghost use Rattle.lane_int.specs.Resizing.{cut_to, extended_to};

use crate::lane::Lane;

/// An element that can be extended to the wider `W`, and be the lowest bits of one.
pub trait Narrow<W: Lane>: Lane {
    ghost use Rattle.std.specs.Prelude.{◌≡◌};
    ghost use Rattle.lane_int.specs.Resizing.{cut_to, extended_to};

    /// The element, extended by its sign or by zeros.
    fn extended(self, is_signed: bool) -> W
        ensures { W.number result ≡ extended_to is_signed Self.width W.width (Self.number self) };

    /// The lowest bits of a wider element.
    fn cut(wide: W) -> Self
        ensures { Self.number result ≡ cut_to Self.width (W.number wide) };
}

impl Narrow<u16> for u8 {
    #[inline(always)]
    #[tactic(auto, unfolding(crate::specs::Resizing::extended_to))]
    fn extended(self, is_signed: bool) -> u16 {
        if is_signed {
            i16::from(self.cast_signed()).cast_unsigned()
        } else {
            u16::from(self)
        }
    }

    #[inline(always)]
    #[tactic(auto, unfolding(crate::specs::Resizing::cut_to))]
    fn cut(wide: u16) -> u8 {
        (wide % 0x100) as u8
    }
}

impl Narrow<u32> for u8 {
    #[inline(always)]
    #[tactic(auto, unfolding(crate::specs::Resizing::extended_to))]
    fn extended(self, is_signed: bool) -> u32 {
        if is_signed {
            i32::from(self.cast_signed()).cast_unsigned()
        } else {
            u32::from(self)
        }
    }

    #[inline(always)]
    #[tactic(auto, unfolding(crate::specs::Resizing::cut_to))]
    fn cut(wide: u32) -> u8 {
        (wide % 0x100) as u8
    }
}

impl Narrow<u32> for u16 {
    #[inline(always)]
    #[tactic(auto, unfolding(crate::specs::Resizing::extended_to))]
    fn extended(self, is_signed: bool) -> u32 {
        if is_signed {
            i32::from(self.cast_signed()).cast_unsigned()
        } else {
            u32::from(self)
        }
    }

    #[inline(always)]
    #[tactic(auto, unfolding(crate::specs::Resizing::cut_to))]
    fn cut(wide: u32) -> u16 {
        (wide % 0x1_0000) as u16
    }
}

/// Writes each element of `values`, extended by its sign or by zeros ("Vector Integer Extension").
pub fn extend<N: Narrow<W>, W: Lane>(is_signed: bool, values: &[N], out: &mut [W])
    requires { length values.now ≡ length out.old }
    ensures { map W.number out.new
        ≡ map (λ n. extended_to is_signed N.Lane.width W.width (N.Lane.number n)) values.now }
{
    if is_signed {
        extend_each(true, values, out);
    } else {
        extend_each(false, values, out);
    }
}

/// The loop of `extend`.
#[inline(always)]
fn extend_each<N: Narrow<W>, W: Lane>(is_signed: bool, values: &[N], out: &mut [W])
    requires { length values.now ≡ length out.old }
    ensures { map W.number out.new
        ≡ map (λ n. extended_to is_signed N.Lane.width W.width (N.Lane.number n)) values.now }
{
    for i in 0..out.len() {
        out[i] = values[i].extended(is_signed);
    }
}

/// Writes the lowest bits of each element of `values`.
pub fn cut<N: Narrow<W>, W: Lane>(values: &[W], out: &mut [N])
    requires { length values.now ≡ length out.old }
    ensures { map N.Lane.number out.new ≡ map (λ n. cut_to N.Lane.width (W.number n)) values.now }
{
    for i in 0..out.len() {
        out[i] = N::cut(values[i]);
    }
}
