//! The fields of a word.

ghost use Rattle.std.specs.Prelude.{◌≡◌, ◌+◌, ◌*◌, ◌^◌, ◌<◌, ◌≤◌};
ghost use Rattle.rv_decode.specs.Bits.{bits as bits_of, signed as signed_of, immediate_i as i_of};
ghost use Rattle.rv_decode.specs.Bits.{immediate_s as s_of};
ghost use Rattle.rv_decode.specs.Bits.{immediate_b as b_of, immediate_u as u_of};
ghost use Rattle.rv_decode.specs.Bits.{immediate_j as j_of};

use crate::Reg;

/// The `width` bits of `word` from bit `low` on.
#[tactic(auto, unfolding(crate::specs::Bits::bits))]
pub(crate) fn bits(word: u32, low: u32, width: u32) -> u32
    requires low { low < 32 }
    requires width { width < 32 }
    ensures value { result ≡ bits_of low width word }
    ensures below { result < 2 ^ width }
{
    (word >> low) % (1 << width)
}

/// The register that the five bits of `word` from bit `low` on name.
pub(crate) fn register(word: u32, low: u32) -> Reg
    requires { low < 32 }
    ensures { result ≡ bits_of low 5 word }
{
    Reg::new(bits(word, low, 5) as u8)
}

/// The signed number whose two's complement is `n`, where `sign` is the value of its topmost bit.
#[tactic(auto, unfolding(crate::specs::Bits::signed))]
pub(crate) fn signed(sign: u32, n: u32) -> i32
    requires sign { sign < 2 ^ 30 }
    requires below { n < 2 * sign }
    ensures { result ≡ signed_of sign n }
{
    if n < sign {
        n as i32
    } else {
        n as i32 - (2 * sign) as i32
    }
}

/// The immediate of the I format.
#[tactic(auto, unfolding(crate::specs::Bits::immediate_i))]
pub(crate) fn immediate_i(word: u32) -> i32
    ensures { result ≡ i_of word }
{
    signed(2048, bits(word, 20, 12))
}

/// The immediate of the S format.
#[tactic(auto, unfolding(crate::specs::Bits::immediate_s))]
pub(crate) fn immediate_s(word: u32) -> i32
    ensures { result ≡ s_of word }
{
    signed(2048, bits(word, 25, 7) * 32 + bits(word, 7, 5))
}

/// The immediate of the B format: a multiple of 2.
#[tactic(auto, unfolding(crate::specs::Bits::immediate_b))]
pub(crate) fn immediate_b(word: u32) -> i32
    ensures { result ≡ b_of word }
{
    signed(
        4096,
        bits(word, 31, 1) * 4096
            + bits(word, 7, 1) * 2048
            + bits(word, 25, 6) * 32
            + bits(word, 8, 4) * 2,
    )
}

/// The immediate of the U format: a multiple of 4096.
#[tactic(auto, unfolding(crate::specs::Bits::immediate_u))]
pub(crate) fn immediate_u(word: u32) -> u32
    ensures { result ≡ u_of word }
{
    bits(word, 12, 20) * 4096
}

/// The immediate of the J format: a multiple of 2.
#[tactic(auto, unfolding(crate::specs::Bits::immediate_j))]
pub(crate) fn immediate_j(word: u32) -> i32
    ensures { result ≡ j_of word }
{
    let high = bits(word, 31, 1) * 1_048_576 + bits(word, 12, 8) * 4096;
    signed(
        1_048_576,
        high + bits(word, 20, 1) * 2048 + bits(word, 21, 10) * 2,
    )
}

/// The vector operation that a word spells, with vd, vs2 and a mask that is on where vm is 0, and with these fields of its
/// own: `operation!(word, VArith::Int(op, b))`.
macro_rules! operation {
    ($word:expr, $class:ident::$shape:ident($($field:ident),*)) => {
        crate::Insn::$class($class::$shape {
            vd: crate::word::register($word, 7),
            vs2: crate::word::register($word, 20),
            masked: crate::word::bits($word, 25, 1) == 0,
            $($field),*
        })
    };
}

pub(crate) use operation;
