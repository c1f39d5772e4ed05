//! Rounding.
ghost use Rattle.std.specs.Prelude.{◌≡◌, ◌≤◌, ◌<◌, ◌+◌, ◌-◌, ◌*◌, ◌^◌, ℤ, pos, unsigned_abs};
ghost use Rattle.lane_fixed.specs.Rounding.{low_bits, rounded, rounds_up, shifted};

use crate::operations::RoundingMode;

/// The number that the lowest `count` bits of `value` hold.
#[inline(always)]
pub fn low(value: i64, count: u32) -> u64
    requires { count ≤ 32 }
    ensures value { result ≡ low_bits count value }
    ensures below { result < 2 ^ count }
{
    value.cast_unsigned() % (1u64 << count)
}

/// `value` without its lowest `count` bits.
#[inline(always)]
fn shifted(value: i64, count: u32) -> i64
    requires { count ≤ 32 }
    ensures value { result ≡ shifted count value }
    ensures less { unsigned_abs result ≤ unsigned_abs value }
{
    value >> count
}

/// Whether the mode rounds up, where `quotient` is left and the `count` lowest bits held `rest`.
#[inline(always)]
#[tactic(auto, unfolding(crate::specs::Rounding::rounds_up))]
fn rounds_up(mode: RoundingMode, quotient: i64, rest: u64, count: u32) -> bool
    requires few { count ≤ 32 }
    requires below { rest < 2 ^ count }
    ensures { result ≡ rounds_up mode quotient rest count }
{
    let one = 1u64 << count;
    match mode {
        RoundingMode::NearestUp => one <= 2 * rest,
        RoundingMode::NearestEven => one < 2 * rest || (one == 2 * rest && low(quotient, 1) == 1),
        RoundingMode::Down => false,
        RoundingMode::Odd => rest != 0 && low(quotient, 1) != 1,
    }
}

/// `value` without its lowest `count` bits, rounded.
#[inline(always)]
#[tactic(auto, unfolding(crate::specs::Rounding::rounded))]
pub fn rounded(mode: RoundingMode, value: i64, count: u32) -> i64
    requires few { count ≤ 32 }
    requires room { unsigned_abs value ≤ 2 ^ 62 }
    ensures { result ≡ rounded mode value count }
{
    let quotient = shifted(value, count);
    let rest = low(value, count);
    quotient + i64::from(rounds_up(mode, quotient, rest, count))
}
