//! The second source of an operation.
ghost use Rattle.std.specs.Prelude.{◌≡◌, ℕ, ◌+◌, ◌*◌, ◌<◌, ◌≤◌};
ghost use Rattle.byteorder.specs.Endian.{little_from};
ghost use Rattle.lane_file.specs.InPlace.{HasRoom, other_of};

use lane_int::Lane;
use rv_decode::Reg;
use std::simd::prelude::*;
use vreg_groups::VregFile;

/// The second source: the elements of a group, or one element in each place.
#[derive(Clone, Copy)]
pub enum Second<E> {
    Group(Reg),
    Splat(E),
}

/// Sixteen bytes of it, from place `at` of the group on.
#[inline(always)]
pub(crate) fn other<E: Lane, const VLENB: usize>(
    registers: &VregFile<VLENB>,
    b: Second<E>,
    at: usize,
) -> u8x16
    requires vlenb { VLENB ≤ 64 }
    requires room { HasRoom VLENB b (at + 16) }
    ensures { (j : ℕ) → j < E.count → little_from (E.size * j) E.size result
        ≡ other_of VLENB E.size E.number b (at + E.size * j) registers.now }
{
    match b {
        Second::Group(vs1) => registers.sixteen(place_of(vs1, VLENB) + at),
        Second::Splat(value) => value.byte_splat(),
    }
}

/// Where a register begins.
#[inline(always)]
pub(crate) fn place_of(register: Reg, vlenb: usize) -> usize
    requires { vlenb ≤ 64 }
    ensures meaning { result ≡ register * vlenb }
    ensures within { result + vlenb ≤ 32 * vlenb }
{
    usize::from(register.number()) * vlenb
}
