//! The words of vector loads and stores.

ghost use Rattle.std.specs.Prelude.{◌≡◌, option_to_list};
ghost use Rattle.rv_decode.specs.Rows.{meanings_by_groups, meanings_by_rows};
ghost use Rattle.rv_decode.specs.Access.{unit as unit_of, strided as strided_of};
ghost use Rattle.rv_decode.specs.Access.{indexed as indexed_of, whole as whole_of};
ghost use Rattle.rv_decode.specs.Access.{element_rows, whole_rows, mask_rows, byte_rows};
ghost use Rattle.rv_decode.specs.Access.{wide_load_rows};
ghost use Rattle.rv_decode.specs.Access.{vector_load_groups, vector_store_groups};

use crate::word::{bits, register};
use crate::{Addressing, Count, Direction, Insn, VMem, Width};

#[inline(always)]
fn unit(word: u32, direction: Direction, width: Width) -> Insn
    ensures { result ≡ unit_of direction width word }
{
    let masked = bits(word, 25, 1) == 0;
    Insn::VMem(VMem {
        direction,
        place: Addressing::Unit { width, masked },
        values: register(word, 7),
        rs1: register(word, 15),
    })
}

#[inline(always)]
fn strided(word: u32, direction: Direction, width: Width) -> Insn
    ensures { result ≡ strided_of direction width word }
{
    let masked = bits(word, 25, 1) == 0;
    Insn::VMem(VMem {
        direction,
        place: Addressing::Strided {
            width,
            rs2: register(word, 20),
            masked,
        },
        values: register(word, 7),
        rs1: register(word, 15),
    })
}

#[inline(always)]
fn indexed(word: u32, ordered: bool, direction: Direction, width: Width) -> Insn
    ensures { result ≡ indexed_of ordered direction width word }
{
    let masked = bits(word, 25, 1) == 0;
    Insn::VMem(VMem {
        direction,
        place: Addressing::Indexed {
            width,
            vs2: register(word, 20),
            ordered,
            masked,
        },
        values: register(word, 7),
        rs1: register(word, 15),
    })
}

#[inline(always)]
fn whole(word: u32, count: Count, direction: Direction, width: Width) -> Insn
    ensures { result ≡ whole_of count direction width word }
{
    Insn::VMem(VMem {
        direction,
        place: Addressing::Whole { width, count },
        values: register(word, 7),
        rs1: register(word, 15),
    })
}

/// The accesses of elements, one field each: unit-stride, strided, indexed.
#[inline(always)]
#[tactic(auto, unfolding(crate::specs::Access::element_rows))]
fn decode_elements(word: u32, direction: Direction, width: Width) -> Option<Insn>
    ensures { option_to_list result ≡ meanings_by_rows (element_rows direction width) word }
{
    if bits(word, 29, 3) == 0 {
        match bits(word, 26, 3) {
            0 if bits(word, 20, 5) == 0 => Some(unit(word, direction, width)),
            1 => Some(indexed(word, false, direction, width)),
            2 => Some(strided(word, direction, width)),
            3 => Some(indexed(word, true, direction, width)),
            _ => None,
        }
    } else {
        None
    }
}

/// The accesses of whole registers, from a multiple of their number on.
#[inline(always)]
#[tactic(auto, unfolding(crate::specs::Access::whole_rows))]
fn decode_whole(word: u32, direction: Direction, width: Width) -> Option<Insn>
    ensures { option_to_list result ≡ meanings_by_rows (whole_rows direction width) word }
{
    if bits(word, 26, 3) == 0 && bits(word, 20, 5) == 8 && bits(word, 25, 1) == 1 {
        match bits(word, 29, 3) {
            0 => Some(whole(word, Count::One, direction, width)),
            1 if bits(word, 7, 1) == 0 => Some(whole(word, Count::Two, direction, width)),
            3 if bits(word, 7, 2) == 0 => Some(whole(word, Count::Four, direction, width)),
            7 if bits(word, 7, 3) == 0 => Some(whole(word, Count::Eight, direction, width)),
            _ => None,
        }
    } else {
        None
    }
}

/// The accesses of a mask.
#[inline(always)]
#[tactic(auto, unfolding(crate::specs::Access::mask_rows))]
fn decode_mask(word: u32, direction: Direction) -> Option<Insn>
    ensures { option_to_list result ≡ meanings_by_rows (mask_rows direction) word }
{
    if bits(word, 26, 3) == 0
        && bits(word, 20, 5) == 0x0b
        && bits(word, 25, 1) == 1
        && bits(word, 29, 3) == 0
    {
        Some(Insn::VMem(VMem {
            direction,
            place: Addressing::Mask,
            values: register(word, 7),
            rs1: register(word, 15),
        }))
    } else {
        None
    }
}

/// The accesses of width 8.
#[inline(always)]
#[tactic(auto, unfolding(crate::specs::Access::byte_rows, crate::specs::Access::element_rows, crate::specs::Access::whole_rows, crate::specs::Access::mask_rows))]
fn decode_bytes(word: u32, direction: Direction) -> Option<Insn>
    ensures { option_to_list result ≡ meanings_by_rows (byte_rows direction) word }
{
    let is_unit_stride = bits(word, 26, 3) == 0;
    match bits(word, 20, 5) {
        0x08 if is_unit_stride => decode_whole(word, direction, Width::W8),
        0x0b if is_unit_stride => decode_mask(word, direction),
        _ => decode_elements(word, direction, Width::W8),
    }
}

/// The loads of width 16 and 32.
#[inline(always)]
#[tactic(auto, unfolding(crate::specs::Access::wide_load_rows, crate::specs::Access::element_rows, crate::specs::Access::whole_rows))]
fn decode_wide_load(word: u32, width: Width) -> Option<Insn>
    ensures { option_to_list result ≡ meanings_by_rows (wide_load_rows width) word }
{
    let is_unit_stride = bits(word, 26, 3) == 0;
    match bits(word, 20, 5) {
        0x08 if is_unit_stride => decode_whole(word, Direction::Load, width),
        _ => decode_elements(word, Direction::Load, width),
    }
}

/// Opcode 07: loads.
#[inline(always)]
#[tactic(auto, unfolding(crate::specs::Access::vector_load_groups))]
pub(crate) fn decode_vector_load(word: u32) -> Option<Insn>
    ensures { option_to_list result ≡ meanings_by_groups vector_load_groups word }
{
    match bits(word, 12, 3) {
        0 => decode_bytes(word, Direction::Load),
        5 => decode_wide_load(word, Width::W16),
        6 => decode_wide_load(word, Width::W32),
        _ => None,
    }
}

/// Opcode 27: stores.
#[inline(always)]
#[tactic(auto, unfolding(crate::specs::Access::vector_store_groups))]
pub(crate) fn decode_vector_store(word: u32) -> Option<Insn>
    ensures { option_to_list result ≡ meanings_by_groups vector_store_groups word }
{
    match bits(word, 12, 3) {
        0 => decode_bytes(word, Direction::Store),
        5 => decode_elements(word, Direction::Store, Width::W16),
        6 => decode_elements(word, Direction::Store, Width::W32),
        _ => None,
    }
}
