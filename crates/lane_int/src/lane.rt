//! The widths that the kernels work on.
ghost use Rattle.std.specs.Prelude.{◌≡◌, ℕ, Bool};

use crate::chunks::{chunk_u8, chunk_u16, chunk_u32};
use crate::elements::{
    by_sign, carry_out, carry_result, extended, high_half, int_result, int_test, multiply_add,
};
use crate::lanes_in_bytes::{bytes_of_halves, bytes_of_words, halves_in, words_in};
use crate::operations::{Op, chunk_op};
use rv_decode::{CarryOp, CompareOp, IntOp, MultiplyAddOp};
use std::simd::prelude::*;

/// An element of one width: `u8`, `u16` or `u32`.
pub trait Lane: Copy {
    ghost use Rattle.std.specs.Prelude.{ℕ, Bool, true, ◌≡◌, ◌≤◌, ◌+◌, length};
    ghost use Rattle.std.specs.Prelude.{◌*◌, ◌<◌, false, slice_index_or};
    ghost use lib.Lanes.{chunk, put_chunk, zip2};
    ghost use Rattle.byteorder.specs.Endian.{little_from};
    ghost use Rattle.lane_int.specs.Chunks.{has_chunk};
    ghost use Rattle.lane_int.specs.Lists.{zip3};
    ghost use Rattle.std.specs.Int.{Width};
    ghost use Rattle.lane_int.specs.Integer.{element, compares, carried, carries, multiply_added};
    ghost use Rattle.rv_decode.specs.declared.instructions.IntOp.{IntOp};
    ghost use Rattle.rv_decode.specs.declared.instructions.CompareOp.{CompareOp};
    ghost use Rattle.rv_decode.specs.declared.instructions.CarryOp.{CarryOp};
    ghost use Rattle.rv_decode.specs.declared.instructions.MultiplyAddOp.{MultiplyAddOp};

    // the width, and the number that an element holds
    ghost width: { Width };

    ghost number: { Self → ℕ };

    // how many elements a chunk has, and how many bytes an element
    ghost count: { ℕ };

    ghost size: { ℕ };

    ghost sizes: { size * count ≡ 16 };

    // what the methods below answer
    ghost result_of: { IntOp → Self → Self → Self };

    ghost test_of: { CompareOp → Self → Self → Bool };

    ghost carried_of: { CarryOp → Self → Self → Bool → Self };

    ghost carry_of: { CarryOp → Self → Self → Bool → Bool };

    ghost added_of: { MultiplyAddOp → Self → Self → Self → Self };

    /// What `op` makes of vs2's element `a` and of `b`.
    fn int_result(op: IntOp, a: Self, b: Self) -> Self
        ensures { result ≡ result_of op a b };

    /// How many elements a chunk call takes.
    fn count() -> usize
        ensures meaning { result ≡ count }
        ensures some { 1 ≤ result }
        ensures few { result ≤ 16 };

    /// Writes over a chunk of `values`, from `at` on, what a chunk call makes of it and of `b`'s.
    fn chunk(op: IntOp, values: &mut [Self], b: &[Self], at: usize)
        requires call { has_chunk op ≡ true }
        requires values_room { at + count ≤ length values.old }
        requires b_room { at + count ≤ length b.now }
        ensures { values.new ≡ put_chunk at values.old
            (zip2 (result_of op) (chunk at count values.old) (chunk at count b.now)) };

    /// Writes over a chunk of `values`, which are vd's, from `at` on, what a chunk call makes of `a`'s, which are vs2's, of
    /// `b`'s and of themselves.
    fn added_chunk(op: MultiplyAddOp, a: &[Self], b: &[Self], values: &mut [Self], at: usize)
        requires a_room { at + count ≤ length a.now }
        requires b_room { at + count ≤ length b.now }
        requires values_room { at + count ≤ length values.old }
        ensures { values.new ≡ put_chunk at values.old
            (zip3 (added_of op) (chunk at count a.now) (chunk at count b.now)
            (chunk at count values.old)) };

    /// Whether a chunk call finds `op` to hold of each of `a`'s elements from `at` on, which are vs2's, and of `b`'s: as many
    /// bits as a chunk has elements.
    fn test_chunk(op: CompareOp, a: &[Self], b: &[Self], at: usize) -> [bool; 16]
        requires a_room { at + count ≤ length a.now }
        requires b_room { at + count ≤ length b.now }
        ensures { (j : ℕ) (d e : Self) → j < count → slice_index_or result j false
            ≡ test_of op (slice_index_or a.now (at + j) d) (slice_index_or b.now (at + j) e) };

    /// How many bytes an element has.
    fn size() -> usize
        ensures { result ≡ size };

    /// The element in each place of sixteen bytes, the lowest byte of each first.
    fn byte_splat(self) -> u8x16
        ensures { (j : ℕ) → j < count → little_from (size * j) size result ≡ number self };

    /// What a chunk call makes of the elements that lie in sixteen bytes, the lowest byte of each first.
    fn byte_chunk(op: IntOp, values: u8x16, b: u8x16) -> u8x16
        requires call { has_chunk op ≡ true }
        ensures { (j : ℕ) → j < count → little_from (size * j) size result
            ≡ element op width (little_from (size * j) size values)
            (little_from (size * j) size b) };

    /// Whether `op` holds of vs2's element `a` and of `b`.
    fn int_test(op: CompareOp, a: Self, b: Self) -> bool
        ensures { result ≡ test_of op a b };

    /// The sum with a carry, or the difference with a borrow.
    fn carry_result(op: CarryOp, a: Self, b: Self, carry: bool) -> Self
        ensures { result ≡ carried_of op a b carry };

    /// The carry out of that sum, or the borrow of that difference.
    fn carry_out(op: CarryOp, a: Self, b: Self, carry: bool) -> bool
        ensures { result ≡ carry_of op a b carry };

    /// What `op` makes of vs2's element `a`, of `b` and of vd's old element `d`.
    fn multiply_add(op: MultiplyAddOp, a: Self, b: Self, d: Self) -> Self
        ensures { result ≡ added_of op a b d };

    // each answer is the instruction's number, as `specs/Integer.antt` has it
    ghost result_is: { (op : IntOp) (a b : Self)
        → number (result_of op a b) ≡ element op width (number a) (number b) };

    ghost test_is: { (op : CompareOp) (a b : Self)
        → test_of op a b ≡ compares op width (number a) (number b) };

    ghost carried_is: { (op : CarryOp) (a b : Self) (c : Bool)
        → number (carried_of op a b c) ≡ carried op width (number a) (number b) c };

    ghost carry_is: { (op : CarryOp) (a b : Self) (c : Bool)
        → carry_of op a b c ≡ carries op width (number a) (number b) c };

    ghost added_is: { (op : MultiplyAddOp) (a b d : Self) → number (added_of op a b d)
        ≡ multiply_added op width (number a) (number b) (number d) };
}

/// The body of `chunk`: `$call` on the `$lanes` of `values` and `b` from `at` on.
macro_rules! by_chunk {
    ($call:ident, $lanes:ident, $op:ident, $values:ident, $b:ident, $at:ident) => {{
        let lanes = $lanes::from_slice(&$values[$at..]);
        let results = $call(chunk_op($op), lanes, $lanes::from_slice(&$b[$at..]), lanes);
        results.copy_to_slice(&mut $values[$at..]);
    }};
}

/// The body of `added_chunk`.
macro_rules! by_added_chunk {
    ($call:ident, $lanes:ident, $op:ident, $a:ident, $b:ident, $values:ident, $at:ident) => {{
        let old = $lanes::from_slice(&$values[$at..]);
        let factors = $lanes::from_slice(&$a[$at..]);
        let results = $call(Op::MultiplyAdd($op), factors, $lanes::from_slice(&$b[$at..]), old);
        results.copy_to_slice(&mut $values[$at..]);
    }};
}

/// The body of `test_chunk`: a lane of what `$call` gives is 0 where `$op` does not hold.
macro_rules! by_test_chunk {
    ($call:ident, $lanes:ident, $count:literal, $op:ident, $a:ident, $b:ident, $at:ident) => {{
        let lanes = $lanes::from_slice(&$a[$at..]);
        let results = $call(Op::Compare($op), lanes, $lanes::from_slice(&$b[$at..]), lanes);
        let mut tests = [false; 16];
        for k in 0..$count {
            tests[k] = results[k] != 0;
        }
        tests
    }};
}

impl Lane for u8 {
    ghost use Rattle.std.specs.Prelude.{refl};
    ghost use Rattle.std.specs.Int.{w8};
    ghost use Rattle.lane_int.specs.Integer.{element, compares, carried, carries, multiply_added};

    ghost width = { w8 };

    ghost number = { λ a. a };

    ghost count = { 16 };

    ghost size = { 1 };

    ghost sizes = { refl };

    ghost result_of = { λ op a b. element op w8 a b };

    ghost test_of = { λ op a b. compares op w8 a b };

    ghost carried_of = { λ op a b c. carried op w8 a b c };

    ghost carry_of = { λ op a b c. carries op w8 a b c };

    ghost added_of = { λ op a b d. multiply_added op w8 a b d };

    #[inline(always)]
    #[tactic(auto, unfolding(crate::specs::Integer::element))]
    fn int_result(op: IntOp, a: u8, b: u8) -> u8 {
        int_result!(u8, u16, i16, 8, op, a, b)
    }

    #[inline(always)]
    fn count() -> usize {
        16
    }

    #[inline(always)]
    fn chunk(op: IntOp, values: &mut [u8], b: &[u8], at: usize) {
        by_chunk!(chunk_u8, u8x16, op, values, b, at)
    }

    #[inline(always)]
    fn added_chunk(op: MultiplyAddOp, a: &[u8], b: &[u8], values: &mut [u8], at: usize) {
        by_added_chunk!(chunk_u8, u8x16, op, a, b, values, at)
    }

    #[inline(always)]
    fn test_chunk(op: CompareOp, a: &[u8], b: &[u8], at: usize) -> [bool; 16] {
        by_test_chunk!(chunk_u8, u8x16, 16, op, a, b, at)
    }

    #[inline(always)]
    fn size() -> usize {
        1
    }

    #[inline(always)]
    fn byte_splat(self) -> u8x16 {
        u8x16::splat(self)
    }

    #[inline(always)]
    fn byte_chunk(op: IntOp, values: u8x16, b: u8x16) -> u8x16 {
        let results = chunk_u8(chunk_op(op), values, b, values);
        results
    }

    #[inline(always)]
    #[tactic(auto, unfolding(crate::specs::Integer::compares))]
    fn int_test(op: CompareOp, a: u8, b: u8) -> bool {
        int_test!(op, a, b)
    }

    #[inline(always)]
    #[tactic(auto, unfolding(crate::specs::Integer::carried))]
    fn carry_result(op: CarryOp, a: u8, b: u8, carry: bool) -> u8 {
        carry_result!(u8, op, a, b, carry)
    }

    #[inline(always)]
    #[tactic(auto, unfolding(crate::specs::Integer::carries))]
    fn carry_out(op: CarryOp, a: u8, b: u8, carry: bool) -> bool {
        carry_out!(u8, u16, op, a, b, carry)
    }

    #[inline(always)]
    #[tactic(auto, unfolding(crate::specs::Integer::multiply_added))]
    fn multiply_add(op: MultiplyAddOp, a: u8, b: u8, d: u8) -> u8 {
        multiply_add!(op, a, b, d)
    }

    ghost result_is = { λ op a b. refl };

    ghost test_is = { λ op a b. refl };

    ghost carried_is = { λ op a b c. refl };

    ghost carry_is = { λ op a b c. refl };

    ghost added_is = { λ op a b d. refl };
}

impl Lane for u16 {
    ghost use Rattle.std.specs.Prelude.{refl};
    ghost use Rattle.std.specs.Int.{w16};
    ghost use Rattle.lane_int.specs.Integer.{element, compares, carried, carries, multiply_added};

    ghost width = { w16 };

    ghost number = { λ a. a };

    ghost count = { 8 };

    ghost size = { 2 };

    ghost sizes = { refl };

    ghost result_of = { λ op a b. element op w16 a b };

    ghost test_of = { λ op a b. compares op w16 a b };

    ghost carried_of = { λ op a b c. carried op w16 a b c };

    ghost carry_of = { λ op a b c. carries op w16 a b c };

    ghost added_of = { λ op a b d. multiply_added op w16 a b d };

    #[inline(always)]
    #[tactic(auto, unfolding(crate::specs::Integer::element))]
    fn int_result(op: IntOp, a: u16, b: u16) -> u16 {
        int_result!(u16, u32, i32, 16, op, a, b)
    }

    #[inline(always)]
    fn count() -> usize {
        8
    }

    #[inline(always)]
    fn chunk(op: IntOp, values: &mut [u16], b: &[u16], at: usize) {
        by_chunk!(chunk_u16, u16x8, op, values, b, at)
    }

    #[inline(always)]
    fn added_chunk(op: MultiplyAddOp, a: &[u16], b: &[u16], values: &mut [u16], at: usize) {
        by_added_chunk!(chunk_u16, u16x8, op, a, b, values, at)
    }

    #[inline(always)]
    fn test_chunk(op: CompareOp, a: &[u16], b: &[u16], at: usize) -> [bool; 16] {
        by_test_chunk!(chunk_u16, u16x8, 8, op, a, b, at)
    }

    #[inline(always)]
    fn size() -> usize {
        2
    }

    #[inline(always)]
    fn byte_splat(self) -> u8x16 {
        bytes_of_halves(u16x8::splat(self))
    }

    #[inline(always)]
    fn byte_chunk(op: IntOp, values: u8x16, b: u8x16) -> u8x16 {
        let lanes = halves_in(values);
        let others = halves_in(b);
        let results = chunk_u16(chunk_op(op), lanes, others, lanes);
        bytes_of_halves(results)
    }

    #[inline(always)]
    #[tactic(auto, unfolding(crate::specs::Integer::compares))]
    fn int_test(op: CompareOp, a: u16, b: u16) -> bool {
        int_test!(op, a, b)
    }

    #[inline(always)]
    #[tactic(auto, unfolding(crate::specs::Integer::carried))]
    fn carry_result(op: CarryOp, a: u16, b: u16, carry: bool) -> u16 {
        carry_result!(u16, op, a, b, carry)
    }

    #[inline(always)]
    #[tactic(auto, unfolding(crate::specs::Integer::carries))]
    fn carry_out(op: CarryOp, a: u16, b: u16, carry: bool) -> bool {
        carry_out!(u16, u32, op, a, b, carry)
    }

    #[inline(always)]
    #[tactic(auto, unfolding(crate::specs::Integer::multiply_added))]
    fn multiply_add(op: MultiplyAddOp, a: u16, b: u16, d: u16) -> u16 {
        multiply_add!(op, a, b, d)
    }

    ghost result_is = { λ op a b. refl };

    ghost test_is = { λ op a b. refl };

    ghost carried_is = { λ op a b c. refl };

    ghost carry_is = { λ op a b c. refl };

    ghost added_is = { λ op a b d. refl };
}

impl Lane for u32 {
    ghost use Rattle.std.specs.Prelude.{refl};
    ghost use Rattle.std.specs.Int.{w32};
    ghost use Rattle.lane_int.specs.Integer.{element, compares, carried, carries, multiply_added};

    ghost width = { w32 };

    ghost number = { λ a. a };

    ghost count = { 4 };

    ghost size = { 4 };

    ghost sizes = { refl };

    ghost result_of = { λ op a b. element op w32 a b };

    ghost test_of = { λ op a b. compares op w32 a b };

    ghost carried_of = { λ op a b c. carried op w32 a b c };

    ghost carry_of = { λ op a b c. carries op w32 a b c };

    ghost added_of = { λ op a b d. multiply_added op w32 a b d };

    #[inline(always)]
    #[tactic(auto, unfolding(crate::specs::Integer::element))]
    fn int_result(op: IntOp, a: u32, b: u32) -> u32 {
        int_result!(u32, u64, i64, 32, op, a, b)
    }

    #[inline(always)]
    fn count() -> usize {
        4
    }

    #[inline(always)]
    fn chunk(op: IntOp, values: &mut [u32], b: &[u32], at: usize) {
        by_chunk!(chunk_u32, u32x4, op, values, b, at)
    }

    #[inline(always)]
    fn added_chunk(op: MultiplyAddOp, a: &[u32], b: &[u32], values: &mut [u32], at: usize) {
        by_added_chunk!(chunk_u32, u32x4, op, a, b, values, at)
    }

    #[inline(always)]
    fn test_chunk(op: CompareOp, a: &[u32], b: &[u32], at: usize) -> [bool; 16] {
        by_test_chunk!(chunk_u32, u32x4, 4, op, a, b, at)
    }

    #[inline(always)]
    fn size() -> usize {
        4
    }

    #[inline(always)]
    fn byte_splat(self) -> u8x16 {
        bytes_of_words(u32x4::splat(self))
    }

    #[inline(always)]
    fn byte_chunk(op: IntOp, values: u8x16, b: u8x16) -> u8x16 {
        let lanes = words_in(values);
        let others = words_in(b);
        let results = chunk_u32(chunk_op(op), lanes, others, lanes);
        bytes_of_words(results)
    }

    #[inline(always)]
    #[tactic(auto, unfolding(crate::specs::Integer::compares))]
    fn int_test(op: CompareOp, a: u32, b: u32) -> bool {
        int_test!(op, a, b)
    }

    #[inline(always)]
    #[tactic(auto, unfolding(crate::specs::Integer::carried))]
    fn carry_result(op: CarryOp, a: u32, b: u32, carry: bool) -> u32 {
        carry_result!(u32, op, a, b, carry)
    }

    #[inline(always)]
    #[tactic(auto, unfolding(crate::specs::Integer::carries))]
    fn carry_out(op: CarryOp, a: u32, b: u32, carry: bool) -> bool {
        carry_out!(u32, u64, op, a, b, carry)
    }

    #[inline(always)]
    #[tactic(auto, unfolding(crate::specs::Integer::multiply_added))]
    fn multiply_add(op: MultiplyAddOp, a: u32, b: u32, d: u32) -> u32 {
        multiply_add!(op, a, b, d)
    }

    ghost result_is = { λ op a b. refl };

    ghost test_is = { λ op a b. refl };

    ghost carried_is = { λ op a b c. refl };

    ghost carry_is = { λ op a b c. refl };

    ghost added_is = { λ op a b d. refl };
}
