//! Laws of encodings: what the places of a format hold is read back as it was. Each law is a function's contract.

ghost use Rattle.std.specs.Prelude.{Some, ◌≡◌, ◌+◌, ◌*◌, ◌^◌, ◌<◌, ◌%◌, ◌≤ℤ◌, pos, negsuc};
ghost use Rattle.std.specs.Option.{IfSome};
ghost use Rattle.rv_decode.specs.Bits.{bits, immediate_i, immediate_s, immediate_b, immediate_u};
ghost use Rattle.rv_decode.specs.Bits.{immediate_j};
ghost use Rattle.rv_decode.specs.Decode.{meaning_of};
ghost use Rattle.rv_decode.specs.Encode.{modulo, encode_i, encode_s, encode_b, encode_u, encode_j};
ghost use Rattle.rv_decode.specs.Encode.{encode, IsEncodable};
ghost use Rattle.rv_decode.specs.Encodings.{IsWordOf, FieldsFit, MeaningsFit};

use crate::{Insn, ScalarInsn};

/// The I format: twelve signed bits, above the fields in bits 19:0.
pub fn immediate_i_is_read_back(imm: i32, low: u32)
    requires least { negsuc 2047 ≤ℤ imm }
    requires greatest { imm ≤ℤ pos 2047 }
    requires low { low < 2 ^ 20 }
    ensures { immediate_i (encode_i imm low) ≡ imm }
{}

/// The S format: twelve signed bits, around the fields in bits 24:12 and above the opcode.
pub fn immediate_s_is_read_back(imm: i32, middle: u32, opcode: u32)
    requires least { negsuc 2047 ≤ℤ imm }
    requires greatest { imm ≤ℤ pos 2047 }
    requires middle { middle < 2 ^ 13 }
    requires opcode { opcode < 2 ^ 7 }
    ensures { immediate_s (encode_s imm middle opcode) ≡ imm }
{}

/// The B format: thirteen signed bits, the lowest of them 0.
pub fn immediate_b_is_read_back(imm: i32, middle: u32, opcode: u32)
    requires least { negsuc 4095 ≤ℤ imm }
    requires greatest { imm ≤ℤ pos 4095 }
    requires even { modulo 2 imm ≡ 0 }
    requires middle { middle < 2 ^ 13 }
    requires opcode { opcode < 2 ^ 7 }
    ensures { immediate_b (encode_b imm middle opcode) ≡ imm }
{}

/// The U format: twenty bits above twelve zeros.
pub fn immediate_u_is_read_back(imm: u32, low: u32)
    requires zeros { imm % 4096 ≡ 0 }
    requires low { low < 2 ^ 12 }
    ensures { immediate_u (encode_u imm low) ≡ imm }
{}

/// The J format: twenty-one signed bits, the lowest of them 0.
pub fn immediate_j_is_read_back(imm: i32, low: u32)
    requires least { negsuc 1048575 ≤ℤ imm }
    requires greatest { imm ≤ℤ pos 1048575 }
    requires even { modulo 2 imm ≡ 0 }
    requires low { low < 2 ^ 12 }
    ensures { immediate_j (encode_j imm low) ≡ imm }
{}

/// The word of a scalar instruction means this instruction, where the word has room for its fields.
pub fn encoding_is_read_back(insn: ScalarInsn)
    requires { IsEncodable insn }
    ensures { meaning_of (encode insn) ≡ Some (Insn.Scalar insn) }
{}

/// Each word of opcode 0f with f3 0 is a fence, whatever its other fields say.
pub fn fences_differ_in_ignored_fields(word: u32)
    requires opcode { bits 0 7 word ≡ 0x0f }
    requires f3 { bits 12 3 word ≡ 0 }
    ensures { meaning_of word ≡ Some (Insn.Scalar ScalarInsn.Fence) }
{}

/// A word means an instruction only where it is the encoding of this instruction, whose fields fit: registers are below
/// 32, immediates and shift amounts in range, and the form is one that there is.
pub fn words_are_encodings(word: u32)
    ensures encoded { IfSome (meaning_of word) (λ insn. IsWordOf insn word) }
    ensures fits { IfSome (meaning_of word) FieldsFit }
{}

/// What a word means is well formed, whatever the word: registers are below 32, immediates and shift amounts in range,
/// and the form is one that there is.
pub fn meanings_fit()
    ensures { MeaningsFit }
{}
