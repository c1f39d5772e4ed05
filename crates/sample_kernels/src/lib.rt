//! Kernels that the tests of several crates run: their words, which come from the LLVM assembler, their certificates,
//! which were made by hand, and the headers of a file of words. All are spelled in hexadecimal digits, and read where a
//! test runs: no proof sees them.
#![tactic(auto)]

/// A kernel.
#[derive(Clone, Copy)]
pub struct Kernel {
    /// The words of its code, with a space between them.
    pub code: &'static str,
    /// The bytes of its certificate at 128 bits.
    pub certificate: &'static str,
    /// How many blocks that has.
    pub blocks: usize,
}

/// The certificate of the sum: a0 is a buffer of 1024 bytes to read, a1 a number n up to 1024. From
/// the blocks at 0x10000, 0x10004 and 0x10018 on there are at most 2 + 5 * x11, 1 + 5 * x11 and 1
/// instructions. ra is EXIT at each of them; x10 is 0x40000000 at the first, and 0x40000000 - x11 +
/// n at the second, where x11 is not 0.
const SUM_CERTIFICATE: &str = "\
010001000201000000040000000000000100000000000000000400000000000000000000000000000000000000000000\
000000000000000000000000000000000000000000000000000000000000000000000000000000000000000000000000\
00000000030000000000010002000000050000000b0000030000000001f0fffffff0ffffffff0a000000400000004000\
000000400b0000000000040000010000000022010000000400010001000000050000000b0000030000000001f0ffffff\
f0ffffffff0a000000400004004002000000400bffffffff22010000000b0100000000040000ff180001000100000000\
000000000000010000000001f0fffffff0ffffffff";

/// Sums n bytes: beqz a1,end; loop: lbu t0,0(a0); addi a0,a0,1; add a2,a2,t0; addi a1,a1,-1;
/// bnez a1,loop; end: ret
pub const SUM: Kernel = Kernel {
    code: "00058c63 00054283 00150513 00560633 fff58593 fe0598e3 00008067",
    certificate: SUM_CERTIFICATE,
    blocks: 3,
};

/// The sum with sb t0,0(a0) in place of its load.
pub const STORE: Kernel = Kernel {
    code: "00058c63 00550023 00150513 00560633 fff58593 fe0598e3 00008067",
    certificate: SUM_CERTIFICATE,
    blocks: 3,
};

/// Raises each word of a buffer by one: beqz a1,end; loop: vsetvli t0,a1,e32,m1,ta,ma;
/// vle32.v v8,(a0); vadd.vi v8,v8,1; vse32.v v8,(a0); slli t1,t0,2; add a0,a0,t1; sub a1,a1,t0;
/// bnez a1,loop; end: ret
///
/// Its certificate, as `examples/raise_words/certificate.toml` states it: a0 is a buffer of 4096
/// bytes that may be written, a1 a number up to 1024.
pub const RAISE: Kernel = Kernel {
    code: "02058263 0d05f2d7 02056407 0280b457 02056427 00229313 00650533 405585b3 fe0592e3 \
00008067",
    certificate: "\
010001000203000000100000000000000100000000000000000400000000000000000000000000000000000000000000\
000000000000000000000000000000000000000000000000000000000000000000000000000000000000000000000000\
00000000030000000000010002000000080000000b0000030000000001f0fffffff0ffffffff0a000000400000004000\
000000400b0000000000040000010000000022010000000400010001000000080000000b0000030000000001f0ffffff\
f0ffffffff0a000000400010004002000000400bfcffffff22040000000b0100000000040000ff240001000100000000\
000000000000010000000001f0fffffff0ffffffff",
    blocks: 3,
};

/// Raises bytes by one, or none: beqz a1,end; loop: vsetvli t0,a1,e8,m1,ta,ma; vle8.v v8,(a0);
/// beqz a2,join; vadd.vi v8,v8,1; join: vse8.v v8,(a0); add a0,a0,t0; sub a1,a1,t0; bnez a1,loop;
/// end: ret
///
/// What it does not know where the two ways join, its certificate, of version 2, states as an order
/// of two registers: at 0x10010 and 0x10014, behind the vset of the loop, vl is at most x11. a0 is
/// a buffer of 1024 bytes that may be written, a1 a number up to 1024, a2 one up to 1.
pub const RAISE_IF: Kernel = Kernel {
    code: "02058263 0c05f2d7 02050407 00060463 0280b457 02050427 00550533 405585b3 fe0592e3 \
00008067",
    certificate: "\
020001000203000000040000000000000100000000000000000400000100000000000000010000000000000000000000\
000000000000000000000000000000000000000000000000000000000000000000000000000000000000000000000000\
0000000005000000000001000500000008000000000000000b0000000300000001f0fffffff0ffffffff0a0000004000\
00004000000000400b000000000004000001000000002201000000040001000400000008000000000000000b00000003\
00000001f0fffffff0ffffffff0a000000400004004002000000400bffffffff22010000000b0100000000040000ff10\
0001000100000008000000000000000b0001c00500010001f0fffffff0ffffffff050100000010000000010000000020\
010000000a000000400004004002000000400bffffffff22010000000b0100000000040000ff200100000010000000ff\
0b20140001000000000008000000000000000b0001c00500010001f0fffffff0ffffffff050100000010000000010000\
000020010000000a000000400004004002000000400bffffffff22010000000b0100000000040000ff20010000001000\
0000ff0b2024000100010000000000000000000000000000000100000001f0fffffff0ffffffff",
    blocks: 5,
};

/// The code of a kernel that adds bytes: vsetvli t0,a2,e8,m1,ta,ma; vle8.v v8,(a0);
/// vle8.v v16,(a1); vadd.vv v8,v8,v16; vse8.v v8,(a0); ecall
pub const ADD_BYTES: &str = "0c0672d7 02050407 02058807 02880457 02050427 00000073";

/// The headers of an executable of one segment at 0x10000, which may be read and executed, up to
/// the segment's sizes.
pub const HEADERS: &str = "\
7f454c460101010000000000000000000200f30001000000000001003400000000000000000000003400200001000000\
0000000001000000540000000000010000000100";
