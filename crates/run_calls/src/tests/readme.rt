//! How the libraries are called from a file's bytes to the buffers after a run: the lines of docs/EMBEDDING.md, word for word.
use crate::tests::assertions::assert_same;
use block_checker::check;
use region_mem::{Arg, Args, Bytes};
use sandbox_run::AnySession;
use std::alloc::Global;
use std::test::Fail;
use vreg_groups::{Agnostic, Vlen};

/// A kernel that adds 1 to each of a1 words at a0, in strips, with its certificate, for 64 bytes and up to 16 words.
pub(crate) const RAISE: &str =
    "7f454c460101010000000000000000000200f300010000000000010034000000000000000000000034002000\
     0200000000000000010000007400000000000100000001002800000028000000050000000400000004000000\
     9c00000000000000000000001c0100001c010000040000000400000063820502d7f2050d0764050257b48002\
     276405021393220033056500b3855540e39205fe67800000070000000501000001000000525656424f580000\
     0100010002030000400000000000000001000000000000001000000000000000000000000000000000000000\
     0000000000000000000000000000000000000000000000000000000000000000000000000000000000000000\
     000000000000000000000000030000000000010002000000080000000b0000030000000001f0fffffff0ffff\
     ffff0a000000400000004000000000400b000000001000000001000000002201000000040001000100000008\
     0000000b0000030000000001f0fffffff0ffffffff0a000000404000004002000000400bfcffffff22040000\
     000b0100000010000000ff240001000100000000000000000000010000000001f0fffffff0ffffffff000000";

/// Raises the first `many` words by one, on the kernel's file.
fn raised(alloc: Global, file: &[u8], words: &[u8], many: u32) -> Result<(u64, Args), Fail> {
    let image = elf_image::read(alloc, file)?;
    let certificate = cert_note::read(alloc, image.certificate().ok_or("no certificate")?)?;
    let accepted = check(alloc, image, certificate, Vlen::V128).map_err(|(error, ..)| error)?;
    let mut args = Args::none();
    args.places[0] = Arg::Buffer(Bytes::new(Vec::from_slice(alloc, words)?));
    args.places[1] = Arg::Scalar(many);
    let opened = AnySession::open(alloc, &accepted, args, Agnostic::Keep, 1000);
    let mut session = opened.map_err(|(error, _)| error)?;
    let steps = session.run();
    Ok((steps, session.close()))
}

#[test]
fn raises_words(rt: HostRuntime) -> Result<(), Fail> {
    let file = hex::decode(rt.alloc(), RAISE)?;
    let (steps, args) = raised(rt.alloc(), &file, &[7; 64], 9)?;
    assert_same!(rt; steps, 26);
    let Arg::Buffer(bytes) = &args.places[0] else {
        return Err(Fail::from("no buffer"));
    };
    assert_same!(rt; bytes.as_slice().get(32).copied(), Some(8));
    assert_same!(rt; bytes.as_slice().get(36).copied(), Some(7));
    Ok(())
}
