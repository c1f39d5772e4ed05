//! The text of a word.

ghost use Rattle.rv_listing.specs.Listing.{insn_text, listing_text, meaning_text};
ghost use Rattle.rv_listing.specs.Sinks.{Told};

use crate::accesses::put_access;
use crate::arithmetic::put_arithmetic;
use crate::masks::put_mask;
use crate::moves::{put_move, put_vset};
use crate::permutations::put_permutation;
use crate::reductions::put_reduction;
use crate::scalar::{put_csr, put_scalar};
use crate::sink::{Failed, Sink, put};
use rv_decode::{Insn, decode};

/// Writes an instruction at an address.
#[tactic(auto, unfolding(crate::specs::Listing::insn_text))]
fn put_insn<S: Sink>(out: &mut S, insn: &Insn, address: u32) -> Result<(), Failed>
    ensures { Told result (S.contents out.old) (S.contents out.new)
        (S.failures out.old) (S.failures out.new) (insn_text address insn.now) }
{
    match insn {
        Insn::Scalar(insn) => put_scalar(out, insn, address),
        Insn::Csr(insn) => put_csr(out, insn),
        Insn::VSet(insn) => put_vset(out, insn),
        Insn::VArith(insn) => put_arithmetic(out, insn),
        Insn::VMask(insn) => put_mask(out, insn),
        Insn::VPerm(insn) => put_permutation(out, insn),
        Insn::VReduce(insn) => put_reduction(out, insn),
        Insn::VMem(insn) => put_access(out, insn),
        Insn::VMove(insn) => put_move(out, insn),
    }
}

/// Writes what a word means at an address.
#[tactic(auto, unfolding(crate::specs::Listing::meaning_text))]
fn put_meaning<S: Sink>(out: &mut S, meaning: &Option<Insn>, address: u32) -> Result<(), Failed>
    ensures { Told result (S.contents out.old) (S.contents out.new)
        (S.failures out.old) (S.failures out.new) (meaning_text address meaning.now) }
{
    match meaning {
        Some(insn) => put_insn(out, insn, address),
        None => put(out, "illegal".as_bytes()),
    }
}

/// Writes the text of a word that lies at an address, with no end of line: the standard's mnemonic
/// with its suffix, and the operand fields as ` name=value`, or `illegal` for a word that encodes
/// no instruction. After a write that failed the answer is `Err(Failed)`, and what the sink took is
/// the beginning of that text.
#[tactic(auto, unfolding(crate::specs::Listing::listing_text))]
pub fn put_listing<S: Sink>(out: &mut S, word: u32, address: u32) -> Result<(), Failed>
    ensures { Told result (S.contents out.old) (S.contents out.new)
        (S.failures out.old) (S.failures out.new) (listing_text address word) }
{
    put_meaning(out, &decode(word), address)
}
