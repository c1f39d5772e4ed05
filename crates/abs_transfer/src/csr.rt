//! What each instruction on a CSR makes of what is known.
ghost use Rattle.std.specs.Prelude.{◌≡◌, ◌<◌, length};
ghost use Rattle.abs_transfer.specs.Csr.{csr_after as csr_after_of};

use abs_domain::{MOST_ATOMS, Numbers, VL, csr_effect};
use rv_decode::CsrInsn;
use std::alloc::Allocator;

/// What an instruction on a CSR makes of what is known, with `vlenb` bytes in a vector register.
#[tactic(auto, unfolding(crate::specs::Csr::csr_after))]
pub fn after_csr<A: Allocator>(numbers: &mut Numbers<A>, vlenb: u32, insn: CsrInsn)
    requires { length numbers.old.atoms < MOST_ATOMS }
    ensures { numbers.new ≡ csr_after_of vlenb insn numbers.old }
{
    let effect = csr_effect(insn.csr, vlenb, &numbers.value(VL));
    numbers.set_result(insn.rd, effect);
}
