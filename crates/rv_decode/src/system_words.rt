//! The words of opcode 73: ecall, and the six forms on CSRs.

ghost use Rattle.std.specs.Prelude.{◌≡◌, ◌++◌, option_to_list};
ghost use Rattle.rv_decode.specs.Rows.{meanings_by_groups, meanings_by_rows};
ghost use Rattle.rv_decode.specs.System.{csr_form as form_of, writable, read_only, system_groups};

use crate::word::{bits, register};
use crate::{CsrAction, CsrInsn, CsrName, CsrSource, Insn, ScalarInsn};

fn csr_form(word: u32, action: CsrAction, csr: CsrName, source: CsrSource) -> Insn
    ensures { result ≡ form_of action csr source word }
{
    Insn::Csr(CsrInsn {
        action,
        csr,
        source,
        rd: register(word, 7),
    })
}

/// A form that always writes: it can't name a read-only CSR.
fn decode_write(word: u32, source: CsrSource) -> Option<Insn>
    ensures { option_to_list result
        ≡ meanings_by_rows (writable CsrAction.Write (λ _. source)) word }
{
    match bits(word, 20, 12) {
        0x009 => Some(csr_form(word, CsrAction::Write, CsrName::Vxsat, source)),
        0x00a => Some(csr_form(word, CsrAction::Write, CsrName::Vxrm, source)),
        0x00f => Some(csr_form(word, CsrAction::Write, CsrName::Vcsr, source)),
        _ => None,
    }
}

/// A form that sets or clears bits: it may name a read-only CSR where its register is x0, or its immediate 0.
fn decode_change(word: u32, action: CsrAction, source: CsrSource) -> Option<Insn>
    ensures { option_to_list result
        ≡ meanings_by_rows (writable action (λ _. source) ++ read_only action (λ _. source)) word }
{
    let read_only = bits(word, 15, 5) == 0;
    match bits(word, 20, 12) {
        0x009 => Some(csr_form(word, action, CsrName::Vxsat, source)),
        0x00a => Some(csr_form(word, action, CsrName::Vxrm, source)),
        0x00f => Some(csr_form(word, action, CsrName::Vcsr, source)),
        0xc20 if read_only => Some(csr_form(word, action, CsrName::Vl, source)),
        0xc21 if read_only => Some(csr_form(word, action, CsrName::Vtype, source)),
        0xc22 if read_only => Some(csr_form(word, action, CsrName::Vlenb, source)),
        _ => None,
    }
}

/// Opcode 73.
#[tactic(auto, unfolding(crate::specs::System::system_groups))]
pub(crate) fn decode_system(word: u32) -> Option<Insn>
    ensures { option_to_list result ≡ meanings_by_groups system_groups word }
{
    let by_register = CsrSource::Register(register(word, 15));
    let by_immediate = CsrSource::Immediate(bits(word, 15, 5));
    match bits(word, 12, 3) {
        0 => {
            if bits(word, 7, 5) == 0 && bits(word, 15, 17) == 0 {
                Some(Insn::Scalar(ScalarInsn::Ecall))
            } else {
                None
            }
        }
        1 => decode_write(word, by_register),
        2 => decode_change(word, CsrAction::Set, by_register),
        3 => decode_change(word, CsrAction::Clear, by_register),
        5 => decode_write(word, by_immediate),
        6 => decode_change(word, CsrAction::Set, by_immediate),
        7 => decode_change(word, CsrAction::Clear, by_immediate),
        _ => None,
    }
}
