//! The words of opcode 57: vector arithmetic, and the forms that set vl and vtype.

ghost use Rattle.std.specs.Prelude.{◌≡◌, option_to_list};
ghost use Rattle.rv_decode.specs.Rows.{meanings_by_groups, meanings_by_rows};
ghost use Rattle.rv_decode.specs.Vector.{vset_rows, vector_groups};

use crate::opi_words::{decode_opivi, decode_opivv, decode_opivx};
use crate::opm_words::{decode_opmvv, decode_opmvx};
use crate::word::{bits, register};
use crate::{Insn, VSet};

/// Opcode 57 with f3 7: the forms that set vl and vtype.
#[tactic(auto, unfolding(crate::specs::Vector::vset_rows))]
fn decode_vset(word: u32) -> Option<Insn>
    ensures { option_to_list result ≡ meanings_by_rows vset_rows word }
{
    let rd = register(word, 7);
    match bits(word, 31, 1) {
        0 => Some(Insn::VSet(VSet::Vsetvli {
            rd,
            rs1: register(word, 15),
            vtype: bits(word, 20, 11),
        })),
        1 => match bits(word, 30, 1) {
            0 => {
                if bits(word, 25, 5) == 0 {
                    Some(Insn::VSet(VSet::Vsetvl {
                        rd,
                        rs1: register(word, 15),
                        rs2: register(word, 20),
                    }))
                } else {
                    None
                }
            }
            1 => Some(Insn::VSet(VSet::Vsetivli {
                rd,
                avl: bits(word, 15, 5),
                vtype: bits(word, 20, 10),
            })),
            _ => None,
        },
        _ => None,
    }
}

/// Opcode 57: arithmetic, and the forms that set vl and vtype.
#[tactic(auto, unfolding(crate::specs::Vector::vector_groups))]
pub(crate) fn decode_vector(word: u32) -> Option<Insn>
    ensures { option_to_list result ≡ meanings_by_groups vector_groups word }
{
    match bits(word, 12, 3) {
        0 => decode_opivv(word),
        2 => decode_opmvv(word),
        3 => decode_opivi(word),
        4 => decode_opivx(word),
        6 => decode_opmvx(word),
        7 => decode_vset(word),
        _ => None,
    }
}
