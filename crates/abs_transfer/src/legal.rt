//! Whether a vector instruction is legal, as far as vtype is known.
ghost use Rattle.std.specs.Prelude.{◌≡◌};
ghost use Rattle.abs_transfer.specs.Legal.{legal_check as legal_check_of};
ghost use Rattle.abs_transfer.specs.Legal.{needs_vtype as needs_vtype_of};
ghost use Rattle.abs_transfer.specs.Legal.{operand_needs_vtype as operand_needs_vtype_of};

use abs_domain::Why;
use rv_decode::{Extent, Insn, Operand, needs};
use vreg_groups::{Vconfig, legal};

/// How far an operand reaches depends on vtype, unless it is of whole registers.
fn operand_needs_vtype(operand: Option<Operand>) -> bool
    ensures { result ≡ operand_needs_vtype_of operand }
{
    match operand {
        None => false,
        Some(operand) => match operand.extent {
            Extent::Group(_) | Extent::Single(_) | Extent::Mask => true,
            Extent::Whole(_) => false,
        },
    }
}

/// Whether an instruction has an operand that does.
#[tactic(auto, unfolding(crate::specs::Legal::needs_vtype))]
fn needs_vtype(insn: &Insn) -> bool
    ensures { result ≡ needs_vtype_of insn.now }
{
    let operands = needs(insn);
    operand_needs_vtype(operands.destination)
        || operand_needs_vtype(operands.vs2)
        || operand_needs_vtype(operands.vs1)
}

/// The answer on an instruction: where vtype is not known, it has to be legal at any.
#[tactic(auto, unfolding(crate::specs::Legal::legal_check))]
pub fn legal_check(vtype: Option<u8>, insn: &Insn) -> Result<(), Why>
    ensures { result ≡ legal_check_of vtype insn.now }
{
    match vtype {
        Some(bits) => {
            let config = Vconfig {
                vtype: u32::from(bits),
                vl: 0,
            };
            if legal(&config, insn) {
                Ok(())
            } else {
                Err(Why::IllegalWord)
            }
        }
        None => {
            if legal(&Vconfig::none(), insn) {
                Ok(())
            } else if needs_vtype(insn) {
                Err(Why::VtypeUnknown)
            } else {
                Err(Why::IllegalWord)
            }
        }
    }
}
