//! Single elements: element 0 of a register, outside the rules on groups.

ghost use Rattle.std.specs.Prelude.{◌≡◌};
ghost use Rattle.std.specs.Mem.{FitsInMemory};
ghost use Rattle.vector_core.specs.Singles.{first_written};

use crate::elements::VectorElement;
use crate::setup::Setup;
use rv_decode::Reg;
use vreg_groups::VregFile;

/// Writes element 0 of a register, whose rest is tail: nothing where vl is 0.
#[tactic(auto, unfolding(crate::specs::Singles::first_written))]
pub fn write_first<E: VectorElement, const VLENB: usize>(
    registers: &mut VregFile<VLENB>,
    setup: &Setup,
    register: Reg,
    value: E,
)
    requires { FitsInMemory E.row }
    ensures { registers.new ≡ first_written VLENB setup.now E.SIZE register
        (E.Element.number value) registers.old }
{
    if setup.vl != 0 {
        registers.write_group(register, 1, &[value], &[true], setup.policy());
    }
}
