//! Laws of numbers, of zones, and of what is known where blocks and runs begin, each the contract of a function that does
//! nothing when it runs.
ghost use Rattle.abs_domain.specs.BlockLaws.{BlockNumbersHold, EntryNumbersHold};
ghost use Rattle.abs_domain.specs.Holds.{ResultsHold};
ghost use Rattle.abs_domain.specs.Memories.{StoresKeepZones, ZonesArePermitted};
ghost use Rattle.abs_domain.specs.Described.{ConstantEffects, CsrEffects, ImmediateEffects};
ghost use Rattle.abs_domain.specs.Described.{LoadEffects, RegisterEffects, ShiftEffects};
ghost use Rattle.abs_domain.specs.StartZones.{ZonesAreThere};

/// What an instruction on two registers makes of their numbers holds of the number that it computes.
pub fn register_effects()
    ensures { RegisterEffects }
{}

/// What an instruction on a register and an immediate makes of them holds of the number that it computes.
pub fn immediate_effects()
    ensures { ImmediateEffects }
{}

/// What a shift by an amount that stands in the instruction makes of a register holds of the number that it computes.
pub fn shift_effects()
    ensures { ShiftEffects }
{}

/// What is said of a load holds of what it gives, whatever it reads.
pub fn load_effects()
    ensures { LoadEffects }
{}

/// A number that stands in the instruction is what is said of it.
pub fn constant_effects()
    ensures { ConstantEffects }
{}

/// A described number may be put into its register: what is known afterwards is true of the hart afterwards.
pub fn results_hold()
    ensures { ResultsHold }
{}

/// What lies in one of a memory's zones with the right is permitted there.
pub fn zones_are_permitted()
    ensures { ZonesArePermitted }
{}

/// A store keeps a memory's zones.
pub fn stores_keep_zones()
    ensures { StoresKeepZones }
{}

/// What is said of a read of a CSR holds of what the CSR reads as.
pub fn csr_effects()
    ensures { CsrEffects }
{}

/// Where all that a block states of registers and vl, orders among it, is true of a hart, what is known at the block's start is too.
pub fn block_numbers_hold()
    ensures { BlockNumbersHold }
{}

/// What is known where a run begins is true of a hart whose registers are those of a run's start, where vl is 0.
pub fn entry_numbers_hold()
    ensures { EntryNumbersHold }
{}

/// The memory that a run starts with has the zones of its image and parameters, and none of its areas passes the last
/// address.
pub fn zones_are_there()
    ensures { ZonesAreThere }
{}
