//! How elements are moved: strided, indexed, masks and whole registers, and a store that is refused.

use crate::tests::assertions::assert_same;
use crate::tests::fixture::memory;
use region_mem::Fault::StoreFault;
use region_mem::{Fault, Regions, Right};
use rv_decode::Direction::{Load, Store};
use rv_decode::{Addressing, Count, Direction, Insn, Reg, VMem, Width};
use vector_mem::{Access, access, load, store};
use vreg_groups::{Agnostic, Avl, Setup, Vconfig, VregFile, legal_type, vset};

/// The registers and the memory, between which elements are moved.
#[derive(Drop)]
struct Machine {
    registers: VregFile<16>,
    memory: Regions,
}

// Makes the accesses of an instruction on three elements of e16, m1, ta, ma, and tells the first of them.
#[tactic(auto, unfolding(rv_decode::specs::Needs::needs_of))]
fn moved(
    machine: &mut Machine,
    direction: Direction,
    place: Addressing,
    base: u32,
    stride: u32,
) -> Result<Option<Access>, Fault> {
    let config = vset(16, Vconfig::none(), Avl::Of(3), 0xc8);
    let insn = VMem {
        direction,
        place,
        values: Reg::new(8),
        rs1: Reg::new(10),
    };
    let Some(vtype) = legal_type(&config, &Insn::VMem(insn)) else {
        return Err(Fault::Illegal(0));
    };
    let setup = Setup {
        vtype,
        vl: config.vl as usize,
        agnostic: Agnostic::Ones,
    };
    let Machine { registers, memory } = machine;
    let plan = access(&insn, registers, &setup, base, stride);
    match direction {
        Direction::Load => load(&insn, registers, &setup, base, stride, memory)?,
        Direction::Store => store(&insn, registers, &setup, base, stride, memory)?,
    }
    Ok(plan.as_slice().first().copied())
}

/// The stride of elements that each lie two bytes below the one before.
const DOWN: u32 = 0xffff_fffe;

const WHOLE: Addressing = Addressing::Whole {
    width: Width::W32,
    count: Count::One,
};

/// The first access of the strided load, and that of the mask.
const STRIDED: Access = Access {
    element: 0,
    address: 0x2004,
    size: 2,
    right: Right::Read,
};

const MASK: Access = Access {
    element: 0,
    address: 0x2001,
    size: 1,
    right: Right::Read,
};

/// The bytes 0, 1, 3, 4 and 6 of v8 behind the strided load: 0x0605, 0xfffe and 0x0201, and the tail of ones.
const LOADED: [u8; 5] = [0x05, 0x06, 0xff, 0x01, 0xff];

/// Behind the load of the mask: one byte, though the mask has three bits, and the tail of ones.
const MASKED: [u8; 5] = [0x02, 0xff, 0xff, 0xff, 0xff];

#[test]
fn elements_are_moved(rt: HostRuntime) {
    let mut machine = Machine {
        registers: VregFile::<16>::new(),
        memory: memory(rt, rt.alloc()),
    };
    let v8 = Reg::new(8);
    let strided = Addressing::Strided {
        width: Width::W16,
        rs2: Reg::new(11),
        masked: false,
    };
    let indexed = Addressing::Indexed {
        width: Width::W8,
        vs2: v8,
        ordered: false,
        masked: false,
    };
    for (direction, place, base, stride, expected, bytes) in [
        (Load, strided, 0x2004, DOWN, Ok(Some(STRIDED)), LOADED),
        (Store, WHOLE, 0x2004, 0, Err(StoreFault(0x2010)), LOADED), // four bytes past the end
        (Load, Addressing::Mask, 0x2001, 0, Ok(Some(MASK)), MASKED),
        (Store, indexed, 0x2000, 0, Err(StoreFault(0x20ff)), MASKED), // to 2, 255 and 255 of v8 itself
    ] {
        let came = moved(&mut machine, direction, place, base, stride);
        assert_same!(rt; came, expected);
        let Machine { registers, memory } = &machine;
        let came = [
            registers.byte(v8, 0),
            registers.byte(v8, 1),
            registers.byte(v8, 3),
            registers.byte(v8, 4),
            registers.byte(v8, 6),
        ];
        assert_same!(rt; came, bytes);
        assert_same!(rt; memory.byte(0x2004), Some(0x05));
    }
}
