//! Where the stack and the buffers lie. `elf_image` says where segments may lie.
ghost use Rattle.std.specs.Prelude.{◌≡◌};
ghost use Rattle.region_mem.specs.declared.layout.TheConstants.{BUFFERS, BUFFERS_END};
ghost use Rattle.region_mem.specs.declared.layout.TheConstants.{MAX_BUFFER_SIZE, PAGE_SIZE, STACK};
ghost use Rattle.region_mem.specs.declared.layout.TheConstants.{STACK_END, STACK_SIZE};

use elf_image::HIGH_SEGMENTS;

/// The stack's first address.
pub const STACK: u32 = 0x2FFF_0000;

/// How many bytes the stack has.
pub const STACK_SIZE: u32 = 0x1_0000;

/// The address past the stack's end, which sp holds at the start of a run.
pub const STACK_END: u32 = STACK + STACK_SIZE;

/// The address of the first buffer.
pub const BUFFERS: u32 = 0x4000_0000;

/// Buffers lie below this address.
pub const BUFFERS_END: u32 = HIGH_SEGMENTS;

/// How many bytes a buffer has at most.
pub const MAX_BUFFER_SIZE: u32 = 16 << 20;

/// Buffers begin at multiples of this number, and at least that number of bytes lies between two of them.
pub const PAGE_SIZE: u32 = 0x1000;

/// Law: where the stack and the buffers lie, and how large a buffer is at most, in numbers.
pub fn layout_in_numbers()
    ensures stack { STACK ≡ 0x2FFF_0000 }
    ensures stack_size { STACK_SIZE ≡ 0x1_0000 }
    ensures stack_end { STACK_END ≡ 0x3000_0000 }
    ensures buffers { BUFFERS ≡ 0x4000_0000 }
    ensures buffers_end { BUFFERS_END ≡ 0x8000_0000 }
    ensures buffer_size { MAX_BUFFER_SIZE ≡ 0x100_0000 }
    ensures page { PAGE_SIZE ≡ 0x1000 }
{}
