//! How large a file and its image may be, and where its segments may lie.
ghost use Rattle.std.specs.Prelude.{◌≡◌};
ghost use Rattle.elf_image.specs.declared.header.TheConstants.{MAX_PROGRAM_HEADERS};
ghost use Rattle.elf_image.specs.declared.layout.TheConstants.{HIGH_SEGMENTS, HIGH_SEGMENTS_END};
ghost use Rattle.elf_image.specs.declared.layout.TheConstants.{LOW_SEGMENTS, LOW_SEGMENTS_END};
ghost use Rattle.elf_image.specs.declared.layout.TheConstants.{MAX_FILE_SIZE, MAX_MEMORY_SIZE};
ghost use Rattle.elf_image.specs.declared.layout.TheConstants.{MAX_SEGMENTS};

/// How many bytes a file has at most.
pub const MAX_FILE_SIZE: usize = 4 << 20;

/// How many segments an image has at most.
pub const MAX_SEGMENTS: usize = 16;

/// How many bytes the segments of an image have in memory at most, all together.
pub const MAX_MEMORY_SIZE: u64 = 16 << 20;

/// Segments lie in one of two parts of memory. The lower one begins here,
pub const LOW_SEGMENTS: u32 = 0x1000;

/// and this is the address past its end.
pub const LOW_SEGMENTS_END: u32 = 0x2000_0000;

/// The higher one begins here,
pub const HIGH_SEGMENTS: u32 = 0x8000_0000;

/// and this is the address past its end.
pub const HIGH_SEGMENTS_END: u32 = 0xC000_0000;

/// Law: the limits and the places of segments, in numbers.
pub fn limits_in_numbers()
    ensures file { MAX_FILE_SIZE ≡ 0x40_0000 }
    ensures headers { MAX_PROGRAM_HEADERS ≡ 64 }
    ensures segments { MAX_SEGMENTS ≡ 16 }
    ensures memory { MAX_MEMORY_SIZE ≡ 0x100_0000 }
    ensures low { LOW_SEGMENTS ≡ 0x1000 }
    ensures low_end { LOW_SEGMENTS_END ≡ 0x2000_0000 }
    ensures high { HIGH_SEGMENTS ≡ 0x8000_0000 }
    ensures high_end { HIGH_SEGMENTS_END ≡ 0xC000_0000 }
{}
