//! The numbers of the ELF standard and of a certificate's note: laws, each the contract of a function that does nothing
//! when it runs.
ghost use Rattle.std.specs.Prelude.{◌≡◌, ◌∷◌, []};
ghost use Rattle.elf_image.specs.declared.faults.TheConstants.{EI_CLASS, EI_DATA, EI_VERSION};
ghost use Rattle.elf_image.specs.declared.faults.TheConstants.{ELF_HEADER_SIZE, ELFCLASS32};
ghost use Rattle.elf_image.specs.declared.faults.TheConstants.{ELFDATA2LSB, EM_RISCV, ET_EXEC};
ghost use Rattle.elf_image.specs.declared.faults.TheConstants.{EV_CURRENT, EXTENSION_FLAGS, MAGIC};
ghost use Rattle.elf_image.specs.declared.header.TheConstants.{E_EHSIZE, E_ENTRY, E_FLAGS};
ghost use Rattle.elf_image.specs.declared.header.TheConstants.{E_MACHINE, E_PHENTSIZE, E_PHNUM};
ghost use Rattle.elf_image.specs.declared.header.TheConstants.{E_PHOFF, E_TYPE, E_VERSION};
ghost use Rattle.elf_image.specs.declared.header.TheConstants.{P_FILESZ, P_FLAGS, P_MEMSZ};
ghost use Rattle.elf_image.specs.declared.header.TheConstants.{P_OFFSET, P_TYPE, P_VADDR};
ghost use Rattle.elf_image.specs.declared.header.TheConstants.{PF_R, PF_W, PF_X};
ghost use Rattle.elf_image.specs.declared.header.TheConstants.{PROGRAM_HEADER_SIZE, PT_DYNAMIC};
ghost use Rattle.elf_image.specs.declared.header.TheConstants.{PT_INTERP, PT_LOAD, PT_NOTE, PT_TLS};
ghost use Rattle.elf_image.specs.declared.note.TheConstants.{CERTIFICATE, N_DESCSZ, N_NAMESZ};
ghost use Rattle.elf_image.specs.declared.note.TheConstants.{N_TYPE, NAME, NOTE_HEADER_SIZE};

/// Law: where the fields of the ELF header lie, and its size ("ELF Identification", "ELF Header").
pub fn header_in_numbers()
    ensures class { EI_CLASS ≡ 4 }
    ensures data { EI_DATA ≡ 5 }
    ensures ident_version { EI_VERSION ≡ 6 }
    ensures kind { E_TYPE ≡ 16 }
    ensures machine { E_MACHINE ≡ 18 }
    ensures version { E_VERSION ≡ 20 }
    ensures entry { E_ENTRY ≡ 24 }
    ensures phoff { E_PHOFF ≡ 28 }
    ensures flags { E_FLAGS ≡ 36 }
    ensures ehsize { E_EHSIZE ≡ 40 }
    ensures phentsize { E_PHENTSIZE ≡ 42 }
    ensures phnum { E_PHNUM ≡ 44 }
    ensures size { ELF_HEADER_SIZE ≡ 52 }
{}

/// Law: what an executable file for RISC-V has there: 0x7f and `ELF`, 32 bits, the lowest byte first, version 1. Its
/// flags have none of EF_RISCV_RVC (0x1), EF_RISCV_FLOAT_ABI (0x6) and EF_RISCV_RVE (0x8).
pub fn executables_in_numbers()
    ensures magic { MAGIC ≡ 0x7f ∷ 0x45 ∷ 0x4c ∷ 0x46 ∷ [] }
    ensures class { ELFCLASS32 ≡ 1 }
    ensures data { ELFDATA2LSB ≡ 1 }
    ensures version { EV_CURRENT ≡ 1 }
    ensures kind { ET_EXEC ≡ 2 }
    ensures machine { EM_RISCV ≡ 243 }
    ensures flags { EXTENSION_FLAGS ≡ 0xf }
{}

/// Law: where the fields of a program header lie, its size, and what its type and flags mean ("Program Header").
pub fn program_headers_in_numbers()
    ensures kind { P_TYPE ≡ 0 }
    ensures offset { P_OFFSET ≡ 4 }
    ensures vaddr { P_VADDR ≡ 8 }
    ensures filesz { P_FILESZ ≡ 16 }
    ensures memsz { P_MEMSZ ≡ 20 }
    ensures flags { P_FLAGS ≡ 24 }
    ensures size { PROGRAM_HEADER_SIZE ≡ 32 }
    ensures load { PT_LOAD ≡ 1 }
    ensures dynamic { PT_DYNAMIC ≡ 2 }
    ensures interp { PT_INTERP ≡ 3 }
    ensures note { PT_NOTE ≡ 4 }
    ensures tls { PT_TLS ≡ 7 }
    ensures execute { PF_X ≡ 1 }
    ensures write { PF_W ≡ 2 }
    ensures read { PF_R ≡ 4 }
{}

/// Law: where the fields of a note's header lie, and its size ("Note Section"). The note of a certificate has type 1 and
/// the name `RVVBOX`, with a zero byte.
pub fn notes_in_numbers()
    ensures namesz { N_NAMESZ ≡ 0 }
    ensures descsz { N_DESCSZ ≡ 4 }
    ensures kind { N_TYPE ≡ 8 }
    ensures size { NOTE_HEADER_SIZE ≡ 12 }
    ensures name { NAME ≡ 0x52 ∷ 0x56 ∷ 0x56 ∷ 0x42 ∷ 0x4f ∷ 0x58 ∷ 0 ∷ [] }
    ensures certificate { CERTIFICATE ≡ 1 }
{}
