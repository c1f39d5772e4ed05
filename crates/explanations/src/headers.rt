//! Program headers of a file, in lines.
ghost use Rattle.std.specs.Prelude.{◌≡◌};
ghost use Rattle.explanations.specs.Headers.{rights_text};

use crate::address::Address;
use elf_image::{PlacedHeader, ProgramHeader, SegmentRule};
use std::fmt;

/// The line that tells its type, its offset and its address.
#[derive(Clone, Copy)]
struct AddressLine(ProgramHeader);

impl fmt::Display for AddressLine {
    ghost use Rattle.std.specs.Prelude.{Some};
    ghost use Rattle.explanations.specs.Headers.{address_line};

    ghost output = { λ line. Some (address_line line.0) };

    fn fmt<W: fmt::Write>(&self, f: &mut fmt::Formatter<W>) -> fmt::Result {
        let ProgramHeader {
            p_type,
            p_offset,
            ..
        } = self.0;
        let address = Address(u64::from(self.0.p_vaddr));
        writeln!(
            f,
            "  p_type {p_type}, p_offset {p_offset}, p_vaddr {address}"
        )
    }
}

/// The line that tells its sizes and its flags.
#[derive(Clone, Copy)]
struct SizeLine(ProgramHeader);

impl fmt::Display for SizeLine {
    ghost use Rattle.std.specs.Prelude.{Some};
    ghost use Rattle.explanations.specs.Headers.{size_line};

    ghost output = { λ line. Some (size_line line.0) };

    fn fmt<W: fmt::Write>(&self, f: &mut fmt::Formatter<W>) -> fmt::Result {
        let ProgramHeader {
            p_filesz,
            p_memsz,
            p_flags,
            ..
        } = self.0;
        writeln!(
            f,
            "  p_filesz {p_filesz}, p_memsz {p_memsz}, p_flags {p_flags}"
        )
    }
}

/// A program header: its number, where it begins in the file, and what its fields say.
#[derive(Clone, Copy)]
pub(crate) struct HeaderLines(pub(crate) PlacedHeader);

impl fmt::Display for HeaderLines {
    ghost use Rattle.std.specs.Prelude.{Some};
    ghost use Rattle.explanations.specs.Headers.{header_text};

    ghost output = { λ lines. Some (header_text lines.0) };

    #[tactic(auto, unfolding(crate::specs::Headers::header_text))]
    fn fmt<W: fmt::Write>(&self, f: &mut fmt::Formatter<W>) -> fmt::Result {
        let PlacedHeader {
            number,
            offset,
            fields,
        } = self.0;
        let address = AddressLine(fields);
        let size = SizeLine(fields);
        writeln!(f, "  program header {number} at byte {offset} of the file:")?;
        write!(f, "{address}{size}")
    }
}

/// The bit of `p_flags` that lets a segment be executed.
const PF_X: u32 = 1;

/// The one that lets it be written.
const PF_W: u32 = 2;

/// The one that lets it be read.
const PF_R: u32 = 4;

/// What may be done in a segment.
fn rights(header: ProgramHeader) -> &'static str
    ensures { result.now ≡ rights_text header }
{
    let flags = header.p_flags;
    match (flags & PF_R != 0, flags & PF_W != 0, flags & PF_X != 0) {
        (true, true, true) => "read, write, execute",
        (true, true, false) => "read, write",
        (true, false, true) => "read, execute",
        (true, false, false) => "read",
        (false, true, true) => "write, execute",
        (false, true, false) => "write",
        (false, false, true) => "execute",
        (false, false, false) => "neither read nor write nor execute",
    }
}

/// A segment, as a line: its addresses and what may be done in it.
#[derive(Clone, Copy)]
struct SegmentLine(ProgramHeader);

impl fmt::Display for SegmentLine {
    ghost use Rattle.std.specs.Prelude.{Some};
    ghost use Rattle.explanations.specs.Headers.{segment_line};

    ghost output = { λ line. Some (segment_line line.0) };

    fn fmt<W: fmt::Write>(&self, f: &mut fmt::Formatter<W>) -> fmt::Result {
        let ProgramHeader {
            p_vaddr,
            p_memsz,
            ..
        } = self.0;
        let first = Address(u64::from(p_vaddr));
        let end = Address(u64::from(p_vaddr) + u64::from(p_memsz));
        let rights = rights(self.0);
        writeln!(f, "  segment from {first} and below {end}: {rights}")
    }
}

/// The segments, a line each.
#[derive(Clone, Copy)]
pub(crate) struct SegmentLines<'a>(pub(crate) &'a [ProgramHeader]);

impl fmt::Display for SegmentLines<'_> {
    ghost use Rattle.std.specs.Prelude.{Some};
    ghost use Rattle.explanations.specs.Headers.{segment_lines};

    ghost output = { λ lines. Some (segment_lines lines.0.now) };

    #[tactic(auto, unfolding(crate::specs::Headers::segment_lines))]
    fn fmt<W: fmt::Write>(&self, f: &mut fmt::Formatter<W>) -> fmt::Result {
        for segment in self.0 {
            let line = SegmentLine(*segment);
            write!(f, "{line}")?;
        }
        Ok(())
    }
}

/// The line that tells the size of the file, where the rule is on it.
#[derive(Clone, Copy)]
pub(crate) struct FileLine {
    pub(crate) rule: SegmentRule,
    pub(crate) size: usize,
}

impl fmt::Display for FileLine {
    ghost use Rattle.std.specs.Prelude.{Some};
    ghost use Rattle.explanations.specs.Headers.{file_line};

    ghost output = { λ line. Some (file_line line.rule line.size) };

    fn fmt<W: fmt::Write>(&self, f: &mut fmt::Formatter<W>) -> fmt::Result {
        let FileLine { rule, size } = *self;
        match rule {
            SegmentRule::InFile => writeln!(f, "  size of the file: {size}"),
            SegmentRule::Static | SegmentRule::InPlace | SegmentRule::WriteOrExecute => Ok(()),
        }
    }
}

/// What a rule wants of each program header, and the remedy where there is one.
#[derive(Clone, Copy)]
pub(crate) struct RuleLines(pub(crate) SegmentRule);

impl fmt::Display for RuleLines {
    ghost use Rattle.std.specs.Prelude.{Some};
    ghost use Rattle.explanations.specs.Headers.{rule_text};

    ghost output = { λ lines. Some (rule_text lines.0) };

    fn fmt<W: fmt::Write>(&self, f: &mut fmt::Formatter<W>) -> fmt::Result {
        f.write_str(match self.0 {
            SegmentRule::Static => "  wanted: no p_type 2, 3 or 7\n  remedy: link with -static\n",
            SegmentRule::InFile => {
                "  wanted: p_offset + p_filesz within the file, and p_filesz at most p_memsz\n"
            }
            SegmentRule::InPlace => {
                "  wanted: all in 0x00001000..0x20000000 or all in 0x80000000..0xc0000000\n"
            }
            SegmentRule::WriteOrExecute => {
                "  wanted: p_flags without 1 (execute) or without 2 (write)\n"
            }
        })
    }
}
