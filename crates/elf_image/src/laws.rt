//! Laws of a file with a certificate, each the contract of a function that does nothing when it runs.

ghost use Rattle.elf_image.specs.ReadBack.{AttachedIsRead, SegmentsAreKept};

/// What `attach` writes is a file without fault, which `read` reads as the image of the file it was given, with the
/// certificate. In a segment that shows `e_phoff` or `e_phnum` of the file the new ones stand, and no note segment may.
pub fn attached_is_read()
    ensures { AttachedIsRead }
{}

/// A segment that shows neither `e_phoff` nor `e_phnum` is the same in the file with the certificate.
pub fn segments_are_kept()
    ensures { SegmentsAreKept }
{}
