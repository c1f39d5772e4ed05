//! Laws of the definitions, each on a function that does nothing.

ghost use Rattle.vector_core.specs.KeepLaws.{StepsKeepVectors};
ghost use Rattle.vector_core.specs.Laws.{ElementsAreRegisterResults};

/// At SEW 32 an operation that the scalar instructions have too, from add to remu, makes of an element what the scalar
/// instruction makes of its registers: two definitions, written apart, that agree.
pub fn elements_are_register_results()
    ensures { ElementsAreRegisterResults }
{}

/// A step of a vector instruction, other than one that sets vtype and vl, leaves both as they are, and the registers 32 of
/// vlenb bytes. Every byte outside the registers of the instruction's destination stays as it was: all of them where it
/// has none.
pub fn steps_keep_vectors()
    ensures { StepsKeepVectors }
{}
