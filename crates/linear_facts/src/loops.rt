//! Laws of the forms of numbers in a loop that goes through buffers a part at a time.
ghost use Rattle.linear_facts.specs.LoopForms.{MovedRange, LeftRange, RoundPaid, AtomRange};
ghost use Rattle.linear_facts.specs.LoopForms.{NumberRange, PointerRange, SamePaid};

/// A pointer that was moved on by what is done now stays within its buffer.
pub fn moved_range()
    ensures { MovedRange }
{}

/// What is left behind a round is from 0 to the most that there were less the most done in one round.
pub fn left_range()
    ensures { LeftRange }
{}

/// A budget of k for each of those that are left pays for a round of k instructions, and one more for each left then.
pub fn round_paid()
    ensures { RoundPaid }
{}

/// The form that is a number has that number as its range.
pub fn number_range()
    ensures { NumberRange }
{}

/// The form that is an atom has the atom's range, where the atom was not split.
pub fn atom_range()
    ensures { AtomRange }
{}

/// A pointer lies within its buffer, at an element, where a round begins.
pub fn pointer_range()
    ensures { PointerRange }
{}

/// A budget pays for itself.
pub fn same_paid()
    ensures { SamePaid }
{}
