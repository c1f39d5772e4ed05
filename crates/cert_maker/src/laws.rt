//! Laws of the loops for which certificates are made, each the contract of a function that does nothing when it runs.
//!
//! The last says that what is made passes the check; the others are the steps of that.
ghost use Rattle.cert_maker.specs.Laws.{BodyKeeps, ReachesEnd, FactsAre, SplitsAre, LoopsEnd};
ghost use Rattle.cert_maker.specs.Laws.{LoopsLead, PointersMove, PointersReturn, LengthsAreSet};
ghost use Rattle.cert_maker.specs.Laws.{ReturnsPass, LoopsGoOn, RoundsEnd, CertificatesPass};

use rv_decode::laws::meanings_fit;

/// Vector arithmetic that is legal at the vtype that is known leaves all that is known of numbers as it was.
pub fn body_keeps()
    ensures { BodyKeeps }
{}

/// An access that ends within a buffer lies in the zone of that buffer.
pub fn reaches_end()
    ensures { ReachesEnd }
{}

/// Among the facts of a block there is the one on ra, and on each argument register the one that is stated by its place.
pub fn facts_are()
    ensures { FactsAre }
{}

/// Where an atom was split it is the sum of two new ones, and all others are as they were.
pub fn splits_are()
    ensures { SplitsAre }
{}

/// A loop that is read through ends behind each of its words.
pub fn loops_end()
    ensures { LoopsEnd }
{}

/// A pointer to which the bytes that were worked on are added stays within its buffer.
pub fn pointers_move()
    ensures { PointersMove }
{}

/// Where the count is what is left, what the loop states of a pointer is true of one that was moved on.
pub fn pointers_return()
    ensures { PointersReturn }
{}

/// Behind vsetvli vl and its register are a new atom. The count is made of it, and all else is as it was.
pub fn lengths_are_set()
    ensures { LengthsAreSet }
{}

/// The block of the return passes, whatever the other blocks are, since ra is EXIT there.
pub fn returns_pass()
    ensures { ReturnsPass }
{}

/// Each reading on the way to a loop is of that loop, but for pointers that are still to come.
pub fn loops_lead()
    ensures { LoopsLead }
{}

/// In a round of a loop what is known before a word is, with what that word makes of it, known before the next one.
pub fn loops_go_on()
    ensures { LoopsGoOn }
{}

/// Where a certificate has the loop's block and that of its return, both edges of the branch at a round's end pass.
pub fn rounds_end()
    ensures { RoundsEnd }
{}

/// What is made of a loop that was read passes the check, at the length of vector registers that it is made for.
pub fn certificates_pass()
    ensures { CertificatesPass }
{
    meanings_fit();
}
