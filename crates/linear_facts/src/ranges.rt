//! Ranges of numbers, and atoms with their ranges.
ghost use Rattle.std.specs.Prelude.{◌≡◌, ℕ, ◌≤◌, List, Option, min, max, nat_le, if◌then◌else◌};
ghost use Rattle.std.specs.Prelude.{Some, None};
ghost use Rattle.linear_facts.specs.Ranges.{end_of, meet_of, range_at, split_at, atom_at};
ghost use Rattle.linear_facts.specs.Ranges.{changed_or};

use std::marker::Model;

/// The numbers from `lo` to `hi`, both included.
#[derive(Clone, Copy, PartialEq, Eq)]
pub struct Range {
    pub lo: u32,
    pub hi: u32,
}

/// One of the two ends of a range.
#[derive(Clone, Copy, PartialEq, Eq)]
pub enum End {
    Lo,
    Hi,
}

impl Range {
    /// All numbers of 32 bits.
    pub const FULL: Range = Range {
        lo: 0,
        hi: u32::MAX,
    };

    /// The lower or the upper end.
    pub fn end(&self, end: End) -> u32
        ensures { result ≡ end_of end self.now }
    {
        match end {
            End::Lo => self.lo,
            End::Hi => self.hi,
        }
    }

    /// The numbers in both ranges, or `None` where there are none.
    pub fn meet(&self, other: &Range) -> Option<Range>
        ensures { result ≡ meet_of self.now other.now }
    {
        let lo = self.lo.max(other.lo);
        let hi = self.hi.min(other.hi);
        if lo <= hi {
            Some(Range { lo, hi })
        } else {
            None
        }
    }
}

/// The two atoms whose sum an atom is, in whole numbers.
#[derive(Clone, Copy, PartialEq, Eq)]
pub struct Split {
    pub first: u16,
    pub second: u16,
}

/// What is known of an unknown number: its range, and the two atoms whose sum it is, if it was split.
#[derive(Clone, Copy, PartialEq, Eq)]
pub struct Atom {
    pub range: Range,
    pub split: Option<Split>,
}

/// A range that stands in place of an atom's own.
#[derive(Clone, Copy, PartialEq, Eq)]
pub struct Change {
    pub atom: u16,
    pub range: Range,
}

/// Atoms by their numbers, and up to two ranges in place of theirs.
#[derive(Drop)]
pub struct Atoms<'a> {
    pub atoms: &'a [Atom],
    pub first: Option<Change>,
    pub second: Option<Change>,
}

impl<'a> Model for Atoms<'a> {
    ghost use Rattle.linear_facts.specs.Ranges.{AtomTable};

    ghost Value = { AtomTable };

    ghost view = { λ a. record { atoms = a.atoms.now; first = a.first; second = a.second } };
}

impl Atoms<'_> {
    /// The range of an atom: the one that stands in place of its own, else its own. An atom whose number
    /// is past the list may be any number of 32 bits.
    #[tactic(auto, unfolding(crate::specs::Ranges::range_at))]
    pub fn range(&self, atom: u16) -> Range
        ensures { result ≡ range_at self.now atom }
    {
        let own = self.known(atom).range;
        changed_or(self.first, atom, changed_or(self.second, atom, own))
    }

    /// The two atoms whose sum an atom is, if it was split.
    #[tactic(auto, unfolding(crate::specs::Ranges::split_at))]
    pub fn split(&self, atom: u16) -> Option<Split>
        ensures { result ≡ split_at self.now atom }
    {
        self.known(atom).split
    }

    /// What the list says of an atom.
    fn known(&self, atom: u16) -> Atom
        ensures { result ≡ atom_at self.now atom }
    {
        match self.atoms.get(usize::from(atom)) {
            Some(known) => *known,
            None => Atom {
                range: Range::FULL,
                split: None,
            },
        }
    }
}

/// The change's range where it is for this atom, else the other.
fn changed_or(change: Option<Change>, atom: u16, other: Range) -> Range
    ensures { result ≡ changed_or change atom other }
{
    match change {
        Some(change) => if change.atom == atom {
            change.range
        } else {
            other
        },
        None => other,
    }
}
