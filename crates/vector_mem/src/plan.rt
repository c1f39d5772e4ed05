//! The accesses of an instruction, in an array vector.

ghost use Rattle.std.specs.Prelude.{◌≡◌, ◌<◌, ◌++◌, [], ◌∷◌, length};
ghost use Rattle.vreg_groups.specs.declared.vector_type.TheConstants.{MOST_ELEMENTS};

use arrayvec::ArrayVec;
use region_mem::Right;
use std::marker::Model;
use vreg_groups::MOST_ELEMENTS;

/// The access of an element: where it begins, how many bytes it has, and the right that it needs.
#[derive(Clone, Copy, PartialEq, Eq)]
pub struct Access {
    pub element: usize,
    pub address: u32,
    pub size: u8,
    pub right: Right,
}

impl Default for Access {
    /// The first byte of memory, to be read.
    fn default() -> Access {
        Access {
            element: 0,
            address: 0,
            size: 1,
            right: Right::Read,
        }
    }
}

/// The accesses of an instruction, the lowest-numbered element's first: at most `MOST_ELEMENTS` of them.
#[derive(Drop)]
pub struct AccessPlan {
    accesses: ArrayVec<Access, MOST_ELEMENTS>,
}

impl Model for AccessPlan {
    ghost use Rattle.std.specs.Prelude.{◌≤◌, List, length};
    ghost use Rattle.vector_mem.specs.declared.plan.Access.{Access};
    ghost use Rattle.vreg_groups.specs.declared.vector_type.TheConstants.{MOST_ELEMENTS};

    ghost Value = { List Access };

    ghost view = { λ p. p.accesses.items };

    ghost invariant = { λ p. length p.accesses.items ≤ MOST_ELEMENTS };
}

impl AccessPlan {
    /// No access.
    pub(crate) fn new() -> AccessPlan
        ensures { result ≡ [] }
    {
        AccessPlan {
            accesses: ArrayVec::new(),
        }
    }

    /// One access more.
    pub(crate) fn push(&mut self, access: Access)
        requires { length self.old < MOST_ELEMENTS }
        ensures { self.new ≡ self.old ++ access ∷ [] }
    {
        self.accesses.push(access);
    }

    /// The accesses, the lowest-numbered element's first.
    pub fn as_slice(&self) -> &[Access]
        ensures { result.now ≡ self.now }
    {
        self.accesses.as_slice()
    }
}
