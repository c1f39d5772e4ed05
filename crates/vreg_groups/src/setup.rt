//! What a vector instruction works under.

ghost use Rattle.std.specs.Prelude.{◌≡◌};
ghost use Rattle.vreg_groups.specs.Group.{IsGroupInside};
ghost use Rattle.vreg_groups.specs.NewElements.{mask_policy_of, policy_of};
ghost use Rattle.vreg_groups.specs.Setup.{IsSetup, group_at};

use crate::group::Group;
use crate::policies::{Agnostic, Policy};
use crate::vector_type::Vtype;
use rv_decode::{Eew, Reg};

/// What vtype, vl and the run's setting say of every instruction.
#[derive(Clone, Copy)]
pub struct Setup {
    pub vtype: Vtype,
    /// How many elements the body has.
    pub vl: usize,
    pub agnostic: Agnostic,
}

impl Setup {
    /// The group of an operand that begins at `first` and whose elements have this width.
    pub fn group<const VLENB: usize>(&self, first: Reg, eew: Eew) -> Group<VLENB>
        requires setup { IsSetup VLENB self.now }
        requires inside { IsGroupInside self.now.vtype first eew }
        ensures { result ≡ group_at self.now first eew }
    {
        Group::new(&self.vtype, self.vl, first, eew)
    }

    /// What becomes of a destination's tail and inactive elements.
    pub fn policy(&self) -> Policy
        ensures { result ≡ policy_of self.now.agnostic self.now.vtype }
    {
        Policy::of(self.agnostic, &self.vtype)
    }

    /// The same where the destination is a mask.
    pub fn mask_policy(&self) -> Policy
        ensures { result ≡ mask_policy_of self.now.agnostic self.now.vtype }
    {
        Policy::of_mask(self.agnostic, &self.vtype)
    }
}
