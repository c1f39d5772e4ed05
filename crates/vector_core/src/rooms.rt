//! Rooms for the elements of an instruction: as many as eight registers hold. A room is cleared where its function is
//! entered, so it has no more than these, and it stands in the function that uses it.

ghost use Rattle.std.specs.Prelude.{◌*◌, ◌≤◌};
ghost use Rattle.rv_decode.specs.Instructions.{bytes_of_width};
ghost use Rattle.vector_core.specs.Setup.{IsSetup};

use crate::setup::Setup;

/// A law, which does nothing when it runs: eight registers hold the elements of each body.
#[tactic(auto, using(crate::proofs::Lengths::body_room))]
pub fn body_law<const VLENB: usize>(setup: &Setup)
    requires { IsSetup VLENB setup.now }
    ensures { bytes_of_width setup.now.vtype.sew * setup.now.vl ≤ 8 * VLENB }
{
    let _ = setup;
}

/// A call of `$on_elements`, with room for as many elements as eight registers of 16, 32 or 64 bytes hold.
macro_rules! with_room {
    (
        $on_elements:ident<$($element:ident),*>($in_16:literal, $in_32:literal, $in_64:literal)(
            $($argument:expr),*
        )
    ) => {
        match VLENB {
            16 => $on_elements::<$($element,)* $in_16, VLENB>($($argument),*),
            32 => $on_elements::<$($element,)* $in_32, VLENB>($($argument),*),
            _ => $on_elements::<$($element,)* $in_64, VLENB>($($argument),*),
        }
    };
}

/// A call of `$on_elements` on elements of SEW.
macro_rules! on_sew {
    ($setup:expr, $on_elements:ident($($argument:expr),*)) => {{
        let sew = $setup.vtype.sew;
        match sew {
            Width::W8 => with_room!($on_elements<u8>(128, 256, 512)($($argument),*)),
            Width::W16 => with_room!($on_elements<u16>(64, 128, 256)($($argument),*)),
            Width::W32 => with_room!($on_elements<u32>(32, 64, 128)($($argument),*)),
        }
    }};
}

pub(crate) use on_sew;
pub(crate) use with_room;
