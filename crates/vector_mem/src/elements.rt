//! Elements that are loaded and stored.

ghost use Rattle.std.specs.Prelude.{◌≡◌, length, replicate};

use vreg_groups::Element;

/// An element of a register group as a number in memory.
pub trait Datum: Element {
    ghost use Rattle.std.specs.Prelude.{◌≡◌};
    ghost use Rattle.vector_mem.specs.Accesses.{low_bits};

    /// The element in the low bits of a number.
    fn low_bits(n: u32) -> Self
        ensures { Self.Element.number result ≡ low_bits Self.SIZE n };

    /// The element as a number.
    fn to_number(self) -> u32
        ensures { result ≡ Self.Element.number self };
}

impl Datum for u8 {
    #[tactic(auto, unfolding(crate::specs::Accesses::low_bits))]
    fn low_bits(n: u32) -> u8 {
        (n % 256) as u8
    }

    fn to_number(self) -> u32 {
        u32::from(self)
    }
}

impl Datum for u16 {
    #[tactic(auto, unfolding(crate::specs::Accesses::low_bits))]
    fn low_bits(n: u32) -> u16 {
        (n % 65536) as u16
    }

    fn to_number(self) -> u32 {
        u32::from(self)
    }
}

impl Datum for u32 {
    #[tactic(auto, unfolding(crate::specs::Accesses::low_bits))]
    fn low_bits(n: u32) -> u32 {
        n
    }

    fn to_number(self) -> u32 {
        self
    }
}

/// `$then`, where `$room` is room for the elements of a group, of `$width`.
macro_rules! with_room {
    ($width:expr, $room:ident => $then:expr) => {
        match $width {
            Width::W8 => {
                let mut $room = [0u8; MOST_ELEMENTS];
                $then
            }
            Width::W16 => {
                let mut $room = [0u16; MOST_ELEMENTS / 2];
                $then
            }
            Width::W32 => {
                let mut $room = [0u32; MOST_ELEMENTS / 4];
                $then
            }
        }
    };
}

pub(crate) use with_room;

/// Writes the value to each place.
#[tactic(auto, using(std::proofs::lemmas::List::take_more_set, std::proofs::lemmas::List::replicate_more, std::proofs::lemmas::List::take_all))]
pub fn splat<E: Datum>(value: E, values: &mut [E])
    ensures { values.new ≡ replicate (length values.old) value }
{
    for element in values.iter_mut() {
        *element = value;
    }
}
