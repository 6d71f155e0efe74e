//! Arrays of a launch, and the places of their elements.
ghost use Rattle.std.specs.Prelude.{◌≡◌, ◌*◌, ◌%◌, ◌^◌, ◌<◌, ◌≤◌};
ghost use Rattle.vx_base.specs.Values.{elem_bytes};
ghost use Rattle.item_settings.specs.Settings.{byte_in, elem_size, element_in, low_bytes as low_bytes_of, place_in};

use item_acts::Place;
use vx_base::{Elem, Size, fit};

/// An array of a launch, as the work-items of a kernel reach it.
#[derive(Clone, Copy, Debug, PartialEq, Eq)]
pub struct ItemArray {
    /// Whether each group has its own, where it is otherwise a buffer.
    pub local: bool,
    /// The number of the buffer, or of the local array.
    pub number: u32,
    /// How many elements it has.
    pub count: u32,
    /// The type of its elements.
    pub elem: Elem,
    /// Whether a store may change it.
    pub writable: bool,
}

impl ItemArray {
    /// Byte k of the array, as an item of this group reaches it.
    fn byte(self, group: u32, k: u32) -> Place
        ensures { result ≡ byte_in group self k }
    {
        if self.local {
            Place::Local {
                group,
                array: self.number,
                byte: k,
            }
        } else {
            Place::Global {
                buffer: self.number,
                byte: k,
            }
        }
    }

    /// Where element i begins, as an item of this group reaches it.
    #[tactic(auto, using(crate::proofs::Sizes::begins_below))]
    pub fn element(self, group: u32, i: u32) -> Place
        requires within { i < self.count }
        requires room { self.count * elem_bytes self.elem ≤ 2 ^ 32 }
        ensures { result ≡ element_in group self i }
    {
        self.byte(group, i * bytes_of(self.elem))
    }

    /// Where an element of a type begins, whether or not the array has it: numbers of bytes are words.
    pub fn place(self, group: u32, elem: Elem, i: u32) -> Place
        ensures { result ≡ place_in group self elem i }
    {
        self.byte(group, i.wrapping_mul(bytes_of(elem)))
    }
}

/// How many bytes an element has.
fn bytes_of(elem: Elem) -> u32
    ensures { result ≡ elem_bytes elem }
{
    match elem {
        Elem::Char | Elem::Uchar => 1,
        Elem::Short | Elem::Ushort => 2,
        Elem::Int | Elem::Uint => 4,
    }
}

/// The size of an element.
pub fn size_of_elem(elem: Elem) -> Size
    ensures { result ≡ elem_size elem }
{
    match elem {
        Elem::Char | Elem::Uchar => Size::One,
        Elem::Short | Elem::Ushort => Size::Two,
        Elem::Int | Elem::Uint => Size::Four,
    }
}

/// The low bytes of a value, as many as an element has.
pub fn low_bytes(elem: Elem, value: u32) -> u32
    ensures { result ≡ low_bytes_of elem value }
{
    match elem {
        Elem::Char => fit(Elem::Uchar, value),
        Elem::Uchar => fit(Elem::Uchar, value),
        Elem::Short => fit(Elem::Ushort, value),
        Elem::Ushort => fit(Elem::Ushort, value),
        Elem::Int => fit(Elem::Uint, value),
        Elem::Uint => fit(Elem::Uint, value),
    }
}
