ghost use Rattle.std.specs.Prelude.{◌≡◌, ◌%◌, MatchBool, MatchOption, is_some};
ghost use Rattle.vx_base.specs.Bytes.{bytes_of};

use vx_base::Size;

/// A memory that the lanes of a warp read and write. Contracts say by a relation which memory stands before an access and
/// which after it, and by a test which fields are in the memory.
pub trait LaneMemory {
    ghost use Rattle.std.specs.Prelude.{ℕ, Bool};
    ghost use Rattle.vx_base.specs.declared.types.Size.{Size};
    ghost use Rattle.vx_isa.specs.WarpSteps.{Access, Reads, Writes};

    // The memory before an access, the access with its answer, and the memory after it.
    ghost acts: { Self → Access → Self → Type 0 };

    // Whether the field of a size at an address lies wholly in the memory.
    ghost has: { Self → ℕ → Size → Bool };

    // Whether accesses may be made.
    ghost is_sound: { Self → Type 0 } = { λ _. Unit {0} };

    /// The number in a field, the least significant byte first, and None exactly where the field is not wholly in the
    /// memory. The address is a multiple of the size.
    fn read(&mut self, address: u32, size: Size) -> Option<u32>
        requires sound { is_sound self.old }
        requires aligned { address % bytes_of size ≡ 0 }
        ensures inside { is_some result ≡ has self.old address size }
        ensures acts { MatchOption result (self.new ≡ self.old) (λ answer. acts self.old (Reads address size answer) self.new) }
        ensures same_fields { has self.new ≡ has self.old }
        ensures sound { is_sound self.new };

    /// Writes the low bytes of a value to a field, and answers whether the field is wholly in the memory. The address is a
    /// multiple of the size.
    fn write(&mut self, address: u32, size: Size, value: u32) -> bool
        requires sound { is_sound self.old }
        requires aligned { address % bytes_of size ≡ 0 }
        ensures inside { result ≡ has self.old address size }
        ensures acts { MatchBool result (acts self.old (Writes address size value) self.new) (self.new ≡ self.old) }
        ensures same_fields { has self.new ≡ has self.old }
        ensures sound { is_sound self.new };
}
