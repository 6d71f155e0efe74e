ghost use Rattle.std.specs.Prelude.{◌≡◌, ◌+◌, ◌*◌, ◌%◌, ◌≤◌};
ghost use Rattle.vx_base.specs.Bytes.{bytes_of};
ghost use Rattle.vx_core.specs.CoreMemory.{KeepsLoans, reach_of};
ghost use Rattle.vx_core.specs.Places.{ReadsWords, WritesWords};

use crate::counting_bus::CountingBus;
use crate::counts::BANKS;
use crate::place::{Place, place_of};
use l1_cache::{Cache, Evictor};
use memory_banks::Bus;
use scratchpad::Scratch;
use vx_base::Size;
use warp_state::LaneMemory;

/// What the lanes of a core read and write: its scratchpad, and the words of the bus through its cache.
#[derive(Drop)]
pub struct CoreMemory<'a, B: Bus, E: Evictor> {
    /// The scratchpad.
    pub scratch: &'a mut Scratch,
    /// The cache.
    pub cache: &'a mut Cache,
    /// The bus.
    pub bus: &'a mut B,
    /// How the cache gives up lines.
    pub evict: &'a mut E,
    /// How many banks the words are spread over.
    pub banks: u32,
    /// The entries on each bank.
    pub steps: &'a mut [u64; BANKS],
}

impl<B: Bus, E: Evictor> CoreMemory<'_, B, E> {
    // The number in a field of the bus's words.
    #[tactic(auto, using(crate::proofs::LoanLaws::line_inside))]
    fn read_words(&mut self, offset: u32, size: Size) -> u32
        requires sound { B.is_sound self.old.bus.now }
        requires lines { B.count self.old.bus.now % 16 ≡ 0 }
        requires banks { (1 ≤ self.old.banks) × (self.old.banks ≤ 16) }
        requires aligned { offset % bytes_of size ≡ 0 }
        requires inside { offset + bytes_of size ≤ 4 * B.count self.old.bus.now }
        ensures read { ReadsWords B.acts E.evicts (B.number self.old.bus.now) self.old.banks (reach_of self.old) offset size result (reach_of self.new) }
        ensures kept { KeepsLoans B.count B.number self.old self.new }
        ensures sound { B.is_sound self.new.bus.now }
    {
        let mut bus = CountingBus {
            bus: &mut *self.bus,
            banks: self.banks,
            steps: &mut *self.steps,
        };
        self.cache.read(&mut bus, self.evict, offset, size)
    }

    // Writes the low bytes of a value to a field of the bus's words.
    #[tactic(auto, using(crate::proofs::LoanLaws::line_inside))]
    fn write_words(&mut self, offset: u32, size: Size, value: u32)
        requires sound { B.is_sound self.old.bus.now }
        requires lines { B.count self.old.bus.now % 16 ≡ 0 }
        requires banks { (1 ≤ self.old.banks) × (self.old.banks ≤ 16) }
        requires aligned { offset % bytes_of size ≡ 0 }
        requires inside { offset + bytes_of size ≤ 4 * B.count self.old.bus.now }
        ensures written { WritesWords B.acts (B.number self.old.bus.now) self.old.banks (reach_of self.old) offset size value (reach_of self.new) }
        ensures kept { KeepsLoans B.count B.number self.old self.new }
        ensures sound { B.is_sound self.new.bus.now }
    {
        let mut bus = CountingBus {
            bus: &mut *self.bus,
            banks: self.banks,
            steps: &mut *self.steps,
        };
        self.cache.write(&mut bus, offset, size, value);
    }
}

impl<B: Bus, E: Evictor> LaneMemory for CoreMemory<'_, B, E> {
    ghost use Rattle.std.specs.Prelude.{◌≡◌, ◌%◌, ◌≤◌};
    ghost use Rattle.vx_core.specs.CoreMemory.{ActsThrough};
    ghost use Rattle.vx_core.specs.Places.{fields};

    ghost acts = { λ m a n. ActsThrough B.acts E.evicts B.count B.number m a n };

    ghost has = { λ m. fields (B.count m.bus.now) };

    ghost is_sound = { λ m. B.is_sound m.bus.now × (B.count m.bus.now % 16 ≡ 0) × (1 ≤ m.banks) × (m.banks ≤ 16) };

    fn read(&mut self, address: u32, size: Size) -> Option<u32> {
        match place_of(address, size, self.bus.words()) {
            Place::Scratchpad { offset } => self.scratch.read(offset, size),
            Place::Words { offset } => Some(self.read_words(offset, size)),
            Place::Outside => None,
        }
    }

    fn write(&mut self, address: u32, size: Size, value: u32) -> bool {
        match place_of(address, size, self.bus.words()) {
            Place::Scratchpad { offset } => self.scratch.write(offset, size, value),
            Place::Words { offset } => {
                self.write_words(offset, size, value);
                true
            }
            Place::Outside => false,
        }
    }
}
