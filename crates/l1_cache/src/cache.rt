ghost use Rattle.std.specs.Prelude.{◌≡◌, ◌+◌, ◌*◌, ◌/◌, ◌%◌, ◌≤◌, ◌<◌, IfOk};
ghost use Rattle.vx_base.specs.Bytes.{bytes_of};
ghost use Rattle.memory_banks.specs.Buses.{ActsTwice};
ghost use Rattle.l1_cache.specs.Accesses.{CarriesChange, ReadsField, WritesField};
ghost use Rattle.l1_cache.specs.Lines.{change_of, emptied, kept_bits, no_lines, written_bits};

use crate::evictor::Evictor;
use crate::field::{field_bits, part_of};
use memory_banks::Bus;
use std::alloc::Global;
use vx_base::{Memory, Size};

/// The cache of a core. Contracts see it by `lines_of`: the lines that each set keeps, the changes that wait, and its counts.
#[derive(Debug, Drop)]
pub struct Cache {
    sets: u32,
    hits: u64,
    misses: u64,
}

impl Cache {
    ghost use Rattle.l1_cache.specs.Caches.{lines_of};

    /// A cache of 1 to 64 sets with 1 to 8 ways each, that keeps no line.
    pub fn new(_alloc: Global, sets: u32, _ways: u32) -> Result<Cache, Memory>
        requires sets { (1 ≤ sets) × (sets ≤ 64) }
        requires ways { (1 ≤ _ways) × (_ways ≤ 8) }
        ensures { IfOk result (λ cache. lines_of cache ≡ no_lines sets 0 0) }
    {
        Ok(Cache {
            sets,
            hits: 0,
            misses: 0,
        })
    }

    /// The number in the field of a size at an address, the least significant byte first. The address is a multiple of the
    /// size, and its line is in the bus's words.
    pub fn read<B: Bus, E: Evictor>(
        &mut self,
        bus: &mut B,
        _evict: &mut E,
        address: u32,
        size: Size,
    ) -> u32
        requires sound { B.is_sound bus.old }
        requires aligned { address % bytes_of size ≡ 0 }
        requires line { address / 64 * 16 + 16 ≤ B.count bus.old }
        ensures read { ReadsField B.acts E.evicts (B.number bus.old) address size (lines_of self.old) bus.old _evict.old result (lines_of self.new) bus.new _evict.new }
        ensures sound { B.is_sound bus.new }
        ensures same_bus { (B.count bus.new ≡ B.count bus.old) × (B.number bus.new ≡ B.number bus.old) }
    {
        let word = bus.load(address / 4);
        part_of(word, address % 4, size)
    }

    /// Writes the low bytes of a value to the field of a size at an address. The address is a multiple of the size, and its
    /// line is in the bus's words.
    pub fn write<B: Bus>(&mut self, bus: &mut B, address: u32, size: Size, value: u32)
        requires sound { B.is_sound bus.old }
        requires aligned { address % bytes_of size ≡ 0 }
        requires line { address / 64 * 16 + 16 ≤ B.count bus.old }
        ensures written { WritesField B.acts (B.number bus.old) address size value (lines_of self.old) bus.old (lines_of self.new) bus.new }
        ensures sound { B.is_sound bus.new }
        ensures same_bus { (B.count bus.new ≡ B.count bus.old) × (B.number bus.new ≡ B.number bus.old) }
    {
        store_field(bus, address, size, value);
    }

    /// Lets go all lines, and begins to count anew.
    pub fn invalidate(&mut self)
        ensures { lines_of self.new ≡ emptied (lines_of self.old) }
    {
        self.hits = 0;
        self.misses = 0;
    }

    /// How many reads found their line.
    pub fn hits(&self) -> u64
        ensures { result ≡ (lines_of self.now).hits }
    {
        self.hits
    }

    /// How many reads did not find their line.
    pub fn misses(&self) -> u64
        ensures { result ≡ (lines_of self.now).misses }
    {
        self.misses
    }
}

// What a write makes on the bus.
fn store_field<B: Bus>(bus: &mut B, address: u32, size: Size, value: u32)
    requires sound { B.is_sound bus.old }
    requires word { address / 4 < B.count bus.old }
    ensures stored { CarriesChange B.acts (B.number bus.old) (change_of address size value) bus.old bus.new }
    ensures sound { B.is_sound bus.new }
    ensures same_bus { (B.count bus.new ≡ B.count bus.old) × (B.number bus.new ≡ B.number bus.old) }
{
    match size {
        Size::One => store_part(bus, address, Size::One, value),
        Size::Two => store_part(bus, address, Size::Two, value),
        Size::Four => bus.store(address / 4, value),
    }
}

// A store that leaves the other bytes of its word.
fn store_part<B: Bus>(bus: &mut B, address: u32, size: Size, value: u32)
    requires sound { B.is_sound bus.old }
    requires word { address / 4 < B.count bus.old }
    ensures stored { ActsTwice B.acts (B.number bus.old) (address / 4) (kept_bits (address % 4) size) (written_bits value (address % 4) size) bus.old bus.new }
    ensures sound { B.is_sound bus.new }
    ensures same_bus { (B.count bus.new ≡ B.count bus.old) × (B.number bus.new ≡ B.number bus.old) }
{
    let at = address % 4;
    let bits = field_bits(at, size);
    bus.store_part(address / 4, !bits, value << (8 * at) & bits);
}
