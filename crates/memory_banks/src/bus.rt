ghost use Rattle.std.specs.Prelude.{◌≡◌, ◌<◌, bit_and};

/// Words that a core steps on. A step is an entry with its answer: contracts say which bus stands before it and which after.
pub trait Bus {
    ghost use Rattle.std.specs.Prelude.{ℕ};
    ghost use Rattle.memory_banks.specs.declared.entry.BusEntry.{BusEntry};
    ghost use Rattle.memory_banks.specs.Entries.{load_entry, store_entry};
    ghost use Rattle.memory_banks.specs.Buses.{ActsTwice};

    // The bus before an entry, the entry, and the bus after it.
    ghost acts: { Self → BusEntry → Self → Type 0 };

    // Whether steps may be made.
    ghost is_sound: { Self → Type 0 };

    // How many words there are.
    ghost count: { Self → ℕ };

    // The number under which its entries stand.
    ghost number: { Self → ℕ };

    /// The word's value.
    fn load(&mut self, word: u32) -> u32
        requires sound { is_sound self.old }
        requires word { word < count self.old }
        ensures acts { acts self.old (load_entry (number self.old) word result) self.new }
        ensures sound { is_sound self.new }
        ensures same { (count self.new ≡ count self.old) × (number self.new ≡ number self.old) };

    /// Stores a value to a word.
    fn store(&mut self, word: u32, value: u32)
        requires sound { is_sound self.old }
        requires word { word < count self.old }
        ensures acts { acts self.old (store_entry (number self.old) word value) self.new }
        ensures sound { is_sound self.new }
        ensures same { (count self.new ≡ count self.old) × (number self.new ≡ number self.old) };

    /// Stores the bits of `value` to a word, and leaves those of `keep`, in two steps.
    fn store_part(&mut self, word: u32, keep: u32, value: u32)
        requires sound { is_sound self.old }
        requires word { word < count self.old }
        requires apart { bit_and keep value ≡ 0 }
        ensures acts { ActsTwice acts (number self.old) word keep value self.old self.new }
        ensures sound { is_sound self.new }
        ensures same { (count self.new ≡ count self.old) × (number self.new ≡ number self.old) };

    /// How many words there are.
    fn words(&self) -> u32
        requires { is_sound self.now }
        ensures { result ≡ count self.now };
}
