use crate::banks::Banks;
use crate::bus::Bus;
use crate::port::Port;

/// Shared words through a port.
#[derive(Drop)]
pub struct PortBus<'a> {
    /// The shared words.
    pub banks: &'a Banks,
    /// The port that steps on them.
    pub port: Port,
}

impl Bus for PortBus<'_> {
    ghost use Rattle.std.specs.Prelude.{length};
    ghost use Rattle.memory_banks.specs.Buses.{AddsEntry};
    ghost use Rattle.memory_banks.specs.Ports.{IsOf, number, opening_of};

    ghost acts = { AddsEntry };

    ghost is_sound = { λ b. IsOf b.banks.now b.port };

    ghost count = { λ b. length (opening_of b.banks.now) };

    ghost number = { λ b. number b.port };

    fn load(&mut self, word: u32) -> u32 {
        self.port.load(self.banks, word)
    }

    fn store(&mut self, word: u32, value: u32) {
        self.port.store(self.banks, word, value);
    }

    fn store_part(&mut self, word: u32, keep: u32, value: u32) {
        self.port.store_part(self.banks, word, keep, value);
    }

    fn words(&self) -> u32 {
        self.banks.words()
    }
}
