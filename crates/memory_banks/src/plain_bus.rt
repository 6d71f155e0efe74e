ghost use Rattle.std.specs.Prelude.{◌≡◌, ◌^◌, ◌<◌, length};

use crate::bus::Bus;
use std::marker::Model;
use vx_base::WordList;

/// Words of one's own. Contracts see them as a list.
#[derive(Drop)]
pub struct PlainBus {
    words: WordList,
}

impl Model for PlainBus {
    ghost use Rattle.std.specs.Prelude.{ℕ, List, length, ◌<◌, ◌^◌};

    ghost Value = { List ℕ };

    ghost view = { λ b. b.words };

    ghost invariant = { λ b. length b.words < 2 ^ 32 };
}

impl PlainBus {
    /// A bus on these words, of which there are fewer than 2^32.
    pub fn new(words: WordList) -> PlainBus
        requires { length words < 2 ^ 32 }
        ensures { result ≡ words }
    {
        PlainBus { words }
    }

    /// The words as the steps left them.
    pub fn into_words(self) -> WordList
        ensures { result ≡ self }
    {
        self.words
    }
}

impl Bus for PlainBus {
    ghost use Rattle.std.specs.Prelude.{length};
    ghost use Rattle.memory_banks.specs.Buses.{Applies};

    ghost acts = { Applies };

    ghost is_sound = { λ _. Unit {0} };

    ghost count = { λ b. length b };

    ghost number = { λ _. 0 };

    fn load(&mut self, word: u32) -> u32 {
        self.words.items[word as usize]
    }

    fn store(&mut self, word: u32, value: u32) {
        self.words.items[word as usize] = value;
    }

    fn store_part(&mut self, word: u32, keep: u32, value: u32) {
        let old = self.words.items[word as usize];
        self.words.items[word as usize] = old & keep | value;
    }

    fn words(&self) -> u32 {
        self.words.len() as u32
    }
}
