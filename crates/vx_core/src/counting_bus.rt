ghost use Rattle.std.specs.Prelude.{◌≡◌, ◌≤◌};
ghost use Rattle.vx_core.specs.Places.{with_word};

use crate::counts::BANKS;
use memory_banks::{Bus, bank_of};

/// A bus of which each entry is counted on the bank of its line.
#[derive(Drop)]
pub struct CountingBus<'a, B: Bus> {
    /// The bus.
    pub bus: &'a mut B,
    /// How many banks the lines are spread over.
    pub banks: u32,
    /// The entries on each bank.
    pub steps: &'a mut [u64; BANKS],
}

// Counts an entry on a word.
fn count_entry(steps: &mut [u64; BANKS], word: u32, banks: u32)
    requires { (1 ≤ banks) × (banks ≤ 16) }
    ensures { steps.new ≡ with_word banks word steps.old }
{
    let bank = bank_of(word / 16, banks) as usize;
    steps[bank] = steps[bank].saturating_add(1);
}

impl<B: Bus> Bus for CountingBus<'_, B> {
    ghost use Rattle.std.specs.Prelude.{◌≤◌};
    ghost use Rattle.vx_core.specs.CountingBuses.{CountsEntry};

    ghost acts = { λ b e c. CountsEntry B.acts b e c };

    ghost is_sound = { λ b. B.is_sound b.bus.now × (1 ≤ b.banks) × (b.banks ≤ 16) };

    ghost count = { λ b. B.count b.bus.now };

    ghost number = { λ b. B.number b.bus.now };

    fn load(&mut self, word: u32) -> u32 {
        count_entry(self.steps, word, self.banks);
        self.bus.load(word)
    }

    fn store(&mut self, word: u32, value: u32) {
        count_entry(self.steps, word, self.banks);
        self.bus.store(word, value);
    }

    fn store_part(&mut self, word: u32, keep: u32, value: u32) {
        count_entry(self.steps, word, self.banks);
        count_entry(self.steps, word, self.banks);
        self.bus.store_part(word, keep, value);
    }

    fn words(&self) -> u32 {
        self.bus.words()
    }
}
