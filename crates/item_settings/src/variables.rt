//! Variables by number.
ghost use Rattle.std.specs.Prelude.{◌≡◌, ◌<◌, ℕ, OnOk, slice_index, vec_len};
ghost use Rattle.item_acts.specs.Launches.{put_at};

use std::alloc::AllocError;

/// The values of the first variables. Those behind them are 0.
#[derive(Debug, Drop)]
pub struct Variables {
    /// The values in order.
    pub items: Vec<u32>,
}

impl Variables {
    /// The value of a variable.
    pub fn get(&self, variable: u32) -> u32
        ensures { result ≡ slice_index self.now.items.items variable }
    {
        self.items.get(variable as usize).copied().unwrap_or(0)
    }

    /// Puts a value into a variable.
    #[tactic(auto, using(crate::proofs::Sizes::put_is))]
    pub fn put(&mut self, variable: u32, value: u32) -> Result<(), AllocError>
        ensures { OnOk result (slice_index self.new.items.items ≡ put_at variable value (slice_index self.old.items.items)) }
    {
        let at = variable as usize;
        self.grow(at)?;
        self.items[at] = value;
        Ok(())
    }

    /// Zeros are added until there is a value at this place.
    fn grow(&mut self, at: usize) -> Result<(), AllocError>
        ensures same { OnOk result ((k : ℕ) → slice_index self.new.items.items k ≡ slice_index self.old.items.items k) }
        ensures within { OnOk result (at < vec_len self.new.items) }
    {
        while self.items.len() <= at {
            self.items.push(0)?;
        }
        Ok(())
    }
}
