ghost use Rattle.std.specs.Prelude.{◌≡◌, ◌≢◌, ◌+◌, ◌%◌, ◌^◌, ◌<◌, [], ◌∷◌, ◌++◌, length, All, IfOk};

use crate::port::Port;
use crate::rule::{History, View};
use atomic_table::Table;
use std::alloc::{AllocError, Global};
use vx_base::{Memory, WordList};

/// Shared words. One word more stands behind them, which is no word of the banks, so that there is always one to step on.
#[derive(Drop)]
pub struct Banks {
    pub(crate) table: Table<(), View, WordList, History, Global>,
    ghost one_more: { table.shared.table_id.words ≡ length table.shared.key + 1 },
    ghost no_slots: { table.shared.table_id.slots ≡ 0 },
    ghost few: { length table.shared.key < 2 ^ 32 },
}

impl Banks {
    ghost use Rattle.std.specs.List.{range_with_len};
    ghost use Rattle.memory_banks.specs.Ports.{HasAll, IsOf, held, opening_of, seen};

    /// The shared words and the first port, which has number 0 and holds 1 to 15.
    pub fn of_words(alloc: Global, words: &WordList) -> Result<(Banks, Port), Memory>
        requires { length words.now < 2 ^ 32 }
        ensures opening { IfOk result (λ r. opening_of r.0 ≡ words.now) }
        ensures port { IfOk result (λ r. IsOf r.0 r.1 × HasAll r.1) }
        ensures holds { IfOk result (λ r. held r.1 ≡ range_with_len 1 15) }
        ensures seen { IfOk result (λ r. seen r.1 ≡ []) }
    {
        let row = row_of(alloc, words.as_slice())?;
        let (table, seat) = Table::of_words(alloc, row.as_slice(), words)?;
        Ok((
            Banks { table },
            Port {
                number: 0,
                numbers: 0xffff,
                seat,
            },
        ))
    }

    /// How many words there are.
    pub fn words(&self) -> u32
        ensures { result ≡ length (opening_of self.now) }
    {
        (self.table.word_count() - 1) as u32
    }
}

// The words, and a 0 behind them.
fn row_of(alloc: Global, words: &[u32]) -> Result<Vec<u64>, AllocError>
    requires { length words.now < 2 ^ 32 }
    ensures row { IfOk result (λ v. v.items ≡ words.now ++ 0 ∷ []) }
    ensures small { All (λ w. w < 2 ^ 32) words.now }
{
    let mut row = Vec::with_capacity(alloc, words.len() + 1)?;
    for word in words {
        row.push_reserved(u64::from(*word));
    }
    row.push_reserved(0);
    Ok(row)
}

/// The bank of a line, where so many banks take the lines in turn.
pub fn bank_of(line: u32, banks: u32) -> u32
    requires { banks ≢ 0 }
    ensures { result ≡ line % banks }
{
    line % banks
}
