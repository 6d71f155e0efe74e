ghost use Rattle.std.specs.Prelude.{◌≡◌, ◌≤◌, [], ◌∷◌, IfOk};

use crate::claimer::Claimer;
use crate::rule::{Share, Tickets};
use atomic_table::Table;
use std::alloc::Global;
use vx_base::Memory;

/// The next ticket of a launch's groups, which threads share.
#[derive(Drop)]
pub struct Dispenser {
    pub(crate) table: Table<(), Share, u32, Tickets, Global>,
    ghost one_word: { table.shared.table_id.words ≡ 1 },
    ghost no_slots: { table.shared.table_id.slots ≡ 0 },
}

impl Dispenser {
    ghost use Rattle.group_dispenser.specs.Claimers.{IsOf, groups_of, lists, spare};

    /// A dispenser of this many groups, of which none is claimed, and its first claimer, which may make eight others.
    pub fn new(alloc: Global, groups: u32) -> Result<(Dispenser, Claimer), Memory>
        requires { groups ≤ 65536 }
        ensures groups { IfOk result (λ r. groups_of r.0 ≡ groups) }
        ensures claimer { IfOk result (λ r. IsOf r.0 r.1) }
        ensures nothing { IfOk result (λ r. lists r.1 ≡ [] ∷ []) }
        ensures spare { IfOk result (λ r. spare r.1 ≡ 8) }
    {
        let (table, seat) = Table::of_words(alloc, &[0], &groups)?;
        Ok((Dispenser { table }, Claimer { groups, seat }))
    }
}
