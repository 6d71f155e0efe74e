ghost use Rattle.std.specs.Prelude.{◌≡◌, ◌<◌, ◌≤◌, ◌+◌, ℕ, [], ◌∷◌, ◌++◌, All, IfSome, IfNone, length};

use crate::dispenser::Dispenser;
use crate::rule::{Draw, Make, Share, Take};
use atomic_table::Seat;
use vx_base::ListOf;

/// The right of one thread to draw tickets. Contracts see what it drew.
#[derive(Drop)]
pub struct Claimer {
    pub(crate) groups: u32,
    pub(crate) seat: Seat<(), Share>,
    ghost no_slot: { seat.me.1 ≡ [] },
    ghost draws: { 0 < length seat.me.0.lists },
}

/// Claimers in order.
pub type ClaimerList = ListOf<Claimer>;

impl Claimer {
    ghost use Rattle.group_dispenser.specs.Claimers.{IsOf, drawn, gathered, groups_of, lists, spare};

    /// Draws the next ticket, and answers the group that it stands for. None where it is past the last group.
    pub fn claim(&mut self, d: &Dispenser) -> Option<u32>
        requires of { IsOf d.now self.old }
        requires open { All (λ t. t < groups_of d.now) (drawn self.old) }
        ensures some { IfSome result (λ t. (t < groups_of d.now) × (drawn self.new ≡ drawn self.old ++ t ∷ [])) }
        ensures none { IfNone result ((t : ℕ) × (groups_of d.now ≤ t) × (drawn self.new ≡ drawn self.old ++ t ∷ [])) }
        ensures of { IsOf d.now self.new }
        ensures same { (gathered self.new ≡ gathered self.old) × (spare self.new ≡ spare self.old) }
    {
        let ticket = d.table.shared.fetch_add::<Draw>(&mut self.seat, 0, 1);
        if ticket < u64::from(self.groups) {
            Some(ticket as u32)
        } else {
            None
        }
    }

    pub(crate) fn make(&mut self, d: &Dispenser) -> Claimer
        requires of { IsOf d.now self.old }
        requires spare { 0 < spare self.old }
        ensures of { IsOf d.now self.new × IsOf d.now result }
        ensures kept { (lists self.new ≡ lists self.old) × (spare self.new + 1 ≡ spare self.old) }
        ensures made { (lists result ≡ [] ∷ []) × (spare result ≡ 0) }
    {
        Claimer {
            groups: self.groups,
            seat: d.table.shared.split_seat::<Make>(&mut self.seat),
        }
    }

    pub(crate) fn take(&mut self, d: &Dispenser, other: Claimer)
        requires of { IsOf d.now self.old × IsOf d.now other }
        ensures of { IsOf d.now self.new }
        ensures lists { lists self.new ≡ lists self.old ++ lists other }
        ensures spare { spare self.new ≡ spare self.old + spare other }
    {
        let Claimer { groups: _, seat } = other;
        d.table.shared.join_seat::<Take>(&mut self.seat, seat);
    }
}
