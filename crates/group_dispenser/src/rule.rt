//! What claimers know, the rule on the shared word, and what each step tells.
use atomic_table::{Join, Play, Split, TableRule};
use std::collections::LinkedList;

/// What a claimer knows. No value of it is made.
pub struct Share {
    /// How many claimers it may still make.
    pub spare: u64,
    /// The tickets that it drew, and then those of each claimer that it took in.
    pub lists: LinkedList<LinkedList<u64>>,
}

/// The rule of a dispenser's word. It is told the group count.
pub struct Tickets;

impl TableRule<(), Share, u32> for Tickets {
    ghost use Rattle.group_dispenser.specs.Rule.{DispenserHolds, share};
    ghost use Rattle.std.specs.Prelude.{[], ◌∷◌};

    ghost holds = { λ groups state. DispenserHolds groups state };

    ghost first = { λ groups. share 8 ([] ∷ []) };
}

/// The step that draws a ticket.
pub struct Draw;

impl Play<(), Share> for Draw {
    ghost use Rattle.std.specs.Prelude.{◌≡◌};
    ghost use Rattle.group_dispenser.specs.Rule.{Draws};

    ghost then = { λ step before ticket after. Draws before.0 ticket after.0 × (after.1 ≡ before.1) };
}

/// A claimer makes another.
pub struct Make;

impl Split<Share> for Make {
    ghost use Rattle.group_dispenser.specs.Rule.{maker_left, newcomer};

    ghost left = { maker_left };

    ghost right = { λ before. newcomer };
}

/// A claimer takes another in.
pub struct Take;

impl Join<Share> for Take {
    ghost use Rattle.group_dispenser.specs.Rule.{both, nothing};

    ghost both = { both };

    ghost spent = { nothing };
}
