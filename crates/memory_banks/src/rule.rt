//! What ports know, the rule on the shared words, and what each step tells.
use crate::entry::BusEntry;
use atomic_table::{Join, Play, Split, TableRule};
use std::collections::LinkedList;
use vx_base::WordList;

/// What a port knows. No value of it is made.
pub struct View {
    /// The words that the banks were made of.
    pub opening: LinkedList<u32>,
    /// The port's number.
    pub number: u32,
    /// Its number and those that it holds, as bits.
    pub numbers: u32,
    /// The part of the history that it has seen.
    pub seen: LinkedList<BusEntry>,
    /// The numbers of a port that is just taken in.
    pub told_numbers: u32,
    /// What that port had seen.
    pub told: LinkedList<BusEntry>,
}

/// The rule of the shared words: there is one legal history. It is told the opening words.
pub struct History;

impl TableRule<(), View, WordList> for History {
    ghost use Rattle.memory_banks.specs.Rule.{Kept, first_view};

    ghost holds = { λ opening state. Kept opening state };

    ghost first = { first_view };
}

/// A load of a word.
pub struct Loads;

impl Play<(), View> for Loads {
    ghost use Rattle.std.specs.Prelude.{◌≡◌, ◌<◌, ◌^◌};
    ghost use Rattle.memory_banks.specs.declared.entry.BusKind.TheVariants.{Load};
    ghost use Rattle.memory_banks.specs.Rule.{Makes, entry_by};

    ghost then = { λ step before found after. Makes before.0 (entry_by before.0 Load step.word 0 found) after.0 × (after.1 ≡ before.1) × (found < 2 ^ 32) };
}

/// A store to a word.
pub struct Stores;

impl Play<(), View> for Stores {
    ghost use Rattle.std.specs.Prelude.{◌≡◌, ◌<◌, ◌^◌};
    ghost use Rattle.memory_banks.specs.declared.entry.BusKind.TheVariants.{Store};
    ghost use Rattle.memory_banks.specs.Rule.{Makes, entry_by};

    ghost then = { λ step before found after. Makes before.0 (entry_by before.0 Store step.word step.first 0) after.0 × (after.1 ≡ before.1) };
}

/// A step that keeps some bits of a word.
pub struct Keeps;

impl Play<(), View> for Keeps {
    ghost use Rattle.std.specs.Prelude.{◌≡◌, ◌<◌, ◌^◌};
    ghost use Rattle.memory_banks.specs.declared.entry.BusKind.TheVariants.{FetchAnd};
    ghost use Rattle.memory_banks.specs.Rule.{Makes, entry_by};

    ghost then = { λ step before found after. Makes before.0 (entry_by before.0 FetchAnd step.word step.first found) after.0 × (after.1 ≡ before.1) × (found < 2 ^ 32) };
}

/// A step that sets some bits of a word.
pub struct Sets;

impl Play<(), View> for Sets {
    ghost use Rattle.std.specs.Prelude.{◌≡◌, ◌<◌, ◌^◌};
    ghost use Rattle.memory_banks.specs.declared.entry.BusKind.TheVariants.{FetchOr};
    ghost use Rattle.memory_banks.specs.Rule.{Makes, entry_by};

    ghost then = { λ step before found after. Makes before.0 (entry_by before.0 FetchOr step.word step.first found) after.0 × (after.1 ≡ before.1) × (found < 2 ^ 32) };
}

/// A load that makes no entry, after which the port has seen the history so far.
pub struct Look;

impl Play<(), View> for Look {
    ghost use Rattle.std.specs.Prelude.{◌≡◌, ◌<◌, ◌^◌};
    ghost use Rattle.memory_banks.specs.Rule.{Looks};

    ghost then = { λ step before found after. Looks before.0 after.0 × (after.1 ≡ before.1) };
}

/// A port gives the least number that it holds to a new port.
pub struct Give;

impl Split<View> for Give {
    ghost use Rattle.memory_banks.specs.Rule.{giver, given};

    ghost left = { giver };

    ghost right = { given };
}

/// A port keeps its own number, and hands over all others.
pub struct HandOver;

impl Split<View> for HandOver {
    ghost use Rattle.memory_banks.specs.Rule.{keeper, handed};

    ghost left = { keeper };

    ghost right = { handed };
}

/// A note of what a port has seen, with no number.
pub struct Tell;

impl Split<View> for Tell {
    ghost use Rattle.memory_banks.specs.Rule.{teller, note};

    ghost left = { teller };

    ghost right = { note };
}

/// A port takes in what another knows.
pub struct Take;

impl Join<View> for Take {
    ghost use Rattle.memory_banks.specs.Rule.{both, nothing};

    ghost both = { both };

    ghost spent = { nothing };
}
