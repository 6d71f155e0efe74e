//! Claimers before and after the threads run: how they are made, gathered, and closed.
ghost use Rattle.std.specs.Prelude.{◌≡◌, ◌<◌, ◌≤◌, ◌+◌, ℕ, [], ◌∷◌, ◌++◌, All, IfOk, OnErr, OnOk, length, sum_by};
ghost use Rattle.std.specs.List.{concat, flat_map};
ghost use Rattle.std.specs.List.Sorted.{IsStrictlyIncreasing};
ghost use Rattle.group_dispenser.specs.Tickets.{AreBelow};
ghost use Rattle.group_dispenser.specs.Claimers.{IsOf, HasAll, groups_of, lists, spare};

use crate::claimer::{Claimer, ClaimerList};
use crate::dispenser::Dispenser;
use std::alloc::Global;
use vx_base::{ListOf, Memory};

/// New claimers, by the claimer that `new` gave, where it has made none before. They have drawn nothing. Without memory
/// none is made, and `c` is as before.
pub fn claimers(
    alloc: Global,
    d: &Dispenser,
    c: &mut Claimer,
    n: u32,
) -> Result<ClaimerList, Memory>
    requires some { 1 ≤ n }
    requires most { n ≤ 8 }
    requires of { IsOf d.now c.old }
    requires first { spare c.old ≡ 8 }
    ensures count { IfOk result (λ v. length v ≡ n) }
    ensures made { IfOk result (λ v. All (λ p. IsOf d.now p × (lists p ≡ [] ∷ []) × (spare p ≡ 0)) v) }
    ensures spare { OnOk result (spare c.new + n ≡ 8) }
    ensures same { IsOf d.now c.new × (lists c.new ≡ lists c.old) }
    ensures err { OnErr result (c.new ≡ c.old) }
{
    let mut items = Vec::with_capacity(alloc, n as usize)?;
    for made in 0..n {
        items.push_reserved(c.make(d));
    }
    Ok(ListOf { items })
}

/// Takes in claimers with all that they drew and took in.
pub fn gather(d: &Dispenser, into: &mut Claimer, from: ClaimerList)
    requires of { IsOf d.now into.old }
    requires others { All (λ p. IsOf d.now p) from }
    ensures of { IsOf d.now into.new }
    ensures lists { lists into.new ≡ lists into.old ++ flat_map (λ p. lists p) from }
    ensures spare { spare into.new ≡ spare into.old + sum_by (λ p. spare p) from }
{
    for claimer in from.items {
        into.take(d, claimer);
    }
}

/// How many tickets were drawn, once all claimers are gathered in one.
pub fn close(d: Dispenser, c: Claimer) -> u32
    requires of { IsOf d c }
    requires all { HasAll c }
    ensures once { AreBelow result (concat (lists c)) }
    ensures ascending { All IsStrictlyIncreasing (lists c) }
    ensures few { result ≤ groups_of d + 9 }
{
    let Dispenser { table } = d;
    let Claimer { groups: _, seat } = c;
    let closed = table.close_with(seat);
    let next = closed.word(0);
    closed.free();
    next as u32
}
