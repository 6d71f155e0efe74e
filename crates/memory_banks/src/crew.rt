//! Ports before and after the threads run: made, gathered, renewed, closed.
ghost use Rattle.std.specs.Prelude.{◌≡◌, ◌≢◌, ℕ, ◌^◌, ◌<◌, ◌≤◌, [], ◌∷◌, ◌++◌, All, IfOk, OnErr, OnOk, length, map, take, drop, slice_index, slice_index_or};
ghost use Rattle.std.specs.Slots.{slots_items, slots_len, IsFull};
ghost use mathlib.Core.Option.{some};
ghost use lib.ListN.{get_elem?};
ghost use mathlib.Core.List.{IsPrefix};
ghost use Rattle.memory_banks.specs.Entries.{IsLegal, replay};
ghost use Rattle.memory_banks.specs.Ports.{AreRenewed, EndsAs, HasAll, IsNew, IsOf, IsSame, KeptIn, StandsAs, held, held_set, number, numbers, opening_of, seen, union};

use crate::banks::Banks;
use crate::port::Port;
use atomic_table::Closed;
use std::alloc::Global;
use vx_base::{ListOf, Memory, WordList};

/// Ports in order.
pub type PortList = ListOf<Port>;

/// New ports, with the least numbers that `port` holds, in ascending order. They hold no others, and have seen what `port`
/// has seen. Without memory none is made, and `port` is as before.
pub fn ports(alloc: Global, banks: &Banks, port: &mut Port, n: u32) -> Result<PortList, Memory>
    requires some { 1 ≤ n }
    requires most { n ≤ 8 }
    requires of { IsOf banks.now port.old }
    requires held { n ≤ length (held port.old) }
    ensures numbers { IfOk result (λ v. map number v ≡ take n (held port.old)) }
    ensures new { IfOk result (λ v. All (λ p. IsNew banks.now port.old p) v) }
    ensures left { OnOk result (held port.new ≡ drop n (held port.old)) }
    ensures same { IsSame banks.now port.old port.new }
    ensures back { IfOk result (λ v. union (numbers port.new) (map numbers v) ≡ numbers port.old) }
    ensures err { OnErr result (port.new ≡ port.old) }
{
    let mut items = Vec::with_capacity(alloc, n as usize)?;
    for made in 0..n {
        items.push_reserved(port.give(banks));
    }
    Ok(ListOf { items })
}

/// Takes in ports: `into` then has their numbers and those that they held, with their lists, and has seen what they have
/// seen.
pub fn gather(banks: &Banks, into: &mut Port, from: PortList)
    requires of { IsOf banks.now into.old }
    requires others { All (λ p. IsOf banks.now p) from }
    requires first { All (λ p. number p ≢ 0) from }
    ensures of { IsOf banks.now into.new }
    ensures number { number into.new ≡ number into.old }
    ensures numbers { numbers into.new ≡ union (numbers into.old) (map numbers from) }
    ensures kept { KeptIn (numbers into.old) into.old into.new }
    ensures lists { All (λ p. KeptIn (numbers p) p into.new) from }
{
    for port in from.items {
        into.gather(banks, port);
    }
}

// Each port hands over the numbers that it holds, and tells what it has seen.
fn hand_over_all(banks: &Banks, into: &mut Port, ports: &mut [Port])
    requires of { IsOf banks.now into.old }
    requires others { All (λ p. IsOf banks.now p) ports.old }
    ensures of { IsOf banks.now into.new }
    ensures number { number into.new ≡ number into.old }
    ensures numbers { numbers into.new ≡ union (numbers into.old) (map held_set ports.old) }
    ensures kept { KeptIn (numbers into.old) into.old into.new }
    ensures lists { All (λ p. KeptIn (held_set p) p into.new) ports.old }
    ensures renewed { AreRenewed banks.now ports.old ports.new }
{
    for at in 0..ports.len() {
        ports[at].hand_over(banks, into);
    }
}

// Tells each port what `from` has seen.
fn tell_all(banks: &Banks, from: &mut Port, ports: &mut [Port])
    requires of { IsOf banks.now from.old }
    requires others { All (λ p. IsOf banks.now p) ports.old }
    ensures same { IsSame banks.now from.old from.new × (numbers from.new ≡ numbers from.old) }
    ensures told { All (λ p. IsPrefix (seen from.old) (seen p)) ports.new }
    ensures stand { (k : ℕ) (d : Port) → k < length ports.old → StandsAs banks.now (slice_index_or ports.old k d) (slice_index_or ports.new k d) }
{
    for at in 0..ports.len() {
        from.tell(banks, &mut ports[at]);
    }
}

// What `renew` does to the ports of a list.
fn renew_all(banks: &Banks, into: &mut Port, ports: &mut [Port])
    requires of { IsOf banks.now into.old }
    requires others { All (λ p. IsOf banks.now p) ports.old }
    ensures of { IsOf banks.now into.new }
    ensures number { number into.new ≡ number into.old }
    ensures numbers { numbers into.new ≡ union (numbers into.old) (map held_set ports.old) }
    ensures kept { KeptIn (numbers into.old) into.old into.new }
    ensures lists { All (λ p. KeptIn (held_set p) p into.new) ports.old }
    ensures renewed { AreRenewed banks.now ports.old ports.new }
    ensures ports_of { All (λ p. IsOf banks.now p) ports.new }
    ensures ports_numbers { map number ports.new ≡ map number ports.old }
    ensures told { All (λ p. IsPrefix (seen into.new) (seen p)) ports.new }
{
    hand_over_all(banks, into, ports);
    tell_all(banks, into, ports);
}

/// `into` takes in every port of the list, and in its place stands again a port with its number and its list. Numbers that
/// they held stay with `into`. All have then seen what each of them had seen.
pub fn renew(banks: &Banks, into: &mut Port, ports: &mut PortList)
    requires of { IsOf banks.now into.old }
    requires others { All (λ p. IsOf banks.now p) ports.old }
    requires first { All (λ p. number p ≢ 0) ports.old }
    ensures of { IsOf banks.now into.new }
    ensures number { number into.new ≡ number into.old }
    ensures numbers { numbers into.new ≡ union (numbers into.old) (map held_set ports.old) }
    ensures kept { KeptIn (numbers into.old) into.old into.new }
    ensures lists { All (λ p. KeptIn (held_set p) p into.new) ports.old }
    ensures renewed { AreRenewed banks.now ports.old ports.new }
    ensures ports_of { All (λ p. IsOf banks.now p) ports.new }
    ensures ports_numbers { map number ports.new ≡ map number ports.old }
    ensures told { All (λ p. IsPrefix (seen into.new) (seen p)) ports.new }
{
    renew_all(banks, into, ports.items.as_mut_slice());
}

// Reads the words from the front.
fn read_into(closed: &Closed<(), Global>, out: &mut [u32])
    requires full { IsFull closed.now.words }
    requires words { length out.old ≤ slots_len closed.now.words }
    requires small { (k w : ℕ) → get_elem? (slots_items closed.now.words) k ≡ some w → w < 2 ^ 32 }
    ensures { (k : ℕ) → k < length out.old → get_elem? (slots_items closed.now.words) k ≡ some (slice_index out.new k) }
{
    for at in 0..out.len() {
        out[at] = closed.word(at) as u32;
    }
}

/// The words as the history leaves them, by the first port. Once every port is gathered in it, it has seen the whole history.
pub fn close(banks: Banks, port: Port, out: &mut WordList)
    requires of { IsOf banks port }
    requires first { number port ≡ 0 }
    requires out { length out.old ≡ length (opening_of banks) }
    ensures history { EndsAs (opening_of banks) (numbers port) (seen port) out.new }
    ensures legal { IsLegal (opening_of banks) (seen port) }
    ensures ports { All (λ e. e.port < 16) (seen port) }
    ensures words { HasAll port → out.new ≡ replay (opening_of banks) (seen port) }
{
    let Banks { table } = banks;
    let Port {
        number: _,
        numbers: _,
        seat,
    } = port;
    let closed = table.close_with(seat);
    read_into(&closed, out.items.as_mut_slice());
    closed.free();
}
