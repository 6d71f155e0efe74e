ghost use Rattle.std.specs.Prelude.{◌≡◌, ℕ, ◌<◌, ◌^◌, [], ◌∷◌, length, bit_and, bit_or};
ghost use Rattle.std.specs.Int.{bit_at};

use crate::banks::Banks;
use crate::rule::{Give, HandOver, Keeps, Loads, Look, Sets, Stores, Take, Tell, View};
use atomic_table::Seat;

/// The right of one thread to step on the shared words. It has a number, and may hold numbers for new ports.
#[derive(Drop)]
pub struct Port {
    pub(crate) number: u32,
    pub(crate) numbers: u32,
    pub(crate) seat: Seat<(), View>,
    ghost number_is: { seat.me.0.number ≡ number },
    ghost numbers_are: { seat.me.0.numbers ≡ numbers },
    ghost settled: { seat.me.0.told_numbers ≡ 0 },
    ghost no_slot: { seat.me.1 ≡ [] },
    ghost own: { bit_at numbers number ≡ 1 },
    ghost few: { numbers < 2 ^ 16 },
}

impl Port {
    ghost use mathlib.Core.List.{IsPrefix};
    ghost use Rattle.memory_banks.specs.Entries.{and_entry, entries_of, load_entry, or_entry, store_entry};
    ghost use Rattle.memory_banks.specs.Rule.{Among};
    ghost use Rattle.memory_banks.specs.Ports.{IsNew, IsOf, IsRenewed, IsSame, KeptIn, Steps, StepsTwice, held, held_set, number, numbers, opening_of, seen};

    /// The word's value at the place of this load in the history.
    pub fn load(&mut self, banks: &Banks, word: u32) -> u32
        requires of { IsOf banks.now self.old }
        requires word { word < length (opening_of banks.now) }
        ensures { Steps banks.now self.old (load_entry (number self.old) word result) self.new }
    {
        let shared = &banks.table.shared;
        shared.load::<Loads>(&mut self.seat, word as usize) as u32
    }

    /// Stores a value to a word.
    pub fn store(&mut self, banks: &Banks, word: u32, value: u32)
        requires of { IsOf banks.now self.old }
        requires word { word < length (opening_of banks.now) }
        ensures { Steps banks.now self.old (store_entry (number self.old) word value) self.new }
    {
        let shared = &banks.table.shared;
        shared.store::<Stores>(&mut self.seat, word as usize, u64::from(value));
    }

    // Keeps some bits of a word, and answers the word before.
    fn fetch_and(&mut self, banks: &Banks, word: u32, keep: u32) -> u32
        requires of { IsOf banks.now self.old }
        requires word { word < length (opening_of banks.now) }
        ensures { Steps banks.now self.old (and_entry (number self.old) word keep result) self.new }
    {
        let shared = &banks.table.shared;
        shared.fetch_and::<Keeps>(&mut self.seat, word as usize, u64::from(keep)) as u32
    }

    // Sets some bits of a word, and answers the word before.
    fn fetch_or(&mut self, banks: &Banks, word: u32, value: u32) -> u32
        requires of { IsOf banks.now self.old }
        requires word { word < length (opening_of banks.now) }
        ensures { Steps banks.now self.old (or_entry (number self.old) word value result) self.new }
    {
        let shared = &banks.table.shared;
        shared.fetch_or::<Sets>(&mut self.seat, word as usize, u64::from(value)) as u32
    }

    /// Stores the bits of `value` to a word, and leaves those of `keep`, in two steps.
    pub fn store_part(&mut self, banks: &Banks, word: u32, keep: u32, value: u32)
        requires of { IsOf banks.now self.old }
        requires word { word < length (opening_of banks.now) }
        requires apart { bit_and keep value ≡ 0 }
        ensures { StepsTwice banks.now self.old word keep value self.new }
    {
        self.fetch_and(banks, word, keep);
        self.fetch_or(banks, word, value);
    }

    // A new port with the least number that this one holds.
    pub(crate) fn give(&mut self, banks: &Banks) -> Port
        requires of { IsOf banks.now self.old }
        requires some { 0 < length (held self.old) }
        ensures new { IsNew banks.now self.old result }
        ensures same { IsSame banks.now self.old self.new }
        ensures least { held self.old ≡ number result ∷ held self.new }
        ensures back { bit_or (numbers self.new) (numbers result) ≡ numbers self.old }
    {
        let held = self.numbers & !(1 << self.number);
        let number = held.trailing_zeros();
        let seat = banks.table.shared.split_seat::<Give>(&mut self.seat);
        self.numbers &= !(1 << number);
        Port {
            number,
            numbers: 1 << number,
            seat,
        }
    }

    // Takes in what a seat knows of these numbers, and looks at the history.
    fn take(&mut self, banks: &Banks, set: u32, seat: Seat<(), View>)
        requires of { IsOf banks.now self.old × (seat.table_id ≡ banks.now.table.shared.table_id) }
        requires seat { (seat.me.0.numbers ≡ set) × (seat.me.1 ≡ []) × (set < 2 ^ 16) }
        ensures of { IsOf banks.now self.new }
        ensures number { number self.new ≡ number self.old }
        ensures numbers { numbers self.new ≡ bit_or (numbers self.old) set }
        ensures kept { KeptIn (numbers self.old) self.old self.new }
        ensures begins { IsPrefix seat.me.0.seen (seen self.new) }
        ensures lists { (k : ℕ) → Among set k → entries_of k (seen self.new) ≡ entries_of k seat.me.0.seen }
    {
        let shared = &banks.table.shared;
        shared.join_seat::<Take>(&mut self.seat, seat);
        shared.load::<Look>(&mut self.seat, 0);
        self.numbers |= set;
    }

    // Takes in a port.
    pub(crate) fn gather(&mut self, banks: &Banks, other: Port)
        requires of { IsOf banks.now self.old × IsOf banks.now other }
        ensures of { IsOf banks.now self.new }
        ensures number { number self.new ≡ number self.old }
        ensures numbers { numbers self.new ≡ bit_or (numbers self.old) (numbers other) }
        ensures kept { KeptIn (numbers self.old) self.old self.new × KeptIn (numbers other) other self.new }
    {
        let Port {
            number: _,
            numbers,
            seat,
        } = other;
        self.take(banks, numbers, seat);
    }

    // Hands over the numbers that it holds, and what it has seen.
    pub(crate) fn hand_over(&mut self, banks: &Banks, into: &mut Port)
        requires of { IsOf banks.now self.old × IsOf banks.now into.old }
        ensures renewed { IsRenewed banks.now self.old self.new × (seen self.new ≡ seen self.old) }
        ensures of { IsOf banks.now into.new }
        ensures number { number into.new ≡ number into.old }
        ensures numbers { numbers into.new ≡ bit_or (numbers into.old) (held_set self.old) }
        ensures kept { KeptIn (numbers into.old) into.old into.new × KeptIn (held_set self.old) self.old into.new }
    {
        let held = self.numbers & !(1 << self.number);
        let rest = banks.table.shared.split_seat::<HandOver>(&mut self.seat);
        self.numbers = 1 << self.number;
        into.take(banks, held, rest);
    }

    // Tells a port what this one has seen.
    pub(crate) fn tell(&mut self, banks: &Banks, port: &mut Port)
        requires of { IsOf banks.now self.old × IsOf banks.now port.old }
        ensures same { IsSame banks.now self.old self.new × (numbers self.new ≡ numbers self.old) }
        ensures of { IsOf banks.now port.new }
        ensures numbers { (number port.new ≡ number port.old) × (numbers port.new ≡ numbers port.old) }
        ensures kept { KeptIn (numbers port.old) port.old port.new }
        ensures told { IsPrefix (seen self.old) (seen port.new) }
    {
        let note = banks.table.shared.split_seat::<Tell>(&mut self.seat);
        port.take(banks, 0, note);
    }
}
