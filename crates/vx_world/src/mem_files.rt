ghost use Rattle.std.specs.Prelude.{◌≡◌, ◌≢◌, ℕ, ◌+◌, ◌-◌, ◌^◌, ◌<◌, ◌≤◌, ◌↔◌, min, List, [], Some, Contains, length, IfOk, option_copied};
ghost use Rattle.std.specs.Option.{ForSome};
ghost use Rattle.vx_world.specs.Counts.{next_count};
ghost use Rattle.vx_world.specs.Reading.{bytes_named, CountsFaults, CountsMisses, ReadGives};

use crate::calls::CallList;
use crate::reading::{EntryList, Files, ReadFault};
use std::alloc::Global;
use vx_base::Text;

/// Files in memory, of which the calls that are listed fail.
#[derive(Debug, Drop)]
pub struct MemFiles {
    /// The named files.
    pub entries: EntryList,
    /// The numbers of the calls that fail.
    pub failing: CallList,
    /// The number of the next call, which stands still at its end.
    pub next: u64,
    /// How many reads have failed.
    pub faults: u64,
    /// How many reads have found no file of the name.
    pub misses: u64,
}

impl MemFiles {
    /// These files, of which no read has been made.
    pub fn new(entries: EntryList, failing: CallList) -> MemFiles
        ensures entries { result.entries ≡ entries }
        ensures failing { result.failing ≡ failing }
        ensures next { result.next ≡ 0 }
        ensures faults { result.faults ≡ 0 }
        ensures misses { result.misses ≡ 0 }
    {
        MemFiles {
            entries,
            failing,
            next: 0,
            faults: 0,
            misses: 0,
        }
    }
}

impl Files for MemFiles {
    ghost held = { λ s. Some s.entries };

    ghost faults = { λ s. s.faults };

    ghost misses = { λ s. s.misses };

    fn read(&mut self, alloc: Global, name: &[u8], most: usize) -> Result<Vec<u8>, ReadFault>
        ensures kept { self.new.entries ≡ self.old.entries }
        ensures bound { IfOk result (λ bytes. length bytes.items ≤ most) }
        ensures told { ReadGives (bytes_named self.old.entries name.now) most result }
        ensures whole { IfOk result (λ bytes. length bytes.items < most →
            bytes_named self.old.entries name.now ≡ Some bytes.items) }
        ensures faults { CountsFaults result self.old.faults self.new.faults }
        ensures faults_never_fall { self.old.faults ≤ self.new.faults }
        ensures misses { CountsMisses result self.old.misses self.new.misses }
        ensures misses_never_fall { self.old.misses ≤ self.new.misses }

        // A call fails exactly where its number is listed.
        ensures fails { (result ≡ Err ReadFault.Failed) ↔ Contains self.old.failing self.old.next }
        ensures next { self.new.next ≡ next_count self.old.next }
        ensures failed_once { result ≡ Err ReadFault.Failed → self.new.faults ≡ next_count self.old.faults }
        ensures missed_once { result ≡ Err ReadFault.Missing → self.new.misses ≡ next_count self.old.misses }
        ensures failing { self.new.failing ≡ self.old.failing }
    {
        let call = self.next;
        self.next = call.saturating_add(1);
        if self.failing.items.contains(&call) {
            self.faults = self.faults.saturating_add(1);
            return Err(ReadFault::Failed);
        }
        match read_entry(alloc, &self.entries, name, most) {
            Err(ReadFault::Missing) => {
                self.misses = self.misses.saturating_add(1);
                Err(ReadFault::Missing)
            }
            answer => answer,
        }
    }
}

/// Files in memory that never fail to be read.
#[derive(Debug, Drop)]
pub struct SureFiles {
    /// The named files.
    pub entries: EntryList,
    /// How many reads have found no file of the name.
    pub misses: u64,
}

impl SureFiles {
    /// These files, of which no read has been made.
    pub fn new(entries: EntryList) -> SureFiles
        ensures entries { result.entries ≡ entries }
        ensures misses { result.misses ≡ 0 }
    {
        SureFiles { entries, misses: 0 }
    }
}

impl Files for SureFiles {
    ghost held = { λ s. Some s.entries };

    ghost faults = { λ _. 0 };

    ghost misses = { λ s. s.misses };

    fn read(&mut self, alloc: Global, name: &[u8], most: usize) -> Result<Vec<u8>, ReadFault> {
        match read_entry(alloc, &self.entries, name, most) {
            Err(ReadFault::Missing) => {
                self.misses = self.misses.saturating_add(1);
                Err(ReadFault::Missing)
            }
            answer => answer,
        }
    }
}

// The bytes of the first entry of this name.
fn find_entry<'a>(entries: &'a EntryList, name: &[u8]) -> Option<&'a Text>
    ensures { option_copied result ≡ bytes_named entries.now name.now }
{
    entries
        .items
        .iter()
        .find(|entry| entry.name.items.as_slice() == name)
        .map(|entry| &entry.bytes)
}

// The first bytes of the entry of this name, at most so many.
fn read_entry(
    alloc: Global,
    entries: &EntryList,
    name: &[u8],
    most: usize,
) -> Result<Vec<u8>, ReadFault>
    ensures never_fails { result ≢ Err ReadFault.Failed }
    ensures bound { IfOk result (λ bytes. length bytes.items ≤ most) }
    ensures told { ReadGives (bytes_named entries.now name.now) most result }
    ensures whole { IfOk result (λ bytes. length bytes.items < most →
        bytes_named entries.now name.now ≡ Some bytes.items) }
{
    let Some(bytes) = find_entry(entries, name) else {
        return Err(ReadFault::Missing);
    };
    let all = bytes.items.as_slice();
    let kept = all.len().min(most);
    match Vec::from_slice(alloc, &all[..kept]) {
        Ok(bytes) => Ok(bytes),
        Err(_) => Err(ReadFault::Memory),
    }
}
