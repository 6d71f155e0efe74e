ghost use Rattle.std.specs.Prelude.{◌≡◌, ◌≢◌, ◌<◌, ◌≤◌, None, Some, Err, length, take, drop, IfOk, OnOk, IsUtf8};
ghost use Rattle.std.specs.Option.{ForSome};
ghost use Rattle.vx_world.specs.Counts.{next_count};
ghost use Rattle.vx_world.specs.Reading.{bytes_named, CountsFaults, CountsMisses, ReadGives};

use crate::reading::{Files, ReadFault};
use std::alloc::Global;
use std::io::{ErrorKind, Read};
use std::{fs, rt, str};

/// The files of the system, of whose bytes contracts are told nothing. A name is a path, and one that is not UTF-8 fails
/// to be read.
#[derive(Debug, Drop)]
pub struct FolderFiles<'a, R> {
    rt: &'a R,
    /// How many reads have failed, which stands still at its end.
    pub faults: u64,
    /// How many reads have found no file of the name, which stands still at its end.
    pub misses: u64,
}

impl<'a, R: rt::Files> FolderFiles<'a, R> {
    /// The files of this runtime, of which none has been read.
    pub fn new(rt: &'a R) -> FolderFiles<'a, R>
        ensures faults { result.faults ≡ 0 }
        ensures misses { result.misses ≡ 0 }
    {
        FolderFiles {
            rt,
            faults: 0,
            misses: 0,
        }
    }
}

impl<'a, R: rt::Files> Files for FolderFiles<'a, R> {
    ghost held = { λ _. None };

    ghost faults = { λ s. s.faults };

    ghost misses = { λ s. s.misses };

    fn read(&mut self, alloc: Global, name: &[u8], most: usize) -> Result<Vec<u8>, ReadFault>
        ensures bound { IfOk result (λ bytes. length bytes.items ≤ most) }

        // Nothing is told of what the files hold.
        ensures told { ForSome None (λ entries. ReadGives (bytes_named entries name.now) most result) }
        ensures whole { IfOk result (λ bytes. length bytes.items < most →
            ForSome None (λ entries. bytes_named entries name.now ≡ Some bytes.items)) }

        ensures faults { CountsFaults result self.old.faults self.new.faults }
        ensures faults_never_fall { self.old.faults ≤ self.new.faults }
        ensures misses { CountsMisses result self.old.misses self.new.misses }
        ensures misses_never_fall { self.old.misses ≤ self.new.misses }
        ensures failed_once { result ≡ Err ReadFault.Failed → self.new.faults ≡ next_count self.old.faults }
        ensures missed_once { result ≡ Err ReadFault.Missing → self.new.misses ≡ next_count self.old.misses }
        ensures no_text { ¬ (IsUtf8 name.now) → result ≡ Err ReadFault.Failed }
    {
        match read_file(self.rt, alloc, name, most) {
            Ok(bytes) => Ok(bytes),
            Err(ReadFault::Missing) => {
                self.misses = self.misses.saturating_add(1);
                Err(ReadFault::Missing)
            }
            Err(ReadFault::Failed) => {
                self.faults = self.faults.saturating_add(1);
                Err(ReadFault::Failed)
            }
            Err(ReadFault::Memory) => Err(ReadFault::Memory),
        }
    }
}

// The first bytes of the file at this path, at most so many.
fn read_file<R: rt::Files>(
    rt: &R,
    alloc: Global,
    name: &[u8],
    most: usize,
) -> Result<Vec<u8>, ReadFault>
    ensures bound { IfOk result (λ bytes. length bytes.items ≤ most) }
    ensures no_text { ¬ (IsUtf8 name.now) → result ≡ Err ReadFault.Failed }
{
    let Ok(path) = str::from_utf8(name) else {
        return Err(ReadFault::Failed);
    };
    match fs::open(rt, path) {
        Ok(mut file) => read_first(alloc, &mut file, most),
        Err(error) if error.kind() == ErrorKind::NotFound => Err(ReadFault::Missing),
        Err(_) => Err(ReadFault::Failed),
    }
}

// The first bytes that a source has left, at most so many. Those behind them stay in the source.
fn read_first<S: Read>(alloc: Global, source: &mut S, most: usize) -> Result<Vec<u8>, ReadFault>
    ensures bound { IfOk result (λ bytes. length bytes.items ≤ most) }
    ensures first { IfOk result (λ bytes. ForSome (S.remaining source.old) (λ left. bytes.items ≡ take most left)) }
    ensures rest { OnOk result (ForSome (S.remaining source.old) (λ left. S.remaining source.new ≡ Some (drop most left))) }
    ensures never_misses { result ≢ Err ReadFault.Missing }
{
    let mut bytes = Vec::new(alloc);
    let mut chunk = [0; 4096];
    for _ in 0..u64::MAX {
        let room = chunk.len().min(most - bytes.len());
        if room == 0 {
            return Ok(bytes);
        }
        match source.read(&mut chunk[..room]) {
            Ok(0) => return Ok(bytes),
            Ok(count) => {
                if bytes.extend_from_slice(&chunk[..count]).is_err() {
                    return Err(ReadFault::Memory);
                }
            }
            Err(_) => return Err(ReadFault::Failed),
        }
    }
    Err(ReadFault::Failed)
}
