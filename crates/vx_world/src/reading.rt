ghost use Rattle.std.specs.Prelude.{◌≡◌, ℕ, ◌<◌, ◌≤◌, List, Option, Some, length, IfOk};
ghost use Rattle.std.specs.Option.{ForSome};
ghost use Rattle.vx_world.specs.declared.reading.Entry.{Entry};
ghost use Rattle.vx_world.specs.Reading.{bytes_named, CountsFaults, CountsMisses, ReadGives};

use std::alloc::Global;
use thiserror::Error;
use vx_base::{ListOf, Text};

/// A name, and the bytes of the file of that name.
#[derive(Debug, Drop)]
pub struct Entry {
    /// The name, as bytes.
    pub name: Text,
    /// The file's bytes.
    pub bytes: Text,
}

/// Named files. Of two entries with one name the first is held.
pub type EntryList = ListOf<Entry>;

/// Why a read gives no bytes.
#[derive(Clone, Copy, Debug, PartialEq, Eq, Error)]
pub enum ReadFault {
    /// No file has the name.
    #[error("no file has this name")]
    Missing,
    /// The file could not be read.
    #[error("the file could not be read")]
    Failed,
    /// Memory ran out.
    #[error("memory ran out")]
    Memory,
}

/// Files that are read by their names.
pub trait Files {
    /// The named files, where the object tells them.
    ghost held: { Self → Option (List Entry) };

    /// How many reads have failed.
    ghost faults: { Self → ℕ };

    /// How many reads have found no file of the name.
    ghost misses: { Self → ℕ };

    /// The first `most` bytes of a file, or all of them where it has fewer.
    fn read(&mut self, alloc: Global, name: &[u8], most: usize) -> Result<Vec<u8>, ReadFault>
        ensures kept { held self.new ≡ held self.old }
        ensures bound { IfOk result (λ bytes. length bytes.items ≤ most) }
        ensures told { ForSome (held self.old) (λ entries. ReadGives (bytes_named entries name.now) most result) }

        // Fewer bytes than were asked for are the whole file.
        ensures whole { IfOk result (λ bytes. length bytes.items < most →
            ForSome (held self.old) (λ entries. bytes_named entries name.now ≡ Some bytes.items)) }

        // The counts never fall, and a fault comes only if its count rose.
        ensures faults { CountsFaults result (faults self.old) (faults self.new) }
        ensures faults_never_fall { faults self.old ≤ faults self.new }
        ensures misses { CountsMisses result (misses self.old) (misses self.new) }
        ensures misses_never_fall { misses self.old ≤ misses self.new };
}
