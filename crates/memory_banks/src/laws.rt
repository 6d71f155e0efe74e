//! A law of legal histories.
ghost use Rattle.std.specs.Prelude.{◌≡◌, ◌<◌, ℕ, List, [], ◌∷◌, ◌++◌, length};
ghost use Rattle.memory_banks.specs.declared.entry.BusEntry.{BusEntry};
ghost use Rattle.memory_banks.specs.Entries.{IsLegal, entries_at, load_entry, store_entry};

/// A port reads back its own store, where no entry on the word came between.
pub fn reads_back()
    ensures { (opening : List ℕ) (before between : List BusEntry) (port word value answer : ℕ)
        → word < length opening
        → entries_at word between ≡ []
        → IsLegal opening (((before ++ store_entry port word value ∷ []) ++ between) ++ load_entry port word answer ∷ [])
        → answer ≡ value }
{}
