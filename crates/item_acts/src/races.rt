ghost use Rattle.std.specs.Prelude.{◌≡◌, ℕ, ◌+◌, ◌<◌, ◌≤◌, map, length, MatchBool, MatchOption, IsTrue, ◌↔◌};
ghost use Rattle.vx_base.specs.Bytes.{bytes_of};
ghost use Rattle.item_acts.specs.Launches.{covers};
ghost use Rattle.item_acts.specs.Tame.{IsRace, HasRace};
ghost use Rattle.item_acts.specs.Worlds.{access_from};
ghost use Rattle.item_acts.specs.LeastRace.{ShareByte, NoRaceFrom, IsNextRace, IsLeastRace};

use crate::acts::Place;
use vx_base::{ListOf, Size};

/// A load or a store that an item of a world has made.
#[derive(Clone, Copy, Debug, PartialEq, Eq)]
pub struct LogEntry {
    /// The item.
    pub item: u32,
    /// Its group.
    pub group: u32,
    /// How often its group had passed a barrier.
    pub epoch: u64,
    /// The first byte of the field.
    pub place: Place,
    /// How many bytes the field has.
    pub size: Size,
    /// Whether it was a store.
    pub writes: bool,
}

/// The loads and stores of a world in order.
pub type EntryLog = ListOf<LogEntry>;

/// Whether two fields of one array share a byte.
fn overlap(byte: u32, size: Size, other: u32, other_size: Size) -> bool
    ensures { MatchBool result ((byte < other + bytes_of other_size) × (other < byte + bytes_of size))
        ((byte < other + bytes_of other_size) × (other < byte + bytes_of size) → ⊥) }
{
    let end = u64::from(byte) + u64::from(size.bytes());
    let other_end = u64::from(other) + u64::from(other_size.bytes());
    u64::from(byte) < other_end && u64::from(other) < end
}

/// Whether two fields share a byte.
fn share_byte(place: Place, size: Size, other: Place, other_size: Size) -> bool
    ensures { MatchBool result (ShareByte place (bytes_of size) other (bytes_of other_size)) (ShareByte place (bytes_of size) other (bytes_of other_size) → ⊥) }
{
    match place {
        Place::Global { buffer, byte } => match other {
            Place::Global {
                buffer: other_buffer,
                byte: other_byte,
            } => {
                if buffer != other_buffer {
                    return false;
                }
                overlap(byte, size, other_byte, other_size)
            }
            Place::Local { .. } => false,
        },
        Place::Local { group, array, byte } => match other {
            Place::Global { .. } => false,
            Place::Local {
                group: other_group,
                array: other_array,
                byte: other_byte,
            } => {
                if group != other_group || array != other_array {
                    return false;
                }
                overlap(byte, size, other_byte, other_size)
            }
        },
    }
}

/// Whether two entries race: they are of different items, share a byte, one of them is a store, and no barrier of a group
/// that both belong to stands between them.
fn races(one: LogEntry, other: LogEntry) -> bool
    ensures { MatchBool result (IsRace (access_from one) (access_from other)) (IsRace (access_from one) (access_from other) → ⊥) }
{
    if one.item == other.item {
        return false;
    }
    if !one.writes && !other.writes {
        return false;
    }
    if one.group == other.group && one.epoch != other.epoch {
        return false;
    }
    share_byte(one.place, one.size, other.place, other.size)
}

/// The first place behind `one` whose entry races with the one there.
fn next_race(log: &[LogEntry], one: usize) -> Option<usize>
    requires { one < length log.now }
    ensures { MatchOption result (NoRaceFrom (map access_from log.now) one) (λ other. IsNextRace (map access_from log.now) one other) }
{
    for other in one + 1..log.len() {
        if races(log[one], log[other]) {
            return Some(other);
        }
    }
    None
}

/// The two places of the log whose entries race, the earlier first: of all such pairs the one with the least first place,
/// and then the least second. None where no entries race.
pub fn least_race(log: &[LogEntry]) -> Option<(usize, usize)>
    ensures { MatchOption result (HasRace (map access_from log.now) → ⊥) (λ pair. IsLeastRace (map access_from log.now) pair.0 pair.1) }
{
    for one in 0..log.len() {
        if let Some(other) = next_race(log, one) {
            return Some((one, other));
        }
    }
    None
}
