//! The limits of numbers.
ghost use Rattle.std.specs.Prelude.{◌≡◌, ◌^◌, ◌<◌, ◌≤◌};
ghost use Rattle.std.specs.List.{list_all};
ghost use Rattle.command_words.specs.Limits;

use crate::entries::{ArgEntry, DoEntry, Entry, Origin, Pick, SizeKey};
use decimal_text::read_decimal;
use vx_base::Text;

/// The most that 32 bits hold.
const MOST_WORD: u64 = 4_294_967_295;

/// Whether digits write a number from the least to the most.
fn is_between(digits: &Text, least: u64, most: u64) -> bool
    ensures { result ≡ Limits.is_between least most digits.now }
{
    match read_decimal(digits.items.as_slice()) {
        Ok(number) => least <= number && number <= most,
        Err(_) => false,
    }
}

/// The number that digits write, where it is at most this, and else 0.
pub fn number_upto(digits: &Text, most: u64) -> u64
    ensures number { result ≡ Limits.number_upto most digits.now }
    ensures upto { result ≤ most }
{
    match read_decimal(digits.items.as_slice()) {
        Ok(number) if number <= most => number,
        _ => 0,
    }
}

/// The number of 32 bits that digits write, and 0 where they write none.
pub fn word_upto(digits: &Text, most: u32) -> u32
    ensures { result ≡ Limits.number_upto most digits.now }
{
    number_upto(digits, u64::from(most)) as u32
}

/// Whether a number is one of the powers of two below 128.
fn is_power(number: u64) -> bool
    ensures { result ≡ Limits.is_power number }
{
    matches!(number, 1 | 2 | 4 | 8 | 16 | 32 | 64)
}

/// Whether digits write a power of two that is at most this.
fn is_power_upto(digits: &Text, most: u64) -> bool
    requires { most < 128 }
    ensures { result ≡ Limits.is_power_upto most digits.now }
{
    match read_decimal(digits.items.as_slice()) {
        Ok(number) => 1 <= number && number <= most && is_power(number),
        Err(_) => false,
    }
}

/// Whether digits write a seed.
fn is_seed(digits: &Text) -> bool
    ensures { result ≡ Limits.is_seed digits.now }
{
    is_between(digits, 0, u64::MAX)
}

/// Whether the number of an argument is within its limits.
fn is_arg_within(arg: &ArgEntry) -> bool
    ensures { result ≡ Limits.is_arg_within arg.now }
{
    match arg {
        ArgEntry::Named(_) => true,
        ArgEntry::Number(digits) => is_between(digits, 0, MOST_WORD),
        ArgEntry::Negative(digits) => is_between(digits, 0, 2_147_483_648),
        ArgEntry::Local(digits) => is_between(digits, 1, 262_144),
    }
}

/// Whether the count of a buffer is within its limits.
fn is_origin_within(origin: &Origin) -> bool
    ensures { result ≡ Limits.is_origin_within origin.now }
{
    match origin {
        Origin::In(_) => true,
        Origin::Zero(digits) => is_between(digits, 0, 4_194_304),
    }
}

/// Whether the numbers of arguments are within their limits.
fn are_args_within(args: &[ArgEntry]) -> bool
    ensures { result ≡ list_all Limits.is_arg_within args.now }
{
    args.iter().all(|arg| is_arg_within(arg))
}

/// Whether the numbers of a launch are within their limits.
fn is_launch_within(launch: &DoEntry) -> bool
    ensures { result ≡ Limits.is_launch_within launch.now }
{
    if !is_between(&launch.global, 1, MOST_WORD) {
        return false;
    }
    if !is_between(&launch.local, 1, MOST_WORD) {
        return false;
    }
    are_args_within(launch.args.items.as_slice())
}

/// Whether the seed of a choice is one.
fn is_pick_within(pick: &Pick) -> bool
    ensures { result ≡ Limits.is_pick_within pick.now }
{
    match pick {
        Pick::Round | Pick::Oldest => true,
        Pick::Seed(digits) => is_seed(digits),
    }
}

/// Whether a size of the machine is within its limits.
fn is_size_within(key: SizeKey, digits: &Text) -> bool
    ensures { result ≡ Limits.is_size_within key digits.now }
{
    match key {
        SizeKey::Cores => is_between(digits, 1, 8),
        SizeKey::Warps => is_between(digits, 1, 16),
        SizeKey::Lanes => is_between(digits, 1, 32),
        SizeKey::Sets => is_power_upto(digits, 64),
        SizeKey::Ways => is_between(digits, 1, 8),
        SizeKey::Banks => is_power_upto(digits, 16),
        SizeKey::Turns => is_between(digits, 1, 4_294_967_296),
    }
}

/// Whether all numbers of a word are within their limits.
pub fn is_within(word: &Entry) -> bool
    ensures { result ≡ Limits.is_within word.now }
{
    match word {
        Entry::File(_) | Entry::Kernel(_) | Entry::Show(_) | Entry::Stats(_) => true,
        Entry::Seed(digits) => is_seed(digits),
        Entry::Count(digits) => is_between(digits, 1, 10),
        Entry::Buf(buffer) => is_origin_within(&buffer.origin),
        Entry::Do(launch) => is_launch_within(launch),
        Entry::Size(key, digits) => is_size_within(*key, digits),
        Entry::Sched(pick) | Entry::Evict(pick) => is_pick_within(pick),
    }
}
