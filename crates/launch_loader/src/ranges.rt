//! Which ranges a machine takes.
ghost use Rattle.std.specs.Prelude.{◌≡◌, ℕ, ◌<◌, ◌≤◌, slice_index, MatchOption, MatchResult};
ghost use Rattle.vx_layout.specs.Launching.{group_count, group_size, groups_in, size_in};
ghost use Rattle.launch_loader.specs.Refusals.{AllDivide, IsFirstUneven, RefusesRange, TakesRange, divides, kept};

use crate::faults::LaunchFault;
use item_acts::Range;

// How many groups a launch may have.
const MOST_GROUPS: u64 = 65_536;

/// The global size of a dimension, and 1 past the last.
fn global_size(range: &Range, dimension: usize) -> u32
    requires { dimension < 3 }
    ensures { result ≡ size_in range.now range.now.global dimension }
{
    if dimension < range.dims as usize {
        range.global[dimension]
    } else {
        1
    }
}

/// The local size of a dimension, and 1 past the last.
fn local_size(range: &Range, dimension: usize) -> u32
    requires within { dimension < 3 }
    requires some { 1 ≤ slice_index range.now.local dimension }
    ensures size { result ≡ size_in range.now range.now.local dimension }
    ensures some { 1 ≤ result }
{
    if dimension < range.dims as usize {
        range.local[dimension]
    } else {
        1
    }
}

/// How many groups a dimension has.
fn groups(range: &Range, dimension: usize) -> u32
    requires within { dimension < 3 }
    requires some { 1 ≤ slice_index range.now.local dimension }
    ensures { result ≡ groups_in range.now dimension }
{
    global_size(range, dimension) / local_size(range, dimension)
}

/// How many items a group has, and 2^64 - 1 for more.
fn items_in_group(range: &Range) -> u64
    requires some { (d : ℕ) → d < 3 → 1 ≤ slice_index range.now.local d }
    ensures { result ≡ kept (group_size range.now) }
{
    let first = local_size(range, 0);
    let second = local_size(range, 1);
    let third = local_size(range, 2);
    (u64::from(first) * u64::from(second)).saturating_mul(u64::from(third))
}

/// How many groups there are, and 2^64 - 1 for more.
fn all_groups(range: &Range) -> u64
    requires some { (d : ℕ) → d < 3 → 1 ≤ slice_index range.now.local d }
    ensures { result ≡ kept (group_count range.now) }
{
    let first = groups(range, 0);
    let second = groups(range, 1);
    let third = groups(range, 2);
    (u64::from(first) * u64::from(second)).saturating_mul(u64::from(third))
}

/// Whether the local size of a dimension divides its global size.
fn divides(range: &Range, dimension: usize) -> bool
    requires within { dimension < 3 }
    requires some { 1 ≤ slice_index range.now.local dimension }
    ensures { result ≡ divides range.now dimension }
{
    range.global[dimension] % range.local[dimension] == 0
}

/// The first dimension whose local size does not divide its global size.
fn first_uneven(range: &Range) -> Option<usize>
    requires some { (d : ℕ) → d < 3 → 1 ≤ slice_index range.now.local d }
    ensures { MatchOption result (AllDivide range.now) (IsFirstUneven range.now) }
{
    for dimension in 0..3 {
        if !divides(range, dimension) {
            return Some(dimension);
        }
    }
    None
}

/// Whether a machine of so many warps and lanes a core takes a range.
///
/// # Errors
///
/// `Divide` exactly where a local size does not divide its global size, else `GroupSize` exactly where a
/// group has more items than a core takes, else `Groups` exactly above 65,536 groups.
pub fn check_range(range: &Range, warps: u32, lanes: u32) -> Result<(), LaunchFault>
    requires some { (d : ℕ) → d < 3 → 1 ≤ slice_index range.now.local d }
    requires warps { warps ≤ 16 }
    requires lanes { lanes ≤ 32 }
    ensures { MatchResult result
        (λ _. TakesRange range.now warps lanes)
        (RefusesRange range.now warps lanes) }
{
    if let Some(dimension) = first_uneven(range) {
        return Err(LaunchFault::Divide {
            global: range.global[dimension],
            local: range.local[dimension],
        });
    }
    let most = (warps * lanes).min(512);
    let items = items_in_group(range);
    if items > u64::from(most) {
        return Err(LaunchFault::GroupSize { items, most });
    }
    let count = all_groups(range);
    if count > MOST_GROUPS {
        return Err(LaunchFault::Groups { count });
    }
    Ok(())
}
