ghost use Rattle.std.specs.Prelude.{◌≡◌, ◌<◌, [], ◌∷◌, All};
ghost use Rattle.group_dispenser.specs.Claimers.{IsOf, drawn, gathered, lists, spare};

use group_dispenser::{Claimer, Dispenser, claimers, close, gather};
use std::alloc::Global;
use std::test::Fail;
use std::thread::{Threads, join};

// Claims to the end of a hundred groups, and answers how many times it drew each of them. No claimer has more.
fn claim_all(d: &Dispenser, mut c: Claimer) -> (Claimer, [u32; 100])
    requires { IsOf d.now c × (drawn c ≡ []) }
    ensures { IsOf d.now result.0 × (gathered result.0 ≡ gathered c) × (spare result.0 ≡ spare c) }
{
    let mut times = [0; 100];
    for claimed in 0..101 {
        let Some(group) = c.claim(d) else {
            return (c, times);
        };
        let group = group as usize;
        if group < 100 {
            times[group] = times[group].saturating_add(1);
        }
    }
    (c, times)
}

fn run_two<R: Threads + Sync>(
    rt: &R,
    alloc: Global,
) -> Result<([u32; 100], [u32; 100], u32), Fail> {
    let (d, mut first) = Dispenser::new(alloc, 100)?;
    let mut made = claimers(alloc, &d, &mut first, 1)?;
    let Some(second) = made.items.pop() else {
        unreachable!()
    };
    let (one, other) = join(
        rt,
        || -> (Claimer, [u32; 100])
            requires { IsOf d first × (lists first ≡ [] ∷ []) × (spare first ≡ 7) }
            ensures { IsOf d result.0 × (gathered result.0 ≡ []) × (spare result.0 ≡ 7) }
        { claim_all(&d, first) },
        || -> (Claimer, [u32; 100])
            requires { IsOf d second × (lists second ≡ [] ∷ []) × (spare second ≡ 0) }
            ensures { IsOf d result.0 × (gathered result.0 ≡ []) × (spare result.0 ≡ 0) }
        { claim_all(&d, second) },
    );
    let (mut first, a) = one;
    let (second, b) = other;
    made.items.push(second)?;
    gather(&d, &mut first, made);
    Ok((a, b, close(d, first)))
}

#[test]
fn two_threads_claim_each_group_once(rt: HostRuntime) -> Result<(), Fail> {
    let (a, b, tickets) = run_two(&rt, rt.alloc())?;
    for group in 0..100 {
        assert_eq!(rt; a[group].saturating_add(b[group]), 1);
    }
    assert_eq!(rt; tickets, 102);
    Ok(())
}
