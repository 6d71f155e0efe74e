use warp_scheduler::{OldestFirst, Picker, RoundRobin, SeededPick};

// The warps that a policy picks, one for each of these sets of ready warps, in a group that begins.
fn picks_of<P: Picker>(policy: &mut P, group: u32, ready: [u32; 7]) -> [u32; 7] {
    policy.begin(group);
    let mut picks = [99; 7];
    for k in 0..7 {
        if ready[k] != 0 {
            picks[k] = policy.pick(ready[k]);
        }
    }
    picks
}

#[test]
fn takes_each_warp_in_turn(rt: HostRuntime) {
    let mut policy = RoundRobin::new();
    let ready = [0b1011, 0b1011, 0b1011, 0b1011, 0b0100, 0b0110, 1 << 31];
    assert_eq!(rt; picks_of(&mut policy, 0, ready), [0, 1, 3, 0, 2, 1, 31]);
    let ready = [0b1000, 0b0111, 0b0110, 0b0110, 0b0001, 1 << 31, 0b0011];
    assert_eq!(rt; picks_of(&mut policy, 1, ready), [3, 0, 1, 2, 0, 31, 0]);
}

#[test]
fn takes_the_warp_that_waited_longest(rt: HostRuntime) {
    let mut policy = OldestFirst::new();
    let ready = [0b1011, 0b1011, 0b1011, 0b1111, 0b1011, 0b1010, 0b1101];
    assert_eq!(rt; picks_of(&mut policy, 0, ready), [0, 1, 3, 2, 0, 1, 3]);
    let ready = [0b1010, 0b1010, 0b1011, 0b1011, 0b1011, 1 << 31, 0b1000];
    assert_eq!(rt; picks_of(&mut policy, 1, ready), [1, 3, 0, 1, 3, 31, 3]);
}

// The numbers are those of the reference implementation of PCG32.
#[test]
fn draws_by_the_seed_and_the_group(rt: HostRuntime) {
    let mut policy = SeededPick::new(7);
    let ready = [0b1011, 0b1011, 0b1011, 0b1011, 0b100, 0b1000_0110, 0b1011];
    assert_eq!(rt; picks_of(&mut policy, 0, ready), [0, 1, 3, 3, 2, 2, 3]);
    assert_eq!(rt; picks_of(&mut policy, 1, ready), [3, 1, 1, 0, 2, 1, 0]);
}
