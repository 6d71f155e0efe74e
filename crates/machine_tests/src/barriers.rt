use barrier_table::{Arrived, Barriers};

#[test]
fn lets_warps_go_at_the_count(rt: HostRuntime) {
    let mut barriers = Barriers::new();
    assert_eq!(rt; barriers.arrive(3, 0, 3), Arrived::Held);
    assert_eq!(rt; barriers.arrive(15, 7, 2), Arrived::Held);
    assert_eq!(rt; barriers.arrive(3, 4, 3), Arrived::Held);
    assert_eq!(rt; barriers.waiting(), 0b1001_0001);
    assert_eq!(rt;
        barriers.arrive(3, 15, 3),
        Arrived::Released {
            warps: 0b1000_0000_0001_0001
        }
    );
    assert_eq!(rt; barriers.waiting(), 0b1000_0000);
    assert_eq!(rt; barriers.arrive(3, 1, 1), Arrived::Released { warps: 0b10 });
    assert_eq!(rt; barriers.arrive(3, 1, 0), Arrived::Released { warps: 0b10 });
    barriers.clear();
    assert_eq!(rt; barriers.waiting(), 0);
}
