use l1_cache::{Cache, EvictOldest, Evictor};
use memory_banks::PlainBus;
use std::test::Fail;
use vx_base::{ListOf, Size};

#[test]
fn reads_and_writes_fields_of_words(rt: HostRuntime) -> Result<(), Fail> {
    let mut cache = Cache::new(rt.alloc(), 1, 1)?;
    let mut evict = EvictOldest::new();
    evict.begin(0);
    let words = vec![in rt.alloc(); 0x4433_2211; 16]?;
    let mut bus = PlainBus::new(ListOf { items: words });
    cache.write(&mut bus, 61, Size::One, 0xaabb);
    cache.write(&mut bus, 10, Size::Two, 0xc_ddee);
    cache.write(&mut bus, 4, Size::Four, 0x0102_0304);
    assert_eq!(rt;
        cache.read(&mut bus, &mut evict, 60, Size::Four),
        0x4433_bb11
    );
    assert_eq!(rt; cache.read(&mut bus, &mut evict, 62, Size::Two), 0x4433);
    assert_eq!(rt;
        cache.read(&mut bus, &mut evict, 8, Size::Four),
        0xddee_2211
    );
    assert_eq!(rt; cache.read(&mut bus, &mut evict, 11, Size::One), 0xdd);
    assert_eq!(rt;
        cache.read(&mut bus, &mut evict, 4, Size::Four),
        0x0102_0304
    );
    cache.invalidate();
    assert_eq!(rt; cache.hits(), 0);
    assert_eq!(rt; cache.misses(), 0);
    assert_eq!(rt; evict.victim(0, 3, 4), 3);
    Ok(())
}
