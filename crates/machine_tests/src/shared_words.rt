ghost use Rattle.std.specs.Prelude.{◌≡◌, ◌<◌, ◌≤◌, length, IfOk, bit_and};
ghost use Rattle.memory_banks.specs.Ports.{IsOf, number, numbers, opening_of};

use memory_banks::{Banks, Bus, PlainBus, Port, PortBus, bank_of, close, gather, ports, renew};
use std::alloc::Global;
use std::test::Fail;
use std::thread::{Threads, join};
use vx_base::{ListOf, WordList};

fn words_of(alloc: Global, words: &[u32]) -> Result<WordList, Fail>
    ensures { IfOk result (λ v. v ≡ words.now) }
{
    Ok(ListOf {
        items: words.to_vec(alloc)?,
    })
}

// A thousand stores by turns over sixteen words: of the low byte of the turn and of `add`, to byte `first` of a word and to the
// second byte behind it by turns.
fn store_bytes(banks: &Banks, mut port: Port, first: u32, add: u32) -> Port
    requires of { IsOf banks.now port }
    requires words { 16 ≤ length (opening_of banks.now) }
    requires small { (first < 2) × (add < 1000) }
    ensures { IsOf banks.now result × (number result ≡ number port) × (numbers result ≡ numbers port) }
{
    for turn in 0..1000 {
        let shift = 8 * (first + 2 * (turn / 16 % 2));
        let bits = 0xff << shift;
        let value = (turn + add) << shift & bits;
        if !bits & value == 0 {
            port.store_part(banks, turn % 16, !bits, value);
        }
    }
    port
}

fn store_both<R: Threads + Sync>(rt: &R, alloc: Global) -> Result<WordList, Fail> {
    let mut out = words_of(alloc, &[0x5566_7788; 16])?;
    let (banks, mut first) = Banks::of_words(alloc, &out)?;
    let mut made = ports(alloc, &banks, &mut first, 1)?;
    let Some(second) = made.items.pop() else {
        unreachable!()
    };
    let (mut first, second) = join(
        rt,
        || -> Port
            requires { IsOf banks first × (16 ≤ length (opening_of banks)) }
            ensures { IsOf banks result × (number result ≡ number first) × (numbers result ≡ numbers first) }
        { store_bytes(&banks, first, 0, 0) },
        || -> Port
            requires { IsOf banks second × (16 ≤ length (opening_of banks)) }
            ensures { IsOf banks result × (number result ≡ number second) × (numbers result ≡ numbers second) }
        { store_bytes(&banks, second, 1, 500) },
    );
    made.items.push(second)?;
    gather(&banks, &mut first, made);
    close(banks, first, &mut out);
    Ok(out)
}

#[test]
fn two_threads_store_alternate_bytes_of_words(rt: HostRuntime) -> Result<(), Fail> {
    let words = store_both(&rt, rt.alloc())?;
    assert_eq!(rt;
        words.as_slice(),
        [
            0xc4d0_d4e0,
            0xc5d1_d5e1,
            0xc6d2_d6e2,
            0xc7d3_d7e3,
            0xc8d4_d8e4,
            0xc9d5_d9e5,
            0xcad6_dae6,
            0xcbd7_dbe7,
            0xccd8_bcc8,
            0xcdd9_bdc9,
            0xceda_beca,
            0xcfdb_bfcb,
            0xd0dc_c0cc,
            0xd1dd_c1cd,
            0xd2de_c2ce,
            0xd3df_c3cf,
        ]
        .as_slice()
    );
    Ok(())
}

// Two words: what `second` then loads after a renewal is what `first` stored.
fn load_after_renewal(alloc: Global) -> Result<[u32; 4], Fail> {
    let words = words_of(alloc, &[7, 8])?;
    let (banks, mut first) = Banks::of_words(alloc, &words)?;
    let mut list = ports(alloc, &banks, &mut first, 1)?;
    first.store(&banks, 1, 50);
    renew(&banks, &mut first, &mut list);
    let Some(mut second) = list.items.pop() else {
        return Ok([0, 0, 0, 0]);
    };
    let loaded = second.load(&banks, 1);
    second.store_part(&banks, 1, 0xffff_ff00, 0x34);
    let untouched = second.load(&banks, 0);
    let mut bus = PortBus {
        banks: &banks,
        port: second,
    };
    let through = bus.load(1);
    let count = bus.words();
    Ok([loaded, untouched, through, count])
}

#[test]
fn a_renewed_port_loads_what_was_stored(rt: HostRuntime) -> Result<(), Fail> {
    assert_eq!(rt; load_after_renewal(rt.alloc())?, [50, 7, 0x34, 2]);
    Ok(())
}

// The same, where the port that renews the list is one that `ports` made.
fn load_after_renewal_by_another(alloc: Global) -> Result<u32, Fail> {
    let words = words_of(alloc, &[7, 8])?;
    let (banks, mut first) = Banks::of_words(alloc, &words)?;
    let mut made = ports(alloc, &banks, &mut first, 1)?;
    let mut list = ports(alloc, &banks, &mut first, 1)?;
    let Some(mut into) = made.items.pop() else {
        return Ok(0);
    };
    into.store(&banks, 1, 60);
    renew(&banks, &mut into, &mut list);
    let Some(mut second) = list.items.pop() else {
        return Ok(0);
    };
    Ok(second.load(&banks, 1))
}

#[test]
fn a_port_that_was_made_renews_another(rt: HostRuntime) -> Result<(), Fail> {
    assert_eq!(rt; load_after_renewal_by_another(rt.alloc())?, 60);
    Ok(())
}

#[test]
fn a_plain_bus_keeps_its_words(rt: HostRuntime) -> Result<(), Fail> {
    let mut bus = PlainBus::new(words_of(rt.alloc(), &[1, 0x1111_1111])?);
    bus.store(0, 9);
    bus.store_part(1, 0xffff_0000, 0x2222);
    assert_eq!(rt; bus.load(1), 0x1111_2222);
    assert_eq!(rt; bus.words(), 2);
    let words = bus.into_words();
    assert_eq!(rt; words.as_slice(), [9, 0x1111_2222].as_slice());
    Ok(())
}

#[test]
fn lines_take_turns_over_banks(rt: HostRuntime) {
    assert_eq!(rt; bank_of(13, 4), 1);
}
