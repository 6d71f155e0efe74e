use ipdom_stack::{DEPTH, Full, Held, Ipdom};

#[test]
fn holds_sixty_four_entries(rt: HostRuntime) {
    let mut stack = Ipdom::new();
    assert!(rt; stack.is_empty());
    for mask in 0..64_u32 {
        assert_eq!(rt; stack.push(Held::Restore { mask }), Ok(()));
    }
    assert_eq!(rt; stack.push(Held::Else { mask: 1, pc: 4 }), Err(Full));
    assert_eq!(rt; stack.len(), DEPTH);
    for mask in (0..64_u32).rev() {
        assert_eq!(rt; stack.pop(), Some(Held::Restore { mask }));
    }
    assert_eq!(rt; stack.pop(), None);
    assert_eq!(rt; stack.push(Held::Else { mask: 1, pc: 4 }), Ok(()));
    stack.clear();
    assert_eq!(rt; stack.pop(), None);
}
