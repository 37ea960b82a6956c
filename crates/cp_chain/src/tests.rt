//! Calls with ample memory.
use crate::{Chain, Handle};
use std::process::Abort;
use std::test::Fail;

// The items in their order, one digit each: 243 for 2, 4 and 3.
fn digits(chain: &Chain<u32>) -> u64 {
    let mut all = 0u64;
    for (_, item) in chain.iter() {
        all = all.wrapping_mul(10).wrapping_add(*item as u64);
    }
    all
}

fn shows(rt: &impl Abort, chain: &Chain<u32>, handle: Handle, item: u32) {
    assert!(rt; chain.contains(handle));
    assert_eq!(rt; *chain.get(handle), item);
}

#[test]
fn a_removed_item_leaves_the_others_in_order(rt: HostRuntime) -> Result<(), Fail> {
    let mut chain: Chain<u32> = Chain::new(rt.alloc());
    chain.reserve(3)?;
    let a = chain.push_back(1);
    let b = chain.push_back(2);
    let c = chain.push_back(3);
    assert_eq!(rt; digits(&chain), 123);
    assert_eq!(rt; (chain.first(), chain.last()), (Some(a), Some(c)));
    assert_eq!(rt; chain.remove(b), 2);
    assert_eq!(rt; digits(&chain), 13);
    assert!(rt; chain.spare() > 0);
    let d = chain.push_back(4);
    assert_eq!(rt; digits(&chain), 134);
    assert!(rt; chain.contains(a));
    assert_eq!(rt; chain.prev(a), None);
    assert_eq!(rt; chain.next(a), Some(c));
    assert_eq!(rt; chain.last(), Some(d));
    assert_eq!(rt; (chain.len(), chain.is_empty()), (3, false));
    Ok(())
}

#[test]
fn a_full_chain_uses_a_freed_node_again(rt: HostRuntime) -> Result<(), Fail> {
    let mut chain: Chain<u32> = Chain::new(rt.alloc());
    chain.reserve(4)?;
    let a = chain.push_back(1);
    assert!(rt; chain.spare() > 0);
    let b = chain.push_back(2);
    assert!(rt; chain.spare() > 0);
    let c = chain.push_back(3);
    assert!(rt; chain.spare() > 0);
    let d = chain.push_back(4);
    assert!(rt; chain.contains(a));
    assert_eq!(rt; chain.remove(a), 1);
    assert!(rt; chain.find(0).is_none());
    assert_eq!(rt; chain.find_from(0), Some(b));
    let e = chain.push_back(5);
    assert_eq!(rt; digits(&chain), 2345);
    shows(&rt, &chain, b, 2);
    shows(&rt, &chain, c, 3);
    shows(&rt, &chain, d, 4);
    shows(&rt, &chain, e, 5);
    Ok(())
}
