use slot_pool::SlotPool;
use std::test::Fail;

// Two leases, one block given back and one more lease: the pool has two blocks, and the one leased last holds 64
// times its fill.
#[test]
fn a_free_block_is_leased_again(rt: HostRuntime) -> Result<(), Fail> {
    let mut pool: SlotPool<u8> = SlotPool::new(rt.alloc());
    let first = pool.lease(1)?;
    let second = pool.lease(2)?;
    pool.give(first);
    let third = pool.lease(3)?;
    assert_eq!(rt; pool.blocks(), 2);
    for i in 0..64 {
        assert_eq!(rt; pool.read(third, i), 3);
        assert_eq!(rt; pool.read(second, i), 2);
    }
    Ok(())
}

// Blocks for which room was made are leased without memory, and a write changes one place of one block.
#[test]
fn reserved_blocks_are_apart(rt: HostRuntime) -> Result<(), Fail> {
    let mut pool: SlotPool<u16> = SlotPool::new(rt.alloc());
    pool.reserve(2)?;
    let first = pool.lease_reserved(7);
    let second = pool.lease(8)?;
    pool.write(first, 63, 9);
    pool.fill(second, 1, 3, 5);
    assert_eq!(rt; pool.read(first, 62), 7);
    assert_eq!(rt; pool.read(first, 63), 9);
    assert_eq!(rt; pool.read(second, 0), 8);
    assert_eq!(rt; pool.read(second, 2), 5);
    assert_eq!(rt; pool.read(second, 3), 8);
    assert_eq!(rt; pool.live(), 2);
    Ok(())
}

// The places of so many blocks can't be numbered: the pool is as before.
#[test]
fn too_many_blocks_are_refused(rt: HostRuntime) -> Result<(), Fail> {
    let mut pool: SlotPool<u8> = SlotPool::new(rt.alloc());
    let block = pool.lease(4)?;
    assert!(rt; pool.reserve(usize::MAX).is_err());
    assert!(rt; pool.reserve(usize::MAX / 64).is_err());
    assert_eq!(rt; pool.blocks(), 1);
    assert_eq!(rt; pool.read(block, 0), 4);
    Ok(())
}
