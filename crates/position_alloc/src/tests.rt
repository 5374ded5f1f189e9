//! Positions of one and of several words, and a gap that is filled from below.

use crate::FreeList;
use disk_model::NoMemory;
use std::alloc::Global;
use std::test::Fail;

/// Takes `count` positions, lowest first, and says how many came in order.
fn fill(list: &mut FreeList, count: u32) -> Result<u32, NoMemory> {
    let mut in_order = 0;
    for _ in 0..count {
        let p = list.first_free();
        if p == in_order && p < 67_108_864 {
            list.mark(p)?;
            in_order = p + 1;
        }
    }
    Ok(in_order)
}

/// What is lowest at first, after 0, 200 and 1 were taken, and after 64 was taken and 0 was given back.
fn lowest_ones(alloc: Global) -> Result<[u32; 3], NoMemory> {
    let mut list = FreeList::new(alloc);
    let empty = list.first_free();
    list.mark(0)?;
    list.mark(200)?;
    list.mark(1)?;
    let marked = list.first_free();
    list.mark(64)?;
    list.give(0)?;
    Ok([empty, marked, list.first_free()])
}

/// The first two positions of an empty list.
fn first_two(alloc: Global) -> Result<[u32; 2], NoMemory> {
    let mut list = FreeList::new(alloc);
    Ok([list.take()?, list.take()?])
}

#[test]
fn lowest_positions_come_first(rt: HostRuntime) -> Result<(), Fail> {
    let mut list = FreeList::new(rt.alloc());
    assert_eq!(rt; fill(&mut list, 1000), Ok(1000));
    assert_eq!(rt; list.first_free(), 1000);
    assert_eq!(rt; lowest_ones(rt.alloc()), Ok([0, 2, 0]));
    assert_eq!(rt; first_two(rt.alloc()), Ok([0, 1]));
    Ok(())
}
