// Blocks of four files that a sync writes, and then of one more: where they stand in three parts of 2,048 bytes.
use crate::tests::vaults::{Long, lens, one_level};
use disk_memory::MemVault;
use disk_model::{Failed, Vault};
use std::alloc::Global;
use std::test::Fail;

/// Of a block this byte so many times; the rest is zeros.
type Block = (u8, usize);

fn bytes(block: Block) -> [u8; 1024] {
    let mut bytes = [0; 1024];
    for byte in bytes.iter_mut().take(block.1) {
        *byte = block.0;
    }
    bytes
}

fn write<V: Vault>(vault: &mut V, stripe: u32, block: Block) -> Result<(), Failed> {
    if vault.levels() == 0 {
        return Err(Failed);
    }
    vault.parity_write(0, u64::from(stripe) * 1024, &bytes(block))
}

fn sync<V: Vault>(vault: &mut V) -> Result<(), Failed> {
    if vault.levels() == 0 {
        return Err(Failed);
    }
    vault.parity_sync(0)
}

// Writes each block, and syncs the level.
fn write_all<V: Vault>(vault: &mut V, blocks: &[(u32, Block)]) -> Result<(), Failed> {
    for (stripe, block) in blocks {
        write(vault, *stripe, *block)?;
    }
    sync(vault)
}

// Whether a file has this block there.
fn has<V: Vault>(vault: &mut V, file: u32, place: u32, block: Block) -> Result<bool, Failed> {
    if file >= vault.levels() {
        return Ok(false);
    }
    let mut out = [9; 1024];
    let got = vault.parity_read(file, u64::from(place) * 1024, &mut out)?;
    Ok(got == 1024 && out == bytes(block))
}

// Whether these are the blocks of the parts, and of the level that is not split.
fn are_there<V: Vault>(parts: &mut V, plain: &mut V, blocks: &[Block]) -> Result<bool, Failed> {
    let mut stripe = 0u32;
    for block in blocks {
        if !has(parts, stripe / 2, stripe % 2, *block)? || !has(plain, 0, stripe, *block)? {
            return Ok(false);
        }
        stripe = stripe.saturating_add(1);
    }
    Ok(true)
}

// The lengths of the parts after these writes, if these are the blocks then.
fn play(
    alloc: Global,
    first: &[(u32, Block)],
    second: &[(u32, Block)],
    blocks: &[Block],
) -> Result<[u64; 3], Fail> {
    let base = MemVault::new(alloc, 3, 0)?;
    let mut split = one_level::<Long>(alloc, base, 2048)?;
    let mut plain = MemVault::new(alloc, 1, 0)?;
    write_all(&mut split, first)?;
    write_all(&mut plain, first)?;
    write_all(&mut split, second)?;
    write_all(&mut plain, second)?;
    let mut parts = split.into_base();
    if !are_there(&mut parts, &mut plain, blocks)? {
        return Err(Fail::new(format_args!("other blocks")));
    }
    lens(&mut parts)
}

// Files b, c and d of 1, 1,024 and 1,025 bytes.
static FIRST: [(u32, Block); 4] = [
    (0, (0xb, 1)),
    (1, (0xc, 1024)),
    (2, (0xd, 1024)),
    (3, (0xd, 1)),
];

// File c is gone, and e of 2,049 bytes added.
static SECOND: [(u32, Block); 3] = [(1, (0xe, 1024)), (4, (0xe, 1024)), (5, (0xe, 1))];

#[test]
fn a_level_fills_its_parts_in_order(rt: HostRuntime) -> Result<(), Fail> {
    let blocks = [(0xb, 1), (0xc, 1024), (0xd, 1024), (0xd, 1)];
    let lens = play(rt.alloc(), &FIRST, &[], &blocks)?;
    assert_eq!(rt; lens, [2048, 2048, 0]);
    Ok(())
}

#[test]
fn a_longer_level_goes_on_in_the_next_part(rt: HostRuntime) -> Result<(), Fail> {
    let blocks = [
        (0xb, 1),
        (0xe, 1024),
        (0xd, 1024),
        (0xd, 1),
        (0xe, 1024),
        (0xe, 1),
    ];
    let lens = play(rt.alloc(), &FIRST, &SECOND, &blocks)?;
    assert_eq!(rt; lens, [2048, 2048, 2048]);
    Ok(())
}
