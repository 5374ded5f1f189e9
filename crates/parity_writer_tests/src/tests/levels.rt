// The levels of a stripe, read of a vault in memory.
ghost use Rattle.std.specs.Prelude.{◌≡◌, ◌<◌};

use disk_memory::MemVault;
use disk_model::Vault;
use parity_writer::{LevelRead, Levels, read_levels};
use std::test::Fail;

// Whether this was read of a level, with this block.
fn has(levels: &Levels, r: u32, state: LevelRead, block: &[u8]) -> bool
    requires { r < levels.now.count }
{
    levels.state(r) == state && levels.block(r) == block
}

#[test]
fn each_level_is_whole_short_or_unread(rt: HostRuntime) -> Result<(), Fail> {
    let alloc = rt.alloc();
    let mut levels = Levels::make(alloc, 4)?;
    let mut vault = MemVault::new(alloc, 3, 0)?;
    vault.set_parity(0, b"abcdefghij")?;
    vault.set_parity(1, b"klmnopqr")?;
    vault.set_parity(2, b"abcdefgh!")?;
    read_levels(&mut vault, 1, &mut levels);
    assert!(rt; has(&levels, 0, LevelRead::Bytes, b"efgh"));
    assert!(rt; has(&levels, 1, LevelRead::Bytes, b"opqr"));
    assert!(rt; has(&levels, 2, LevelRead::Bytes, b"efgh"));
    // In the same room, and no byte of the first reading stays.
    let mut vault = MemVault::new(alloc, 4, 0)?;
    vault.set_parity(0, b"abcdefghij")?;
    vault.set_parity(1, b"abcdefghij")?;
    vault.set_parity(2, b"abc")?;
    vault.fail_at(1)?;
    read_levels(&mut vault, 2, &mut levels);
    assert_eq!(rt; vault.faults(), 1);
    assert!(rt; has(&levels, 0, LevelRead::Unread, b"\0\0\0\0"));
    assert!(rt; has(&levels, 1, LevelRead::Short, b"ij\0\0"));
    assert!(rt; has(&levels, 2, LevelRead::Short, b"\0\0\0\0"));
    assert!(rt; has(&levels, 3, LevelRead::Short, b"\0\0\0\0"));
    Ok(())
}
