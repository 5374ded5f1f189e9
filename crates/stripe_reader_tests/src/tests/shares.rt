// The blocks of a window, hashed by more than one thread.
ghost use Rattle.std.specs.Prelude.{◌≡◌, [], OnOk};

use super::scene::{PENDING, STAMP, folder, read, seen};
use block_hash::Kind;
use disk_memory::MemFolder;
use disk_model::{Meta, Path, Text};
use file_table::{Builder, Shape, Table};
use std::alloc::Global;
use std::test::Fail;
use stripe_reader::Starts;

// Eight blocks of this size are the share of a thread.
const BLOCK: usize = 131_072;

const SHAPE: Shape = Shape {
    block_size: 131_072,
    levels: 1,
    kind: Kind::Md5,
    seed: *b"abcdefghijklmnop",
};

// The MD5 of the seed and a block of one byte, from 0 on, as Python's hashlib has it.
const DIGESTS: [&str; 9] = [
    "6e4e9e626b2c6a7d989a44757e9d8256",
    "c9cc96663621d177a2c8519731781697",
    "3b0ef6882e289d016c17c7705727e060",
    "2f4cdec4a06b4630fc53db39056644fc",
    "3752043f9daa1fcf6237521045b00000",
    "724bf0eea5a7513a53f23f58ffd5dea5",
    "480d6b60334bb0f13028768af2990862",
    "08a1c575b354f652fac60e4331afb688",
    "1cdb83d0e6dadb5fef14c7ba2e48af1b",
];

// A disk with a file of three blocks.
fn push_disk(alloc: Global, builder: &mut Builder, name: &str) -> Result<(), Fail>
    requires { builder.old.infos ≡ [] }
    ensures { OnOk result (builder.new.infos ≡ []) }
{
    builder.push_disk(Text::new(alloc, name)?)?;
    let meta = Meta {
        size: 393_216,
        stamp: STAMP,
    };
    builder.push_record(Path::new(alloc, "a")?, meta)?;
    builder.push_block(0, None)?;
    builder.push_block(1, None)?;
    builder.push_block(2, None)?;
    Ok(())
}

fn table(alloc: Global) -> Result<Table, Fail> {
    let mut builder = Builder::new(alloc, SHAPE, 3)?;
    push_disk(alloc, &mut builder, "d0")?;
    push_disk(alloc, &mut builder, "d1")?;
    push_disk(alloc, &mut builder, "d2")?;
    for _ in 0..3 {
        builder.push_info(PENDING)?;
    }
    Ok(builder.finish()?)
}

// Three blocks, each of a byte of its own.
fn spelled(alloc: Global, first: u8) -> Result<Vec<u8>, Fail> {
    let mut bytes = Vec::new(alloc);
    for i in 0..3u8 {
        let size = bytes.len().saturating_add(BLOCK);
        bytes.resize(size, first.saturating_add(i))?;
    }
    Ok(bytes)
}

fn folders(alloc: Global) -> Result<Vec<MemFolder>, Fail> {
    let mut folders = Vec::new(alloc);
    for first in [0, 3, 6] {
        let bytes = spelled(alloc, first)?;
        folders.push(folder(alloc, "a", 1, bytes.as_slice())?)?;
    }
    Ok(folders)
}

#[test]
fn each_block_has_its_digest_by_any_number_of_threads(rt: HostRuntime) -> Result<(), Fail> {
    let alloc = rt.alloc();
    let table = table(alloc)?;
    let starts = Starts::recorded(alloc, &table)?;
    for readers in [1, 2, 16] {
        let mut folders = folders(alloc)?;
        let window = read(&rt, alloc, folders.as_mut_slice(), &table, &starts, readers)?;
        for d in 0..3u32 {
            for i in 0..3u32 {
                let Some((_, Some(digest), _)) = seen(&window, &table, i, d) else {
                    return Err(Fail::new(format_args!("no digest of block {i} of column {d}")));
                };
                let found = format!(in alloc; "{digest}")?;
                let wanted = DIGESTS[(d * 3 + i) as usize];
                assert_eq!(rt;
                    found.as_str(),
                    wanted,
                    "{readers} readers, block {i} of column {d}"
                );
            }
        }
    }
    Ok(())
}
