// Files that hold the same, over two columns, and blocks by their hashes.
ghost use Rattle.std.specs.Prelude.{◌≡◌, ◌<◌, [], length};

use block_hash::{Digest16, Kind};
use disk_model::{Meta, Path, Stamp, Text};
use file_table::{Builder, Info, Mark, Shape, Table};
use hash_index::{BlockIndex, Entry, Hash, Pair, Pairs};
use std::alloc::Global;
use std::test::Fail;

const SHAPE: Shape = Shape {
    block_size: 1024,
    levels: 1,
    kind: Kind::Md5,
    seed: [7; 16],
};

const PENDING: Info = Info {
    mark: Mark::Pending,
    last: 0,
    bad: false,
    fresh: false,
};

const STAMP: Stamp = Stamp {
    seconds: 1,
    nanos: 5,
};

const X: Digest16 = Digest16([0x0f; 16]);

const Y: Digest16 = Digest16([0xf0; 16]);

// A file of one block at most: its name, its size, and the block's position and hash.
type File = (&'static str, u64, Option<(u32, Option<Digest16>)>);

// Three files of one content and one of another, two empty ones, one without a hash, and one of the
// same hash that is longer.
static FIRST: [File; 5] = [
    ("a", 1, Some((0, Some(X)))),
    ("b", 1, Some((1, Some(X)))),
    ("c", 1, Some((2, Some(Y)))),
    ("e", 0, None),
    ("f", 0, None),
];

static SECOND: [File; 3] = [
    ("u", 1, Some((0, None))),
    ("w", 2, Some((1, Some(X)))),
    ("z", 1, Some((2, Some(X)))),
];

// Their pairs: of `a`, `b` and `z`.
const PAIRS: [(u32, u32, u32, u32); 3] = [(0, 0, 0, 1), (0, 0, 1, 2), (0, 1, 1, 2)];

fn push_file(builder: &mut Builder, alloc: Global, file: &File) -> Result<(), Fail>
    requires before_infos { builder.old.infos ≡ [] }
    requires column { 0 < length builder.old.columns }
    ensures before_infos { builder.new.infos ≡ [] }
    ensures column { 0 < length builder.new.columns }
{
    let (name, size, block) = *file;
    let meta = Meta { size, stamp: STAMP };
    builder.push_record(Path::new(alloc, name)?, meta)?;
    match block {
        Some((position, hash)) => Ok(builder.push_block(position, hash)?),
        None => Ok(()),
    }
}

fn push_files(builder: &mut Builder, alloc: Global, files: &[File]) -> Result<(), Fail>
    requires before_infos { builder.old.infos ≡ [] }
    requires column { 0 < length builder.old.columns }
    ensures before_infos { builder.new.infos ≡ [] }
{
    for file in files {
        push_file(builder, alloc, file)?;
    }
    Ok(())
}

fn two_disks(alloc: Global) -> Result<Table, Fail> {
    let mut builder = Builder::new(alloc, SHAPE, 3)?;
    builder.push_disk(Text::new(alloc, "d1")?)?;
    push_files(&mut builder, alloc, &FIRST)?;
    builder.push_disk(Text::new(alloc, "d2")?)?;
    push_files(&mut builder, alloc, &SECOND)?;
    for _ in 0..3 {
        builder.push_info(PENDING)?;
    }
    Ok(builder.finish()?)
}

#[test]
fn files_that_hold_the_same_come_in_pairs(rt: HostRuntime) -> Result<(), Fail> {
    let alloc = rt.alloc();
    let table = two_disks(alloc)?;
    let mut pairs = Pairs::new(alloc, &table)?;
    for (disk, rec, other_disk, other_rec) in PAIRS {
        let pair = Pair {
            disk,
            rec,
            other_disk,
            other_rec,
        };
        assert_eq!(rt; pairs.next(), Some(pair));
    }
    assert_eq!(rt; pairs.next(), None);
    assert_eq!(rt; pairs.next(), None);
    Ok(())
}

// A hash, a length, and the file and the block that were added with both, or are found.
const ADDED: [(Kind, Digest16, u32, (u32, u32)); 4] = [
    (Kind::Md5, X, 10, (3, 0)),
    (Kind::Md5, X, 10, (4, 1)),
    (Kind::Sha256, X, 10, (5, 0)),
    (Kind::Md5, X, 9, (6, 2)),
];

const FOUND: [(Kind, Digest16, u32, Option<(u32, u32)>); 5] = [
    (Kind::Md5, X, 10, Some((3, 0))),
    (Kind::Sha256, X, 10, Some((5, 0))),
    (Kind::Md5, X, 9, Some((6, 2))),
    (Kind::Md5, Y, 10, None),
    (Kind::Sha256, X, 9, None),
];

fn entry(kind: Kind, digest: Digest16, length: u32, spot: (u32, u32)) -> Entry {
    let (file, index) = spot;
    Entry {
        hash: Hash { kind, digest },
        length,
        file,
        index,
    }
}

#[test]
fn an_index_finds_the_first_of_a_hash_and_a_length(rt: HostRuntime) -> Result<(), Fail> {
    let mut blocks = BlockIndex::new(rt.alloc());
    for (kind, digest, length, spot) in ADDED {
        blocks.add(entry(kind, digest, length, spot))?;
    }
    for (kind, digest, length, spot) in FOUND {
        let wanted = match spot {
            Some(spot) => Some(entry(kind, digest, length, spot)),
            None => None,
        };
        assert_eq!(rt; blocks.first(Hash { kind, digest }, length), wanted);
    }
    Ok(())
}
