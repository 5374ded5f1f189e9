// The table of one file, from its first call to its last, and what a builder answers before it is given anything.
ghost use Rattle.std.specs.Prelude.{◌≡◌, ◌<◌, [], length, IfOk};
ghost use Rattle.file_table.specs.Building.{last_column};

mod refused;

use block_hash::{Digest16, Kind};
use disk_model::{Meta, Path, Stamp, Text};
use file_table::{Block, BuildFault, Builder, Cell, Info, Mark, Shape, Table};
use std::alloc::Global;
use std::test::Fail;

const SHAPE: Shape = Shape {
    block_size: 1024,
    levels: 1,
    kind: Kind::Md5,
    seed: [7; 16],
};

const HASH: Digest16 = Digest16([9; 16]);

const SYNCED: Info = Info {
    mark: Mark::Synced,
    last: 5,
    bad: false,
    fresh: true,
};

const META: Meta = Meta {
    size: 10,
    stamp: Stamp {
        seconds: 1,
        nanos: 5,
    },
};

fn path(alloc: Global, text: &str) -> Result<Path, BuildFault> {
    Path::new(alloc, text).map_err(|_| BuildFault::Memory)
}

// A stripe, and the disk `d1` with a file `a` of ten bytes, whose block is at 0.
fn with_file(alloc: Global) -> Result<Builder, BuildFault>
    ensures before_infos { IfOk result (λ builder. builder.infos ≡ []) }
    ensures length { IfOk result (λ builder. builder.length ≡ 1) }
    ensures column { IfOk result (λ builder. 0 < length builder.columns) }
{
    let mut builder = Builder::new(alloc, SHAPE, 1)?;
    builder.push_disk(Text::new(alloc, "d1")?)?;
    builder.push_record(path(alloc, "a")?, META)?;
    builder.push_block(0, Some(HASH))?;
    Ok(builder)
}

fn one_file(alloc: Global) -> Result<Table, BuildFault> {
    let mut builder = with_file(alloc)?;
    builder.push_info(SYNCED)?;
    builder.finish()
}

#[test]
fn a_builder_answers_before_it_is_given_anything(rt: HostRuntime) -> Result<(), Fail> {
    let alloc = rt.alloc();
    let builder = with_file(alloc)?;
    let paths = [
        ("b", None),
        ("b.unrecoverable", Some(BuildFault::Name)),
        ("a", Some(BuildFault::Order)),
        ("a/b", Some(BuildFault::Nested)),
    ];
    for (text, fault) in paths {
        assert_eq!(rt; builder.path_fault(&path(alloc, text)?), fault);
    }
    let positions = [
        (0, Some(BuildFault::Repeated)),
        (1, Some(BuildFault::Range)),
    ];
    for (position, fault) in positions {
        assert_eq!(rt; builder.position_fault(position), fault);
    }
    for (size, fits) in [(1024 * 67_108_863, true), (1024 * 67_108_863 + 1, false)] {
        assert_eq!(rt; builder.size_fits(size), fits);
    }
    assert!(rt; builder.length_fits());
    assert!(rt; builder.next_has_hashes());
    Ok(())
}

#[test]
fn a_table_of_one_file_is_read(rt: HostRuntime) -> Result<(), Fail> {
    let alloc = rt.alloc();
    let table = one_file(alloc)?;
    assert_eq!(rt; table.shape(), SHAPE);
    assert_eq!(rt; table.length(), 1);
    assert_eq!(rt; table.info(0), SYNCED);
    assert_eq!(rt; table.total(), 1);
    assert_eq!(rt; table.disks(), 1);
    assert_eq!(rt; table.name(0), "d1");
    assert_eq!(rt; table.cell(0, 0), Some(Cell { rec: 0, index: 0 }));
    assert_eq!(rt; table.find(0, &path(alloc, "a")?), Some(0));
    assert_eq!(rt; table.records(0), 1);
    assert_eq!(rt; table.path(0, 0).as_str(), "a");
    assert_eq!(rt; table.meta(0, 0), META);
    let block = Block {
        position: 0,
        hash: Some(HASH),
    };
    assert_eq!(rt; table.blocks(0, 0), [block].as_slice());
    Ok(())
}

#[test]
fn a_block_gets_its_hash_and_a_stripe_its_info(rt: HostRuntime) -> Result<(), Fail> {
    let alloc = rt.alloc();
    let mut table = one_file(alloc)?;
    let pending = Info {
        mark: Mark::Pending,
        last: 0,
        bad: false,
        fresh: false,
    };
    assert_eq!(rt; table.length(), 1);
    table.set_info(0, pending);
    assert_eq!(rt; table.info(0), pending);
    assert_eq!(rt; table.disks(), 1);
    assert_eq!(rt; table.records(0), 1);
    assert_eq!(rt; table.blocks(0, 0).len(), 1);
    table.set_hash(0, 0, 0, Digest16([1; 16]));
    assert_eq!(rt; table.blocks(0, 0).len(), 1);
    assert_eq!(rt; table.blocks(0, 0)[0].hash, Some(Digest16([1; 16])));
    Ok(())
}
