// The table that the tests print, and the tests.
use block_hash::{Digest16, Kind};
use disk_model::{Meta, Path, Stamp, Text};
use file_table::{Builder, Info, Mark, Shape, Table};
use std::alloc::Global;
use std::test::Fail;

mod answers;
mod lines;
mod pages;
mod reports;
mod texts;

const SHAPE: Shape = Shape {
    block_size: 1024,
    levels: 3,
    kind: Kind::Md5,
    seed: [0; 16],
};

const RECORDED: Meta = Meta {
    size: 10,
    stamp: Stamp {
        seconds: 1,
        nanos: 5,
    },
};

const HASH: Option<Digest16> = Some(Digest16([0x0f; 16]));

// Three disks with a file `a` of one block each. The first two stand at a stripe that was synced at 100 and found
// bad since, the third at a pending one.
fn table(alloc: Global) -> Result<Table, Fail> {
    let mut builder = Builder::new(alloc, SHAPE, 2)?;
    builder.push_disk(Text::new(alloc, "d1")?)?;
    builder.push_record(Path::new(alloc, "a")?, RECORDED)?;
    builder.push_block(0, HASH)?;
    builder.push_disk(Text::new(alloc, "d2")?)?;
    builder.push_record(Path::new(alloc, "a")?, RECORDED)?;
    builder.push_block(0, HASH)?;
    builder.push_disk(Text::new(alloc, "d3")?)?;
    builder.push_record(Path::new(alloc, "a")?, RECORDED)?;
    builder.push_block(1, None)?;
    builder.push_info(Info {
        mark: Mark::Synced,
        last: 100,
        bad: true,
        fresh: true,
    })?;
    builder.push_info(Info {
        mark: Mark::Pending,
        last: 0,
        bad: false,
        fresh: false,
    })?;
    Ok(builder.finish()?)
}

// One disk with an empty file of this path, and no stripe.
fn table_of(alloc: Global, path: &str) -> Result<Table, Fail> {
    let mut builder = Builder::new(alloc, SHAPE, 0)?;
    builder.push_disk(Text::new(alloc, "d1")?)?;
    let meta = Meta {
        size: 0,
        stamp: RECORDED.stamp,
    };
    builder.push_record(Path::new(alloc, path)?, meta)?;
    Ok(builder.finish()?)
}
