// The stripes that a scrub plans.
ghost use Rattle.std.specs.Prelude.{◌≡◌, ◌<◌, ◌≤◌, [], length};

use array_setup::{ScrubPlan, ScrubWay};
use block_hash::{Digest16, Kind};
use disk_model::{Meta, Path, Stamp, Text};
use file_table::{BuildFault, Builder, Info, Mark, Shape, Table};
use snap_scrub::plan;
use std::alloc::Global;
use std::test::Fail;

const DAY: u64 = 86_400;

const NOW: u64 = 12 * DAY;

const SHAPE: Shape = Shape {
    block_size: 1024,
    levels: 1,
    kind: Kind::Md5,
    seed: [0; 16],
};

const RECORDED: Meta = Meta {
    size: 10,
    stamp: Stamp {
        seconds: 1,
        nanos: 5,
    },
};

const HASH: Option<Digest16> = Some(Digest16([0x0f; 16]));

// What is asked for, when the first of ten stripes was checked last and how much later each next one was, and which are
// planned: a bit for each, the first stripe's is the last one.
static ROWS: [(ScrubPlan, u64, u64, u16); 11] = [
    (ScrubPlan::Percent(25), 0, DAY, 0b10_0000_0111),
    (ScrubPlan::Percent(15), 0, DAY, 0b10_0000_0011),
    (ScrubPlan::Percent(40), 0, DAY, 0b10_0000_0111),
    (ScrubPlan::Percent(0), 0, DAY, 0b10_0000_0000),
    (ScrubPlan::Bad, 0, DAY, 0b10_0000_0000),
    (ScrubPlan::New, 0, DAY, 0b00_1001_0000),
    (ScrubPlan::Full, 0, DAY, 0b11_1111_1111),
    (ScrubPlan::Percent(21), DAY, 0, 0b10_0000_0111),
    (ScrubPlan::Percent(20), DAY, 0, 0b10_0000_0011),
    (ScrubPlan::Percent(100), DAY, 0, 0b11_1111_1111),
    (ScrubPlan::Percent(100), u64::MAX, 0, 0b10_0000_0000),
];

// A file of a block, whose name is its number and ten thousand.
fn push_file(builder: &mut Builder, alloc: Global, number: u32) -> Result<(), Fail>
    requires before_infos { builder.old.infos ≡ [] }
    requires column { 0 < length builder.old.columns }
    requires number { number ≤ 1000 }
    ensures before_infos { builder.new.infos ≡ [] }
    ensures column { 0 < length builder.new.columns }
{
    let name = format!(in alloc; "{}", 10_000 + number)?;
    builder.push_record(Path::new(alloc, name.as_str())?, RECORDED)?;
    builder.push_block(number, HASH)?;
    Ok(())
}

// Ten such files.
fn push_files(builder: &mut Builder, alloc: Global) -> Result<(), Fail>
    requires before_infos { builder.old.infos ≡ [] }
    requires column { 0 < length builder.old.columns }
{
    for number in 0..10 {
        push_file(builder, alloc, number)?;
    }
    Ok(())
}

// What is known of ten stripes: the last is bad, and two were not checked since their sync.
fn push_infos(builder: &mut Builder, first: u64, apart: u64) -> Result<(), BuildFault> {
    for stripe in 0..10u64 {
        builder.push_info(Info {
            mark: Mark::Synced,
            last: first.saturating_add(apart.saturating_mul(stripe)),
            bad: stripe == 9,
            fresh: stripe == 4 || stripe == 7,
        })?;
    }
    Ok(())
}

// Ten synced stripes with a block of one disk each.
fn ten_stripes(alloc: Global, first: u64, apart: u64) -> Result<Table, Fail> {
    let mut builder = Builder::new(alloc, SHAPE, 10)?;
    builder.push_disk(Text::new(alloc, "d1")?)?;
    push_files(&mut builder, alloc)?;
    push_infos(&mut builder, first, apart)?;
    Ok(builder.finish()?)
}

// The numbers of the stripes with a bit.
fn numbers_in(alloc: Global, stripes: u16) -> Result<Vec<u32>, Fail> {
    let mut numbers = Vec::new(alloc);
    for stripe in 0..10u32 {
        if stripes >> stripe & 1 == 1 {
            numbers.push(stripe)?;
        }
    }
    Ok(numbers)
}

// Whether just these are planned.
fn plans(
    alloc: Global,
    asked: ScrubPlan,
    first: u64,
    apart: u64,
    stripes: u16,
) -> Result<bool, Fail> {
    let table = ten_stripes(alloc, first, apart)?;
    let way = ScrubWay {
        plan: asked,
        older: 10,
    };
    let planned = plan(alloc, &table, &way, NOW)?;
    Ok(planned.as_slice() == numbers_in(alloc, stripes)?.as_slice())
}

#[test]
fn stripes_are_planned_by_age_and_marks(rt: HostRuntime) -> Result<(), Fail> {
    for (asked, first, apart, stripes) in &ROWS {
        assert!(rt; plans(rt.alloc(), *asked, *first, *apart, *stripes)?);
    }
    Ok(())
}
