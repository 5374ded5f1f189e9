// Tables that a builder refuses: which call does, and why.
ghost use Rattle.std.specs.Prelude.{◌≡◌, ◌<◌, [], length};
ghost use Rattle.file_table.specs.Building.{last_column};

use crate::tests::{HASH, META, SHAPE, SYNCED, path};
use disk_model::{Meta, Text};
use file_table::{BuildFault, Builder, Info, Mark, Table};
use std::alloc::Global;
use std::test::Fail;

// A file by its path: its size, and the positions of its blocks, and whether each has a hash.
type File = (&'static str, u64, &'static [(u32, bool)]);

// A disk by its name: its files.
type Disk = (&'static str, &'static [File]);

// A call of a builder.
#[derive(Clone, Copy, Debug, PartialEq, Eq)]
enum Call {
    Disk,
    Record,
    Block,
    Info,
    Finish,
}

type Refusal = (Call, BuildFault);

// A file with its one block, and one that lacks the second of two.
const WHOLE: File = ("a", 10, &[(0, true)]);

const LACKING: File = ("a", 1025, &[(0, true)]);

const PENDING: Info = Info {
    mark: Mark::Pending,
    last: 0,
    bad: false,
    fresh: false,
};

const CHECKED: Info = Info { last: 5, ..PENDING };

const BAD: Info = Info {
    bad: true,
    ..PENDING
};

const FRESH: Info = Info {
    fresh: true,
    ..PENDING
};

// A number of stripes, the disks, and what is known of the stripes, pushed in this order; then the call that refuses
// the table, and why.
static REFUSED: [(u32, &[Disk], &[Info], Call, BuildFault); 23] = [
    // the name of a level, and a name twice
    (0, &[("parity", &[])], &[], Call::Disk, BuildFault::Name),
    (
        0,
        &[("d1", &[]), ("d1", &[])],
        &[],
        Call::Disk,
        BuildFault::Name,
    ),
    (
        1,
        &[("d1", &[LACKING]), ("d2", &[])],
        &[],
        Call::Disk,
        BuildFault::Blocks,
    ),
    (
        1,
        &[("d1", &[LACKING, ("b", 0, &[])])],
        &[],
        Call::Record,
        BuildFault::Blocks,
    ),
    (
        0,
        &[("d1", &[("a.unrecoverable", 0, &[])])],
        &[],
        Call::Record,
        BuildFault::Name,
    ),
    (
        0,
        &[("d1", &[("b", 0, &[]), ("a", 0, &[])])],
        &[],
        Call::Record,
        BuildFault::Order,
    ),
    (
        0,
        &[("d1", &[("a", 0, &[]), ("a/b", 0, &[])])],
        &[],
        Call::Record,
        BuildFault::Nested,
    ),
    // one block more than 67,108,864
    (
        0,
        &[("d1", &[("a", 68_719_476_737, &[])])],
        &[],
        Call::Record,
        BuildFault::Full,
    ),
    (
        2,
        &[("d1", &[("a", 10, &[(0, true), (1, true)])])],
        &[],
        Call::Block,
        BuildFault::Blocks,
    ),
    (
        1,
        &[("d1", &[("a", 10, &[(1, true)])])],
        &[],
        Call::Block,
        BuildFault::Range,
    ),
    (
        1,
        &[("d1", &[("a", 1025, &[(0, true), (0, true)])])],
        &[],
        Call::Block,
        BuildFault::Repeated,
    ),
    (
        1,
        &[("d1", &[LACKING])],
        &[SYNCED],
        Call::Info,
        BuildFault::Blocks,
    ),
    (
        1,
        &[("d1", &[WHOLE])],
        &[CHECKED],
        Call::Info,
        BuildFault::State,
    ),
    (
        1,
        &[("d1", &[WHOLE])],
        &[BAD],
        Call::Info,
        BuildFault::State,
    ),
    (
        1,
        &[("d1", &[WHOLE])],
        &[FRESH],
        Call::Info,
        BuildFault::State,
    ),
    (
        1,
        &[("d1", &[WHOLE])],
        &[SYNCED, SYNCED],
        Call::Info,
        BuildFault::Length,
    ),
    (
        1,
        &[("d1", &[("a", 10, &[(0, false)])])],
        &[SYNCED],
        Call::Info,
        BuildFault::Hash,
    ),
    (0, &[], &[], Call::Finish, BuildFault::Name),
    (
        1,
        &[("d1", &[LACKING])],
        &[],
        Call::Finish,
        BuildFault::Blocks,
    ),
    // just 67,108,864 blocks, all of which lack
    (
        0,
        &[("d1", &[("a", 68_719_476_736, &[])])],
        &[],
        Call::Finish,
        BuildFault::Blocks,
    ),
    (1, &[("d1", &[WHOLE])], &[], Call::Finish, BuildFault::State),
    // more stripes than blocks, with files and without
    (
        2,
        &[("d1", &[WHOLE])],
        &[SYNCED, SYNCED],
        Call::Finish,
        BuildFault::Length,
    ),
    (
        1,
        &[("d1", &[])],
        &[SYNCED],
        Call::Finish,
        BuildFault::Length,
    ),
];

fn push_blocks(builder: &mut Builder, blocks: &[(u32, bool)]) -> Result<(), BuildFault>
    requires before_infos { builder.old.infos ≡ [] }
    requires column { 0 < length builder.old.columns }
    requires rec { 0 < length (last_column builder.old.columns).records }
    ensures before_infos { builder.new.infos ≡ [] }
    ensures column { 0 < length builder.new.columns }
{
    for (position, is_hashed) in blocks {
        let hash = if *is_hashed { Some(HASH) } else { None };
        builder.push_block(*position, hash)?;
    }
    Ok(())
}

fn push_file(builder: &mut Builder, alloc: Global, file: &File) -> Result<(), Refusal>
    requires before_infos { builder.old.infos ≡ [] }
    requires column { 0 < length builder.old.columns }
    ensures before_infos { builder.new.infos ≡ [] }
    ensures column { 0 < length builder.new.columns }
{
    let (name, size, blocks) = *file;
    let meta = Meta {
        size,
        stamp: META.stamp,
    };
    let path = path(alloc, name).map_err(|fault| (Call::Record, fault))?;
    if let Err(fault) = builder.push_record(path, meta) {
        return Err((Call::Record, fault));
    }
    match push_blocks(builder, blocks) {
        Ok(()) => Ok(()),
        Err(fault) => Err((Call::Block, fault)),
    }
}

fn push_files(builder: &mut Builder, alloc: Global, files: &[File]) -> Result<(), Refusal>
    requires before_infos { builder.old.infos ≡ [] }
    requires column { 0 < length builder.old.columns }
    ensures before_infos { builder.new.infos ≡ [] }
{
    for file in files {
        push_file(builder, alloc, file)?;
    }
    Ok(())
}

fn push_disks(builder: &mut Builder, alloc: Global, disks: &[Disk]) -> Result<(), Refusal>
    requires { builder.old.infos ≡ [] }
{
    for (name, files) in disks {
        let Ok(name) = Text::new(alloc, name) else {
            return Err((Call::Disk, BuildFault::Memory));
        };
        if let Err(fault) = builder.push_disk(name) {
            return Err((Call::Disk, fault));
        }
        push_files(builder, alloc, files)?;
    }
    Ok(())
}

fn push_infos(builder: &mut Builder, infos: &[Info]) -> Result<(), BuildFault> {
    for info in infos {
        builder.push_info(*info)?;
    }
    Ok(())
}

// The table of so many stripes, of these disks and with this known of the stripes.
fn pushed(alloc: Global, stripes: u32, disks: &[Disk], infos: &[Info]) -> Result<Table, Refusal> {
    let Ok(mut builder) = Builder::new(alloc, SHAPE, stripes.min(2)) else {
        return Err((Call::Disk, BuildFault::Memory));
    };
    push_disks(&mut builder, alloc, disks)?;
    if let Err(fault) = push_infos(&mut builder, infos) {
        return Err((Call::Info, fault));
    }
    match builder.finish() {
        Ok(table) => Ok(table),
        Err(fault) => Err((Call::Finish, fault)),
    }
}

#[test]
fn each_fault_has_its_call(rt: HostRuntime) -> Result<(), Fail> {
    let alloc = rt.alloc();
    let mut number = 0u32;
    for (stripes, disks, infos, call, fault) in &REFUSED {
        let refusal = pushed(alloc, *stripes, disks, infos).err();
        assert_eq!(rt; refusal, Some((*call, *fault)), "at {number}");
        number = number.saturating_add(1);
    }
    Ok(())
}
