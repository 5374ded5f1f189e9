// The chosen stripes of a window over two disks in memory, written.
ghost use Rattle.std.specs.Prelude.{◌≡◌, ◌<◌, [], OnOk};
ghost use Rattle.disk_memory.specs.Vault.{vault_view};

use block_hash::Kind;
use disk_memory::{MemFolder, MemVault};
use disk_model::{Failed, Meta, Path, Stamp, Text, Vault};
use file_table::{Builder, Info, Mark, Shape, Table};
use parity_writer::{sum_levels, sum_row, write_window};
use std::alloc::Global;
use std::test::Fail;
use std::thread::Threads;
use stripe_reader::{CellRead, Found, Starts, Window, read_window};

const STAMP: Stamp = Stamp {
    seconds: 1,
    nanos: 5,
};

const SHAPE: Shape = Shape {
    block_size: 1024,
    levels: 2,
    kind: Kind::Md5,
    seed: *b"abcdefghijklmnop",
};

const PENDING: Info = Info {
    mark: Mark::Pending,
    last: 0,
    bad: false,
    fresh: false,
};

// A disk with a file `a` of this size at the first stripe, and at the second where it has two blocks.
fn push_disk(alloc: Global, builder: &mut Builder, name: &str, size: u64) -> Result<(), Fail>
    requires { builder.old.infos ≡ [] }
    ensures { OnOk result (builder.new.infos ≡ []) }
{
    builder.push_disk(Text::new(alloc, name)?)?;
    builder.push_record(Path::new(alloc, "a")?, Meta { size, stamp: STAMP })?;
    builder.push_block(0, None)?;
    if size > 1024 {
        builder.push_block(1, None)?;
    }
    Ok(())
}

// Two disks with files of 2,000 and of 1,000 bytes.
fn table(alloc: Global) -> Result<Table, Fail> {
    let mut builder = Builder::new(alloc, SHAPE, 2)?;
    push_disk(alloc, &mut builder, "d1", 2000)?;
    push_disk(alloc, &mut builder, "d2", 1000)?;
    builder.push_info(PENDING)?;
    builder.push_info(PENDING)?;
    Ok(builder.finish()?)
}

fn folder(alloc: Global, bytes: &[u8]) -> Result<MemFolder, Fail> {
    let mut folder = MemFolder::new(alloc, true);
    folder.put(Path::new(alloc, "a")?, STAMP, bytes)?;
    Ok(folder)
}

// Both stripes, read from files of bytes 1 and 2.
fn read<R: Threads + Sync>(rt: &R, alloc: Global, table: &Table) -> Result<Window, Fail> {
    let mut folders = Vec::new(alloc);
    folders.push(folder(alloc, &[1; 2000])?)?;
    folders.push(folder(alloc, &[2; 1000])?)?;
    let starts = Starts::recorded(alloc, table)?;
    if table.disks() != 2 || table.length() != 2 || !starts.fits(table) {
        return Err(Fail::new(format_args!("another table")));
    }
    let mut window = Window::make(alloc, 2, 2, table.shape().block_size)?;
    read_window(
        rt,
        folders.as_mut_slice(),
        table,
        &starts,
        &[0, 1],
        2,
        &mut window,
    );
    Ok(window)
}

// Writes the chosen ones of both stripes.
fn write(
    vault: &mut MemVault,
    table: &Table,
    window: &Window,
    chosen: [bool; 2],
) -> Result<(), Fail>
    requires { (vault_view vault.old).levels ≡ 2 }
    ensures { (vault_view vault.new).levels ≡ 2 }
{
    if !window.fits(table)
        || table.shape().block_size != 1024
        || table.disks() != 2
        || window.count() != 2
    {
        return Err(Fail::new(format_args!("another window")));
    }
    let mut sums = [0; 6144];
    write_window(vault, window, &[0, 1], &chosen, &mut sums)?;
    Ok(())
}

// How many bytes a level has, and those at three places: at the beginning, behind the shorter file, and in the second stripe.
fn seen(vault: &mut MemVault, level: u32) -> Result<(usize, u8, u8, u8), Failed>
    requires { level < (vault_view vault.old).levels }
    ensures { (vault_view vault.new).levels ≡ (vault_view vault.old).levels }
{
    let mut out = [9; 2048];
    let count = vault.parity_read(level, 0, &mut out)?;
    Ok((count, out[999], out[1000], out[1999]))
}

// The weights of the columns are 1 and 1, then 1 and 2.
#[test]
fn chosen_stripes_have_their_sums(rt: HostRuntime) -> Result<(), Fail> {
    let alloc = rt.alloc();
    let table = table(alloc)?;
    let window = read(&rt, alloc, &table)?;
    let mut vault = MemVault::new(alloc, 2, 0)?;
    write(&mut vault, &table, &window, [true, false])?;
    assert_eq!(rt; seen(&mut vault, 0)?, (1024, 3, 1, 9));
    assert_eq!(rt; seen(&mut vault, 1)?, (1024, 5, 1, 9));
    write(&mut vault, &table, &window, [false, true])?;
    assert_eq!(rt; seen(&mut vault, 0)?, (2048, 3, 1, 1));
    Ok(())
}

// Puts four bytes into the second column of the second stripe, where there is no block.
fn put(table: &Table, window: &mut Window) -> Result<([u8; 1024], [u8; 6144]), Fail> {
    if !window.fits(table)
        || table.shape().block_size != 1024
        || table.disks() != 2
        || window.count() != 2
    {
        return Err(Fail::new(format_args!("another window")));
    }
    window.put(1, 1, &[6, 7, 8, 9]);
    let mut sum = [0; 1024];
    sum_row(window, 1, 1, &mut sum);
    let mut sums = [5; 6144];
    sum_levels(window, 1, 2, &mut sums);
    Ok((sum, sums))
}

// The weights of the columns in the second level are 1 and 2; the first column has 976 bytes there.
#[test]
fn a_block_that_is_put_counts_in_the_sums(rt: HostRuntime) -> Result<(), Fail> {
    let alloc = rt.alloc();
    let table = table(alloc)?;
    let mut window = read(&rt, alloc, &table)?;
    let (sum, sums) = put(&table, &mut window)?;
    assert!(rt; sums[1024..].starts_with(&sum));
    assert_eq!(rt;
        [sums[0], sums[3], sums[4], sums[1023], sums[2048]],
        [7, 8, 1, 0, 5]
    );
    assert_eq!(rt; [sum[0], sum[1], sum[2], sum[3]], [13, 15, 17, 19]);
    assert_eq!(rt; [sum[4], sum[975], sum[976], sum[1023]], [1, 1, 0, 0]);
    if window.count() < 2 || window.columns() < 2 {
        return Err(Fail::new(format_args!("another window")));
    }
    let there = CellRead {
        found: Found::Bytes,
        got: 4,
        seen: None,
    };
    assert_eq!(rt; window.cell(1, 1), there);
    assert_eq!(rt; window.digest(1, 1), None);
    assert!(rt; window.block(1, 1).starts_with(&[6, 7, 8, 9, 0]));
    assert!(rt; window.digest(1, 0).is_some());
    Ok(())
}
