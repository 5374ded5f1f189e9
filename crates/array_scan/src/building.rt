// The table, pushed into a builder.
ghost use Rattle.std.specs.Prelude.{◌≡◌, ◌≤◌, ◌<◌, ◌∷◌, [], ℕ, List, length, map, max, All, IfOk, IfErr, OnOk};
ghost use Rattle.std.specs.List.{range_with_len};
ghost use Rattle.file_table.specs.Table.{column_at, records_of, column_blocks, blocks_of, positions_of, end_of};
ghost use Rattle.file_table.specs.Valid.{IsValid, AreInfos, most_blocks};
ghost use Rattle.file_table.specs.Pushing.{with_blocks, with_records, MayStand, AreWhole, LacksBlocks, TakesBlocks, TakesThese, TakesColumns};
ghost use Rattle.file_table.specs.declared.fault.BuildFault.TheVariants.{Memory};
ghost use Rattle.folder_listing.specs.Kept.{each_column};
ghost use Rattle.array_scan.specs.Fates.{IsSound};
ghost use Rattle.array_scan.specs.Laying.{bare, needed, all_needed, laid_record, laid_records, blocks_laid};
ghost use Rattle.array_scan.specs.Layout.{sorted_of, given_of, AreSound, given_at, columns_laid, laid_info, laid_table, all_touched};
ghost use Rattle.array_scan.specs.Marks.{AreTouched, StandBelow};

use crate::placing::{Given, Places, needed, origin};
use crate::sorting::{ColumnFiles, Sorted};
use disk_model::Text;
use file_table::{Block, BuildFault, Builder, Info, Mark, Table};
use std::alloc::Global;

const PENDING: Info = Info {
    mark: Mark::Pending,
    last: 0,
    bad: false,
    fresh: false,
};

// Pushes blocks as they were.
fn push_kept(builder: &mut Builder, blocks: &[Block]) -> Result<(), BuildFault>
    requires takes { TakesBlocks builder.old }
    requires lacks { LacksBlocks builder.old (length blocks.now) }
    requires may { MayStand builder.old (with_blocks builder.old.columns blocks.now) }
    ensures pushed { OnOk result (builder.new ≡ record builder.old {
      columns = with_blocks builder.old.columns blocks.now;
    }) }
    ensures memory { IfErr result (λ why. why ≡ Memory) }
{
    for block in blocks {
        builder.push_block(block.position, block.hash)?;
    }
    Ok(())
}

// Pushes blocks without a hash.
fn push_bare(builder: &mut Builder, positions: &[u32]) -> Result<(), BuildFault>
    requires takes { TakesBlocks builder.old }
    requires lacks { LacksBlocks builder.old (length positions.now) }
    requires may { MayStand builder.old (with_blocks builder.old.columns (bare positions.now)) }
    ensures pushed { OnOk result (builder.new ≡ record builder.old {
      columns = with_blocks builder.old.columns (bare positions.now);
    }) }
    ensures memory { IfErr result (λ why. why ≡ Memory) }
{
    for position in positions {
        builder.push_block(*position, None)?;
    }
    Ok(())
}

// Pushes a file. Its blocks without a position take these.
fn push_file(
    builder: &mut Builder,
    old: &Table,
    d: u32,
    file: Sorted,
    free: &[u32],
) -> Result<(), BuildFault>
    requires takes { TakesThese builder.old (laid_record old.now.shape.block_size
        (column_at old.now.columns d).records free.now file ∷ []) }
    requires column { d < length old.now.columns }
    requires sound { IsSound (length (column_at old.now.columns d).records) file }
    requires free { length free.now ≡ needed old.now.shape.block_size file }
    ensures pushed { OnOk result (builder.new ≡ record builder.old {
      columns = with_records builder.old.columns (laid_record old.now.shape.block_size
          (column_at old.now.columns d).records free.now file ∷ []);
    }) }
    ensures memory { IfErr result (λ why. why ≡ Memory) }
{
    let kept = origin(file.fate);
    builder.push_record(file.path, file.meta)?;
    match kept {
        Some(rec) => push_kept(builder, old.blocks(d, rec)),
        None => push_bare(builder, free),
    }
}

// Pushes the files of a column, which take these positions in turn.
fn push_files(
    builder: &mut Builder,
    old: &Table,
    d: u32,
    files: Vec<Sorted>,
    given: &[u32],
) -> Result<(), BuildFault>
    requires takes { TakesThese builder.old (laid_records old.now.shape.block_size
        (column_at old.now.columns d).records given.now files.items) }
    requires column { d < length old.now.columns }
    requires sound { All (IsSound (length (column_at old.now.columns d).records)) files.items }
    requires given { length given.now ≡ all_needed old.now.shape.block_size files.items }
    ensures pushed { OnOk result (builder.new ≡ record builder.old {
      columns = with_records builder.old.columns (laid_records old.now.shape.block_size
          (column_at old.now.columns d).records given.now files.items);
    }) }
    ensures memory { IfErr result (λ why. why ≡ Memory) }
{
    let block_size = old.shape().block_size;
    let mut free = given;
    for file in files {
        let count = needed(block_size, &file) as usize;
        let (now, rest) = free.split_at(count);
        push_file(builder, old, d, file, now)?;
        free = rest;
    }
    Ok(())
}

// Pushes the columns of a table, with these files.
fn push_columns(
    alloc: Global,
    builder: &mut Builder,
    old: &Table,
    columns: Vec<ColumnFiles>,
    given: &[Given],
) -> Result<(), BuildFault>
    requires takes { TakesColumns builder.old (columns_laid old.now (sorted_of columns.items)) }
    requires start { builder.old.columns ≡ [] }
    requires sound { AreSound old.now (sorted_of columns.items) }
    requires given { given_of given.now
        ≡ each_column (given_at old.now (sorted_of columns.items)) (length old.now.columns) }
    ensures pushed { OnOk result (builder.new ≡ record builder.old {
      columns = columns_laid old.now (sorted_of columns.items);
    }) }
    ensures memory { IfErr result (λ why. why ≡ Memory) }
{
    let _disks = old.disks();
    let mut d = 0;
    for column in columns {
        let name = Text::new(alloc, old.name(d))?;
        builder.push_disk(name)?;
        push_files(builder, old, d, column.files, &given[d as usize].positions)?;
        d += 1;
    }
    Ok(())
}

// What is known of a stripe of the new table: what was, where it was there and was not touched.
fn info_of(old: &Table, touched: &[bool], stripe: u32) -> Info
    requires { length touched.now ≡ length old.now.infos }
    ensures { (positions : List ℕ) → AreTouched touched.now positions →
        result ≡ laid_info old.now positions stripe }
{
    if stripe < old.length() && !touched[stripe as usize] {
        old.info(stripe)
    } else {
        PENDING
    }
}

// Pushes what is known of so many stripes.
fn push_infos(
    builder: &mut Builder,
    old: &Table,
    touched: &[bool],
    stripes: u32,
) -> Result<(), BuildFault>
    requires long { length touched.now ≡ length old.now.infos }
    requires before_infos { builder.old.infos ≡ [] }
    requires whole { AreWhole builder.old (records_of builder.old.columns) }
    requires room { stripes ≤ builder.old.length }
    ensures pushed { (positions : List ℕ) → AreTouched touched.now positions →
        OnOk result (builder.new ≡ record builder.old {
          infos = map (laid_info old.now positions) (range_with_len 0 stripes);
        }) }
    ensures memory { (positions : List ℕ) → AreTouched touched.now positions →
        AreInfos builder.old.columns (map (laid_info old.now positions) (range_with_len 0 stripes)) →
        IfErr result (λ why. why ≡ Memory) }
{
    for stripe in 0..stripes {
        builder.push_info(info_of(old, touched, stripe))?;
    }
    Ok(())
}

// One more than the greatest position of these blocks, or what it was where that is more.
fn end_of_kept(end: u32, blocks: &[Block]) -> u32
    requires { StandBelow most_blocks blocks.now }
    ensures { result ≡ max end (end_of (positions_of blocks.now)) }
{
    let mut end = end;
    for block in blocks {
        end = end.max(block.position + 1);
    }
    end
}

// The same of these positions.
fn end_of_given(end: u32, positions: &[u32]) -> u32
    requires { All (λ p. p < most_blocks) positions.now }
    ensures { result ≡ max end (end_of positions.now) }
{
    let mut end = end;
    for position in positions {
        end = end.max(*position + 1);
    }
    end
}

// The same of the blocks of a file. Those without a position take these.
fn end_of_file(end: u32, old: &Table, d: u32, file: &Sorted, free: &[u32]) -> u32
    requires column { d < length old.now.columns }
    requires sound { IsSound (length (column_at old.now.columns d).records) file.now }
    requires free { length free.now ≡ needed old.now.shape.block_size file.now }
    requires below { StandBelow most_blocks (laid_record old.now.shape.block_size
        (column_at old.now.columns d).records free.now file.now).blocks }
    ensures { result ≡ max end (end_of (positions_of (laid_record old.now.shape.block_size
        (column_at old.now.columns d).records free.now file.now).blocks)) }
{
    match origin(file.fate) {
        Some(rec) => end_of_kept(end, old.blocks(d, rec)),
        None => end_of_given(end, free),
    }
}

// The same of the blocks of the files of a column, which take these positions in turn.
fn end_of_files(end: u32, old: &Table, d: u32, files: &[Sorted], given: &[u32]) -> u32
    requires column { d < length old.now.columns }
    requires sound { All (IsSound (length (column_at old.now.columns d).records)) files.now }
    requires given { length given.now ≡ all_needed old.now.shape.block_size files.now }
    requires below { StandBelow most_blocks (blocks_laid old.now.shape.block_size
        (column_at old.now.columns d).records given.now files.now) }
    ensures { result ≡ max end (end_of (positions_of (blocks_laid old.now.shape.block_size
        (column_at old.now.columns d).records given.now files.now))) }
{
    let block_size = old.shape().block_size;
    let mut end = end;
    let mut free = given;
    for file in files {
        let count = needed(block_size, file) as usize;
        let (now, rest) = free.split_at(count);
        end = end_of_file(end, old, d, file, now);
        free = rest;
    }
    end
}

// How many stripes there are: one more than the greatest position.
fn stripes_of(old: &Table, columns: &[ColumnFiles], given: &[Given]) -> u32
    requires sound { AreSound old.now (sorted_of columns.now) }
    requires given { given_of given.now
        ≡ each_column (given_at old.now (sorted_of columns.now)) (length old.now.columns) }
    requires below { StandBelow most_blocks (blocks_of (columns_laid old.now (sorted_of columns.now))) }
    ensures { result ≡ end_of (positions_of (blocks_of (columns_laid old.now (sorted_of columns.now)))) }
{
    let mut end = 0;
    for d in 0..old.disks() {
        let at = d as usize;
        end = end_of_files(end, old, d, &columns[at].files, &given[at].positions);
    }
    end
}

/// The table of these files at these places. It is valid, so the builder refuses it for memory alone.
pub(crate) fn build(
    alloc: Global,
    old: &Table,
    columns: Vec<ColumnFiles>,
    places: &Places,
) -> Result<Table, BuildFault>
    requires sound { AreSound old.now (sorted_of columns.items) }
    requires given { given_of places.now.given.items
        ≡ each_column (given_at old.now (sorted_of columns.items)) (length old.now.columns) }
    requires long { length places.now.touched.items ≡ length old.now.infos }
    requires touched { AreTouched places.now.touched.items
        (all_touched old.now (sorted_of columns.items)) }
    requires valid { IsValid (laid_table old.now (sorted_of columns.items)) }
    ensures built { IfOk result (λ table. table ≡ laid_table old.now (sorted_of columns.items)) }
    ensures memory { IfErr result (λ why. why ≡ Memory) }
{
    let given = places.given.as_slice();
    let touched = places.touched.as_slice();
    let files = columns.as_slice();
    let stripes = stripes_of(old, files, given);
    let mut builder = Builder::new(alloc, old.shape(), stripes)?;
    push_columns(alloc, &mut builder, old, columns, given)?;
    push_infos(&mut builder, old, touched, stripes)?;
    builder.finish()
}
