// The array that is exercised: its setup, its vault and its first table.
ghost use Rattle.std.specs.Prelude.{◌≡◌, map, IfOk};
ghost use Rattle.disk_calm.specs.Calm.{calm_value, fresh_calm_vault};
ghost use Rattle.array_setup.specs.Setup.{setup_value};
ghost use Rattle.snap_exercise.specs.Exercised as exercised;
ghost use Rattle.snap_exercise.specs.Generated as generated;

use array_setup::{Disk, Disks, Patterns, Rules, Selection, Setup, SyncWay, Texts};
use block_hash::Kind;
use disk_calm::CalmVault;
use disk_model::{NoMemory, Places, Text};
use file_table::{BuildFault, Builder, Shape, Table};
use std::alloc::Global;

/// When the array is synced, in seconds since 1970.
pub(crate) const MOMENT: u64 = 100;

/// How many threads read.
pub(crate) const READERS: u32 = 4;

const SEED: [u8; 16] = *b"abcdefghijklmnop";

const LEVELS: u32 = 3;

const BLOCK_SIZE: u32 = 1024;

// How many bytes each file but the last of its level holds, where a level has several.
const SPLIT: u64 = 16_000_000_000_000;

// The name of each disk, which is its folder too.
const NAMES: &[&str] = &["d1", "d2", "d3", "d4", "d5", "d6", "d7", "d8"];

const PARITIES: &[&str] = &["parity", "2-parity", "3-parity"];

const CONTENTS: &[&str] = &["content"];

/// Nothing is asked of the sync beyond what it does anyway.
pub(crate) const WAY: SyncWay = SyncWay {
    force_zero: false,
    force_empty: false,
    save_every: None,
};

fn texts(alloc: Global, words: &[&str]) -> Result<Vec<Text>, NoMemory>
    ensures { IfOk result (λ texts. texts.items ≡ map (λ word. word.now) words.now) }
{
    let mut texts = Vec::new(alloc);
    for word in words {
        texts.push(Text::new(alloc, word)?)?;
    }
    Ok(texts)
}

fn disks(alloc: Global, words: &[&str]) -> Result<Disks, NoMemory>
    ensures { IfOk result (λ disks. disks ≡ map (λ word. generated.disk_of word.now) words.now) }
{
    let mut disks = Vec::new(alloc);
    for word in words {
        disks.push(Disk {
            name: Text::new(alloc, word)?,
            dir: Text::new(alloc, word)?,
        })?;
    }
    Ok(Disks::new(disks))
}

// One file for each level.
fn parts(alloc: Global) -> Result<Vec<u32>, NoMemory>
    ensures { IfOk result (λ parts. parts.items ≡ generated.setup.parts) }
{
    let parts = vec![in alloc; 1u32; LEVELS as usize]?;
    Ok(parts)
}

/// Eight disks, three levels of one file each, one copy, no rules.
pub(crate) fn make_setup(alloc: Global) -> Result<Setup, NoMemory>
    ensures { IfOk result (λ setup. setup_value setup ≡ generated.setup) }
{
    Ok(Setup {
        disks: disks(alloc, NAMES)?,
        places: Places {
            dirs: texts(alloc, NAMES)?,
            parities: texts(alloc, PARITIES)?,
            contents: texts(alloc, CONTENTS)?,
        },
        parts: parts(alloc)?,
        split: SPLIT,
        rules: Rules::new(Vec::new(alloc)),
        nohidden: false,
        block_size: BLOCK_SIZE,
        autosave: 0,
        log: None,
    })
}

/// The vault of the array, empty.
pub(crate) fn make_vault(alloc: Global) -> Result<CalmVault, NoMemory>
    ensures { IfOk result (λ vault. calm_value vault ≡ fresh_calm_vault 3 1) }
{
    CalmVault::new(alloc, LEVELS, 1)
}

/// All that the array holds.
pub(crate) fn everything(alloc: Global) -> Selection
    ensures { result ≡ exercised.everything }
{
    Selection {
        disks: Texts::new(Vec::new(alloc)),
        patterns: Patterns::new(Vec::new(alloc)),
        missing: false,
        errors: false,
    }
}

fn build(alloc: Global, names: &[&str]) -> Result<Table, BuildFault>
    ensures { IfOk result (λ table. table ≡ generated.table_of (map (λ name. name.now) names.now)) }
{
    let shape = Shape {
        block_size: BLOCK_SIZE,
        levels: LEVELS,
        kind: Kind::Md5,
        seed: SEED,
    };
    let mut builder = Builder::new(alloc, shape, 0)?;
    for name in names {
        builder.push_disk(Text::new(alloc, name)?)?;
    }
    builder.finish()
}

/// The table of the array before its first sync. The builder refuses nothing of it but for want of memory.
pub(crate) fn first_table(alloc: Global) -> Result<Table, NoMemory>
    ensures { IfOk result (λ table. table ≡ generated.first_table) }
{
    match build(alloc, NAMES) {
        Ok(table) => Ok(table),
        Err(_) => Err(NoMemory),
    }
}
