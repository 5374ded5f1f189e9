// The levels of a stripe, as a vault gives them.
ghost use Rattle.std.specs.Prelude.{◌≡◌, ◌<◌, ◌≤◌, length, take, Some, IfOk};
ghost use Rattle.parity_writer.specs.LevelReading.{kept_level, state_by, ReadsLevel, ReadsLevels};
ghost use Rattle.parity_writer.specs.LevelsValue.{level_at, HaveSize};

use disk_model::{NoMemory, Vault};
use std::alloc::Global;
use std::marker::Model;

/// What was read of a level's block.
#[derive(Clone, Copy, Debug, PartialEq, Eq)]
pub enum LevelRead {
    /// The whole block.
    Bytes,
    /// Fewer bytes than a block has.
    Short,
    /// Nothing, since the vault failed.
    Unread,
}

// What is kept of one level: the bytes that came, and zeros behind them.
#[derive(Drop)]
struct Level {
    state: LevelRead,
    block: Vec<u8>,
}

impl Model for Level {
    ghost use Rattle.parity_writer.specs.LevelsValue.{LevelValue};

    ghost Value = { LevelValue };

    ghost view = { λ level. record { state = level.state; block = level.block.items } };
}

impl Level {
    // A level whose block has this size.
    fn make(alloc: Global, block_size: u32) -> Result<Level, NoMemory>
        ensures { IfOk result (λ level. length level.block ≡ block_size) }
    {
        Ok(Level {
            state: LevelRead::Unread,
            block: vec![in alloc; 0u8; block_size as usize]?,
        })
    }

    // Keeps the bytes that came, and zeros behind them.
    fn keep(&mut self, got: usize)
        requires { got ≤ length self.old.block }
        ensures { self.new ≡ kept_level (length self.old.block) (Some (take got self.old.block)) }
    {
        self.state = state_of(got, self.block.len());
        self.block[got..].fill(0);
    }
}

// What was read where so many bytes came.
fn state_of(got: usize, size: usize) -> LevelRead
    ensures { result ≡ state_by size got }
{
    if got == size {
        LevelRead::Bytes
    } else {
        LevelRead::Short
    }
}

/// What was read of each level of a stripe, in buffers that are taken once.
#[derive(Drop)]
pub struct Levels {
    block_size: u32,
    count: u32,
    levels: Vec<Level>,
}

impl Model for Levels {
    ghost use Rattle.parity_writer.specs.LevelsValue.{LevelsValue, AreLevels};

    ghost Value = { LevelsValue };

    ghost use Rattle.parity_writer.specs.KeptLevels.{levels_of, IsKept};

    ghost view = { levels_of };

    ghost invariant = { IsKept };
}

impl Levels {
    /// Room for six levels, of which none was read.
    pub fn make(alloc: Global, block_size: u32) -> Result<Levels, NoMemory>
        ensures block_size { IfOk result (λ levels. levels.block_size ≡ block_size) }
        ensures count { IfOk result (λ levels. levels.count ≡ 0) }
    {
        let mut levels = Vec::with_capacity(alloc, 6)?;
        for _ in 0..6u32 {
            levels.push(Level::make(alloc, block_size)?)?;
        }
        Ok(Levels {
            block_size,
            count: 0,
            levels,
        })
    }

    /// What was read of a level of the vault that was read last.
    pub fn state(&self, r: u32) -> LevelRead
        requires { r < self.now.count }
        ensures { result ≡ (level_at self.now r).state }
    {
        self.levels[r as usize].state
    }

    /// The bytes of its block that came, and zeros behind them: all zeros where the vault failed.
    pub fn block(&self, r: u32) -> &[u8]
        requires { r < self.now.count }
        ensures value { result.now ≡ (level_at self.now r).block }
        ensures size { length result.now ≡ self.now.block_size }
    {
        self.levels[r as usize].block.as_slice()
    }
}

// Reads a level's block of a stripe into its place.
fn read_level<V: Vault>(vault: &mut V, level: u32, stripe: u32, place: &mut Level)
    requires level { level < (V.view vault.old).levels }
    requires size { length place.old.block ≤ 4194304 }
    ensures { ReadsLevel (length place.old.block) stripe level place.new (V.view vault.old) (V.view vault.new) }
{
    let size = place.block.len();
    let at = u64::from(stripe) * size as u64;
    let got = match vault.parity_read(level, at, &mut place.block) {
        Ok(got) => got,
        Err(_) => {
            place.state = LevelRead::Unread;
            place.block.fill(0);
            return;
        }
    };
    place.keep(got);
}

/// Reads each level's block of a stripe. No memory is taken, and a level that could not be read is `Unread`.
pub fn read_levels<V: Vault>(vault: &mut V, stripe: u32, levels: &mut Levels)
    requires levels { (V.view vault.old).levels ≤ 6 }
    requires size { levels.old.block_size ≤ 4194304 }
    ensures count { levels.new.count ≡ (V.view vault.old).levels }
    ensures size { levels.new.block_size ≡ levels.old.block_size }
    ensures read { ReadsLevels levels.old.block_size stripe levels.new.count levels.new.levels
        (V.view vault.old) (V.view vault.new) }
{
    levels.count = vault.levels();
    let block_size = levels.block_size;
    read_places(vault, stripe, block_size, levels.levels.as_mut_slice());
}

// Reads levels from the first on, each into its place.
fn read_places<V: Vault>(vault: &mut V, stripe: u32, block_size: u32, places: &mut [Level])
    requires room { (V.view vault.old).levels ≤ length places.old }
    requires most { block_size ≤ 4194304 }
    requires size { HaveSize block_size places.old }
    ensures room { length places.new ≡ length places.old }
    ensures size { HaveSize block_size places.new }
    ensures read { ReadsLevels block_size stripe (V.view vault.old).levels places.new
        (V.view vault.old) (V.view vault.new) }
{
    for level in 0..vault.levels() {
        read_level(vault, level, stripe, &mut places[level as usize]);
    }
}
