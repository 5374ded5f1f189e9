// The files that a number makes.
ghost use Rattle.std.specs.Prelude.{◌≡◌, ◌<◌, length, map, IfOk, OnOk};
ghost use Rattle.std.specs.FinMap as finite;
ghost use Rattle.disk_calm.specs.Calm.{calm_folder_view};
ghost use Rattle.snap_exercise.specs.Generated as generated;

use disk_calm::CalmFolder;
use disk_model::{NoMemory, Path, PathFault, Stamp};
use rand_core::SeedableRng;
use rand_core::utils::fill_bytes_via_u64;
use rand_pcg::Pcg64;
use std::alloc::Global;

/// How many disks the array has.
pub(crate) const DISKS: u32 = 8;

/// How many files each disk has.
pub(crate) fn files_of(n: u32) -> u32
    ensures { result ≡ generated.files_of n }
{
    1 + n % 1000
}

/// How many bytes a file has.
pub(crate) fn size_of(column: u32, file: u32) -> usize
    requires column { column < 8 }
    requires file { file < 1000 }
    ensures { result ≡ generated.size_of column file }
{
    700 * ((file + column) % 4) as usize
}

// When a file was changed last.
fn stamp_of(column: u32, file: u32) -> Stamp
    requires { column < 8 }
    ensures { result ≡ generated.stamp_of column file }
{
    Stamp {
        seconds: i64::from(file),
        nanos: column + 1,
    }
}

fn digit(number: u32) -> u8
    ensures { result ≡ generated.digit number }
{
    b'0' + (number % 10) as u8
}

// The name of a file, which is a valid path.
#[tactic(auto, using(crate::proofs::PathLemmas::valid_name))]
fn path_of(alloc: Global, file: u32) -> Result<Path, NoMemory>
    ensures { IfOk result (λ path. path ≡ generated.path_of file) }
{
    let name = [
        b'f',
        digit(file / 1000),
        digit(file / 100),
        digit(file / 10),
        digit(file),
    ];
    let Ok(text) = str::from_utf8(&name) else {
        unreachable!();
    };
    match Path::new(alloc, text) {
        Ok(path) => Ok(path),
        Err(PathFault::Invalid) => unreachable!(),
        Err(PathFault::Memory) => Err(NoMemory),
    }
}

// Puts a file of these bytes into a folder. No path stands in its way: only memory refuses it.
fn put_file(
    alloc: Global,
    folder: &mut CalmFolder,
    column: u32,
    file: u32,
    bytes: &[u8],
) -> Result<(), NoMemory>
    requires { column < 8 }
    ensures { OnOk result (calm_folder_view folder.new ≡ record (calm_folder_view folder.old) {
      tree = finite.insert (calm_folder_view folder.old).tree (generated.path_of file) (generated.file_with column file bytes.now);
    }) }
{
    let path = path_of(alloc, file)?;
    if !folder.put(path, stamp_of(column, file), bytes)? {
        return Err(NoMemory);
    }
    Ok(())
}

// Changes the first byte, where there is one.
#[tactic(auto, unfolding(crate::specs::Generated::turned))]
fn turn(bytes: &mut [u8])
    ensures { bytes.new ≡ generated.turned bytes.old }
{
    if bytes.len() > 0 {
        bytes[0] ^= 1;
    }
}

// Fills with the generator's next bytes, of which the first is changed if so asked.
#[tactic(auto, unfolding(crate::specs::Generated::drawn))]
fn fill(rng: &mut Pcg64, turns: bool, bytes: &mut [u8])
    ensures bytes { bytes.new ≡ generated.turned_if turns (generated.drawn (length bytes.old) rng.old).0 }
    ensures rng { rng.new ≡ (generated.drawn (length bytes.old) rng.old).1 }
{
    fill_bytes_via_u64(rng, bytes);
    if turns {
        turn(bytes);
    }
}

// So many of the generator's next bytes, of which the first is changed if so asked.
fn draw(alloc: Global, rng: &mut Pcg64, turns: bool, size: usize) -> Result<Vec<u8>, NoMemory>
    ensures bytes { IfOk result (λ bytes. bytes.items ≡ generated.turned_if turns (generated.drawn size rng.old).0) }
    ensures rng { OnOk result (rng.new ≡ (generated.drawn size rng.old).1) }
{
    let mut bytes = vec![in alloc; 0u8; size]?;
    fill(rng, turns, bytes.as_mut_slice());
    Ok(bytes)
}

/// A folder whose files have the generator's next bytes, each with another first byte if so asked.
pub(crate) fn make_folder(
    alloc: Global,
    n: u32,
    column: u32,
    turns: bool,
    rng: &mut Pcg64,
) -> Result<CalmFolder, NoMemory>
    requires { column < 8 }
    ensures folder { IfOk result (λ folder. calm_folder_view folder
        ≡ generated.standing (generated.tree_from rng.old column turns (generated.files_of n))) }
    ensures rng { OnOk result (rng.new ≡ generated.behind (generated.sizes_in column (generated.files_of n)) rng.old) }
{
    let mut folder = CalmFolder::new(alloc, true);
    for file in 0..files_of(n) {
        let bytes = draw(alloc, rng, turns, size_of(column, file))?;
        put_file(alloc, &mut folder, column, file, bytes.as_slice())?;
    }
    Ok(folder)
}

/// The generator of a number.
#[tactic(auto, unfolding(crate::specs::Generated::generator))]
pub(crate) fn generator_of(n: u32) -> Pcg64
    ensures { result ≡ generated.generator n }
{
    Pcg64::seed_from_u64(u64::from(n))
}

/// The folders of the array.
pub(crate) fn make_folders(alloc: Global, n: u32) -> Result<Vec<CalmFolder>, NoMemory>
    ensures { IfOk result (λ folders. map calm_folder_view folders.items ≡ map generated.standing (generated.trees n)) }
{
    let mut rng = generator_of(n);
    let mut folders = Vec::new(alloc);
    for column in 0..DISKS {
        folders.push(make_folder(alloc, n, column, false, &mut rng)?)?;
    }
    Ok(folders)
}
