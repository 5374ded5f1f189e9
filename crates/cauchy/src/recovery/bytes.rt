//! The bytes of lost columns, one byte of each block at a time.

ghost use Rattle.std.specs.Prelude.{◌≡◌, ◌+◌, ◌*◌, ◌<◌, ◌≤◌, ℕ, length, slice_index};
ghost use Rattle.arrayvec.specs.ArrayVec.{array_vec_len};
ghost use Rattle.cauchy.specs.Elimination.{entries, HasShape};
ghost use Rattle.cauchy.specs.Solving.{recovered, RecoversWithin};
ghost use Rattle.cauchy.specs.System.{byte_in};

use crate::elimination::{Matrix, Row, coefficient};
use gf256::mul;

/// Byte `p` of each block.
fn bytes_at(work: &[u8], block: usize, p: usize, count: usize) -> Row
    requires count { count ≤ 6 }
    requires size { length work.now ≡ count * block }
    requires place { p < block }
    ensures long { array_vec_len result ≡ count }
    ensures made { (i : ℕ) → i < count → slice_index result.items i ≡ byte_in block work.now p i }
{
    let mut bytes = Row::new();
    for i in 0..count {
        bytes.push(work[i * block + p]);
    }
    bytes
}

/// The byte of column `j`, from the bytes of the levels.
fn recovered_byte(inverse: &Matrix, given: &Row, j: usize) -> u8
    requires shape { HasShape (array_vec_len given.now) (array_vec_len given.now) inverse.now }
    requires column { j < array_vec_len given.now }
    ensures { result
        ≡ recovered (entries inverse.now) (array_vec_len given.now) (slice_index given.now.items) j }
{
    let mut sum = 0;
    for i in 0..given.len() {
        sum ^= mul(coefficient(inverse, i, j), given[i]);
    }
    sum
}

/// Puts the bytes of the columns in place of those of the levels, at byte `p` of each block.
fn recover_at(inverse: &Matrix, block: usize, p: usize, count: usize, work: &mut [u8])
    requires count { count ≤ 6 }
    requires shape { HasShape count count inverse.now }
    requires size { length work.old ≡ count * block }
    requires place { p < block }
    ensures { RecoversWithin p (p + 1) count block count (entries inverse.now) work.old work.new }
{
    let given = bytes_at(work, block, p, count);
    for j in 0..count {
        work[j * block + p] = recovered_byte(inverse, &given, j);
    }
}

/// Recovers the bytes of each block from `start` on.
pub fn recover_bytes(inverse: &Matrix, start: usize, block: usize, count: usize, work: &mut [u8])
    requires count { count ≤ 6 }
    requires shape { HasShape count count inverse.now }
    requires size { length work.old ≡ count * block }
    requires start { start ≤ block }
    ensures { RecoversWithin start block count block count (entries inverse.now) work.old work.new }
{
    for p in start..block {
        recover_at(inverse, block, p, count, work);
    }
}
