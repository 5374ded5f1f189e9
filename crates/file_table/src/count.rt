// How many blocks hold a file.
ghost use Rattle.std.specs.Prelude.{◌≡◌, ◌<◌};
ghost use Rattle.file_table.specs.Table.{block_count};

/// How many blocks of a size hold this many bytes.
pub fn blocks_for(block_size: u32, size: u64) -> u64
    requires { 0 < block_size }
    ensures { result ≡ block_count block_size size }
{
    let block = u64::from(block_size);
    if size % block == 0 {
        size / block
    } else {
        size / block + 1
    }
}
