// How large a table may be, in one place for all crates.

/// The most data disks. With one more, an entry of the matrix of the parities would be divided by 0.
pub const MOST_COLUMNS: u32 = 251;

/// The most parity files.
pub const MOST_LEVELS: u32 = 6;

/// The most files of all columns.
pub const MOST_RECORDS: u32 = 16_777_216;

/// The most blocks of all columns, and the most stripes.
pub const MOST_BLOCKS: u32 = 67_108_864;

/// The least block size, in bytes. Each block size is a multiple of it.
pub const LEAST_BLOCK_SIZE: u32 = 1024;

/// The greatest block size, in bytes.
pub const MOST_BLOCK_SIZE: u32 = 4_194_304;
