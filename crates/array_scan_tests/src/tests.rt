// What no clause says: worked layouts of one disk and of two, and that calls succeed where memory is ample.
mod array;
mod one_disk;
mod outcome;
mod synced;
mod two_disks;
