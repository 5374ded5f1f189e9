// Runs over files that change.
mod cases;
mod checking;
mod disks;
mod fixing;
mod scrubbing;
mod syncing;
