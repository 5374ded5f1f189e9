// Whole runs over real files, and what the program asks of the system besides.
mod folder;
mod restoring;
mod running;
mod starting;
