// Syncs over objects in memory.
mod changing;
mod copies;
mod first;
mod refusals;
mod reports;
mod second;
