// Levels of several parts over a vault in memory.
mod calls;
mod comes_back;
mod failing;
mod growth;
mod random;
mod rows;
mod stopping;
mod unsynced;
mod vaults;
