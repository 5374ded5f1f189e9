// Whole runs over objects in memory.
mod configuration;
mod contents;
mod damage;
mod duplicates;
mod exercise;
mod faults;
mod matching;
mod printing;
mod usual;
mod words;
