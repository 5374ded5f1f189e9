// Scrubs over objects in memory.
mod arrays;
mod contents;
mod failing;
mod findings;
mod planned;
mod refused;
mod reports;
mod stopped;
mod story;
