// Checks and fixes over objects in memory.
mod arrays;
mod damaged;
mod failing;
mod fixed;
mod obstacles;
mod reports;
mod selected;
mod stopped;
mod torn;
