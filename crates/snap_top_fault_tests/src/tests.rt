// Syncs over objects that fail, that are stopped, over levels in parts, and by several readers.
mod again;
mod calls;
mod faults;
mod fixes;
mod parts;
mod readers;
mod stopping;
mod stops;
mod three_parts;
