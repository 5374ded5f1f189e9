// What objects in memory hold and give, and which of their calls fail.
mod calm;
mod folder;
mod gate;
mod image;
mod opener;
mod play;
mod scripted;
mod sink;
mod steps;
mod vault;
