// What a run is asked for, the stripes that a fix looks at, how far it is, and stripes of a window that were examined: each as one value.
use array_setup::{Selection, Setup};
use file_restorer::States;
use file_table::Table;
use repair_scope::{Mode, Plan};
use stripe_examiner::{Room, StripeRoom};
use stripe_reader::{Starts, Window};

/// What a run is asked for: what to do, for which records of which disks, by which table, and by how many readers at most.
#[derive(Clone, Copy)]
pub(crate) struct Task<'a> {
    pub mode: Mode,
    pub selection: &'a Selection,
    pub setup: &'a Setup,
    pub table: &'a Table,
    pub readers: u32,
}

/// Stripes that a fix looks at, and the plan that it goes by.
#[derive(Clone, Copy)]
pub(crate) struct Stretch<'p, 's> {
    pub plan: Plan<'p>,
    pub stripes: &'s [u32],
}

/// How far a fix is: where the files of the records stand, what was done to them, and which levels were written.
#[derive(Drop)]
pub(crate) struct Progress {
    pub starts: Starts,
    pub states: States,
    pub written: Vec<bool>,
}

/// What a fix works in: the memory for a window, how far the fix is, and by how many readers at most.
#[derive(Drop)]
pub(crate) struct Workspace {
    pub room: Room,
    pub progress: Progress,
    pub readers: u32,
}

/// What was read and found of stripes that were examined.
#[derive(Clone, Copy)]
pub(crate) struct Shown<'w, 'r> {
    pub window: &'w Window,
    pub rooms: &'r [StripeRoom],
}

/// A stripe of a window that was examined: its number, its slot in the window, and what is known of it.
#[derive(Drop)]
pub(crate) struct Examined<'a> {
    pub stripe: u32,
    pub slot: u32,
    pub window: &'a Window,
    pub own: &'a StripeRoom,
}
