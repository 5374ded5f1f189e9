// What comes before anything is read.
ghost use Rattle.std.specs.Prelude.{◌≡◌, IfOk, length};
ghost use Rattle.snap_scrub.specs.Plan.{plan_of};
ghost use Rattle.snap_scrub.specs.Room.{IsEnoughFor, IsWorkFor};

use crate::planning::plan;
use crate::room::Room;
use crate::verdict::Verdict;
use array_setup::ScrubWay;
use disk_model::NoMemory;
use file_table::Table;
use std::alloc::Global;

/// The stripes that a scrub checks, ascending, what it makes of each, all memory that it needs, and by how many readers at most.
#[derive(Drop)]
pub(crate) struct Work {
    pub stripes: Vec<u32>,
    pub verdicts: Vec<Verdict>,
    pub room: Room,
    pub readers: u32,
}

/// Plans a scrub, and takes all memory.
pub(crate) fn begin(
    alloc: Global,
    table: &Table,
    way: &ScrubWay,
    now: u64,
    readers: u32,
) -> Result<Work, NoMemory>
    ensures plan { IfOk result (λ work. work.stripes.items ≡ plan_of table.now way.now now) }
    ensures work { IfOk result (IsWorkFor table.now) }
    ensures enough { IfOk result (λ work. IsEnoughFor (length work.stripes.items) work.room) }
{
    let stripes = plan(alloc, table, way, now)?;
    let verdicts = vec![in alloc; Verdict::Changed; stripes.len()]?;
    let room = Room::make(alloc, table, stripes.len())?;
    Ok(Work {
        stripes,
        verdicts,
        room,
        readers,
    })
}
