// The stripes of a fix, window by window.
ghost use Rattle.std.specs.Prelude.{◌≡◌, ◌++◌, ◌<◌, IfOk, IfErr, List, length, map};
ghost use Rattle.snap_fix.specs.Fixing.{AreTotals, SceneFits};
ghost use Rattle.snap_fix.specs.FixRun.{AreAscending, BreaksStripes, CanFixStripes, FixesStripes};
ghost use Rattle.snap_fix.specs.Handed.{beside, BreaksShown, BreaksStretch, CanExamineStretch, FixesShown, FixesStretch};
ghost use Rattle.snap_fix.specs.Handed.{IsUnderway, ShowsIn, scene_at};
ghost use Rattle.snap_fix.specs.Mended.{Mended};
ghost use Rattle.stripe_examiner.specs.Facts.{StripeFacts};
ghost use Rattle.repair_scope.specs.Plan.{FixPlan, seen};
ghost use Rattle.stripe_examiner.specs.Room.{IsRoomFor};
ghost use Rattle.snap_fix.specs.Underway.{FixUnderway};

use crate::fixing::{Totals, fix_stripe};
use crate::plan::{Examined, Progress, Shown, Stretch, Workspace};
use disk_model::{Folder, Sink, Vault};
use snap_report::{Lines, Report, RunFault};
use std::thread::Threads;
use stripe_examiner::{Counts, Spare, Survey, examine_window};

impl Totals {
    /// Nothing was found or written.
    pub const NONE: Totals = Totals {
        counts: Counts::NONE,
        blocks: 0,
        parities: 0,
    };

    /// Those of some stripes, and then of others.
    pub fn and(self, more: Totals) -> Totals
        ensures { (plan : FixPlan) (stripes others : List Mended) →
            AreTotals plan stripes self → AreTotals plan others more → AreTotals plan (stripes ++ others) result }
    {
        Totals {
            counts: self.counts.and(more.counts),
            blocks: self.blocks.saturating_add(more.blocks),
            parities: self.parities.saturating_add(more.parities),
        }
    }
}

// Tells what is found in stripes that were examined, and writes what is damaged.
fn fix_into<F: Folder, V: Vault, W: Sink>(
    stretch: &Stretch<'_, '_>,
    shown: &Shown<'_, '_>,
    block: &mut [u8],
    progress: &mut Progress,
    folders: &mut [F],
    vault: &mut V,
    lines: &mut Lines<'_, W>,
    reports: &mut Vec<Box<dyn Report>>,
) -> Result<Totals, RunFault>
    requires shown { (all : List StripeFacts) × ShowsIn all stretch.now shown.now }
    requires block { length block.old ≡ stretch.now.plan.table.now.shape.block_size }
    requires ascending { AreAscending stretch.now.stripes.now }
    requires fits { SceneFits (seen stretch.now.plan)
        (beside F.view V.view progress.old folders.old vault.old lines.old reports.old.items) }
    requires underway { FixUnderway (seen stretch.now.plan) (map F.view folders.old)
        progress.old.starts progress.old.states }
    ensures fixed { IfOk result (FixesShown W.view standing stands stretch.now shown.now
        (beside F.view V.view progress.old folders.old vault.old lines.old reports.old.items)
        (beside F.view V.view progress.new folders.new vault.new lines.new reports.new.items)) }
    ensures broke { IfErr result (BreaksShown W.view standing stands stretch.now shown.now
        (beside F.view V.view progress.old folders.old vault.old lines.old reports.old.items)
        (beside F.view V.view progress.new folders.new vault.new lines.new reports.new.items)) }
{
    let (plan, stripes) = (&stretch.plan, stretch.stripes);
    let (window, rooms) = (shown.window, shown.rooms);
    let mut totals = Totals::NONE;
    for i in 0..window.count() {
        let one = Examined {
            stripe: stripes[i as usize],
            slot: i,
            window,
            own: &rooms[i as usize],
        };
        let more = fix_stripe(plan, &one, block, progress, folders, vault, lines, reports)?;
        totals = totals.and(more);
    }
    Ok(totals)
}

// Examines the stripes of a window, and writes what is damaged of them.
fn fix_window<R: Threads + Sync, F: Folder, V: Vault, P: Spare, W: Sink>(
    rt: &R,
    stretch: &Stretch<'_, '_>,
    space: &mut Workspace,
    folders: &mut [F],
    vault: &mut V,
    spare: &mut P,
    lines: &mut Lines<'_, W>,
    reports: &mut Vec<Box<dyn Report>>,
) -> Result<Totals, RunFault>
    requires can { CanExamineStretch stretch.now space.old }
    requires stripes { (0 < length stretch.now.stripes.now) × AreAscending stretch.now.stripes.now }
    requires fits { SceneFits (seen stretch.now.plan)
        (scene_at F.view V.view P.holding space.old folders.old vault.old spare.old lines.old reports.old.items) }
    requires underway { IsUnderway stretch.now space.old (map F.view folders.old) }
    ensures room { IfOk result (λ _. IsRoomFor stretch.now.plan.table.now space.new.room) }
    ensures fixed { IfOk result (FixesStretch W.view standing stands stretch.now space.old
        (scene_at F.view V.view P.holding space.old folders.old vault.old spare.old lines.old reports.old.items)
        (scene_at F.view V.view P.holding space.new folders.new vault.new spare.new lines.new reports.new.items)) }
    ensures broke { IfErr result (BreaksStretch W.view standing stands stretch.now space.old
        (scene_at F.view V.view P.holding space.old folders.old vault.old spare.old lines.old reports.old.items)
        (scene_at F.view V.view P.holding space.new folders.new vault.new spare.new lines.new reports.new.items)) }
{
    let survey = Survey {
        plan: stretch.plan,
        stripes: stretch.stripes,
        threads: space.readers,
    };
    let (room, progress) = (&mut space.room, &mut space.progress);
    let starts = &progress.starts;
    examine_window(rt, &survey, starts, room, folders, vault, spare);
    let window = &room.window;
    let rooms = &room.stripes;
    let block = &mut room.block;
    let shown = Shown { window, rooms };
    fix_into(
        stretch, &shown, block, progress, folders, vault, lines, reports,
    )
}

/// Looks at all stripes that a fix is for, and writes what is damaged: a window of them is examined, and then each is written anew.
pub(crate) fn fix_stripes<R: Threads + Sync, F: Folder, V: Vault, P: Spare, W: Sink>(
    rt: &R,
    stretch: &Stretch<'_, '_>,
    space: &mut Workspace,
    folders: &mut [F],
    vault: &mut V,
    spare: &mut P,
    lines: &mut Lines<'_, W>,
    reports: &mut Vec<Box<dyn Report>>,
) -> Result<Totals, RunFault>
    requires can { CanFixStripes (seen stretch.now.plan) stretch.now.stripes.now space.old.room }
    requires fits { SceneFits (seen stretch.now.plan)
        (scene_at F.view V.view P.holding space.old folders.old vault.old spare.old lines.old reports.old.items) }
    requires underway { IsUnderway stretch.now space.old (map F.view folders.old) }
    ensures fixed { IfOk result (FixesStripes W.view standing stands (seen stretch.now.plan) stretch.now.stripes.now
        (scene_at F.view V.view P.holding space.old folders.old vault.old spare.old lines.old reports.old.items)
        (scene_at F.view V.view P.holding space.new folders.new vault.new spare.new lines.new reports.new.items)) }
    ensures broke { IfErr result (BreaksStripes W.view standing stands (seen stretch.now.plan) stretch.now.stripes.now
        (scene_at F.view V.view P.holding space.old folders.old vault.old spare.old lines.old reports.old.items)
        (scene_at F.view V.view P.holding space.new folders.new vault.new spare.new lines.new reports.new.items)) }
{
    let (plan, stripes) = (stretch.plan, stretch.stripes);
    let mut totals = Totals::NONE;
    let mut done = 0;
    while done < stripes.len() {
        let count = (stripes.len() - done).min(space.room.window.room() as usize);
        let next = Stretch {
            plan,
            stripes: &stripes[done..done + count],
        };
        let more = fix_window(rt, &next, space, folders, vault, spare, lines, reports)?;
        totals = totals.and(more);
        done += count;
    }
    Ok(totals)
}
