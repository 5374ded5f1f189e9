//! What a run read and printed that broke off. The calls do nothing: their contracts are laws.
ghost use Rattle.std.specs.Prelude.{◌≡◌, ◌++◌, List};
ghost use Rattle.snap_top.specs.Alike.{HoldAlike, SeenAlike, seen_by};
ghost use Rattle.snap_top.specs.Unbroken.{NothingRose};
ghost use Rattle.snap_top.specs.BrokeOff.{BrokeOff, EndedEarly, FixBrokeOff, PrintsFront, ReadsRight, RoseOnce, RoseOnceBy, ScrubBrokeOff, SyncBrokeOff, answered, seen_so_far};
ghost use Rattle.snap_top.specs.FixedAlike.{KeepStampsAlike};
ghost use Rattle.snap_top.specs.LeftAlike.{AskSame};
ghost use Rattle.snap_top.specs.InPart.{EndsInPart};
ghost use Rattle.snap_top.specs.Stands.{TellsAll};
ghost use Rattle.snap_top.specs.RunOf.{end_of, entry_of, RunOf};
ghost use Rattle.snap_top.specs.Restoring.{EndsFixed, events_in};
ghost use Rattle.snap_top.specs.Scrubbed.{EndsScrubbed, events_scrubbed};
ghost use Rattle.stripe_findings.specs.Findings.{events_of};
ghost use Rattle.stripe_findings.specs.Reading.{StripeReading};

use content_file::laws::one_table_has_a_spelling;
use disk_model::{Folder, Opener, Sink, Vault};
use snap_sync::laws::a_sync_is_a_part_sync;
use stripe_examiner::laws::what_is_read_determines_what_is_found;

/// What a run told and printed that broke off is a front of what a run tells and prints over the same array in which nothing
/// failed but its output. Both were asked for the same, and their openers tell all and hold the same. Of the run that broke off, no
/// count of faults of a folder or of the vault rose but that of what broke it off, and that by one at most: so that call failed alone,
/// and no reading did. Scrubs begin at one moment, and the folders of both fixes keep the same stamps. It is enough that by the account of
/// a fix no reading of a copy failed, nor one of what it looked at. Whatever readings failed, it is enough of a sync that the other one
/// read the same of its stripes first, in the same layout; of a scrub that it began with the same table and read the same; and of a fix
/// that the other one was of the same array, with folders that keep the same stamps, was asked for the same of disks with the same names,
/// began with the same table, listed the same, and saw the same blocks of its stripes first. A run that ended early printed nothing: it
/// was refused, or it only read and did not come to its end.
pub fn a_broken_run_prints_a_front<O: Opener, F: Folder, V: Vault, W: Sink>()
    ensures syncs { (run again : RunOf O F V W)
        (other : EndsInPart (entry_of O.view W.view again) (end_of O.view F.view V.view W.view again) again.status)
        (broke : BrokeOff (entry_of O.view W.view run) (end_of O.view F.view V.view W.view run)) →
        HoldAlike (entry_of O.view W.view run) (entry_of O.view W.view again) →
        AskSame (entry_of O.view W.view run) (entry_of O.view W.view again) →
        RoseOnceBy broke.fault (entry_of O.view W.view run) (end_of O.view F.view V.view W.view run) →
        NothingRose (entry_of O.view W.view again) (end_of O.view F.view V.view W.view again) →
        PrintsFront broke.told (events_of other.run.plan.start other.run.readings) (entry_of O.view W.view run)
        (entry_of O.view W.view again) (end_of O.view F.view V.view W.view run) (end_of O.view F.view V.view W.view again) again.status }
    ensures scrubs { (run again : RunOf O F V W)
        (other : EndsScrubbed (entry_of O.view W.view again) (end_of O.view F.view V.view W.view again) again.status)
        (broke : BrokeOff (entry_of O.view W.view run) (end_of O.view F.view V.view W.view run)) →
        HoldAlike (entry_of O.view W.view run) (entry_of O.view W.view again) →
        AskSame (entry_of O.view W.view run) (entry_of O.view W.view again) → run.moment ≡ again.moment →
        RoseOnceBy broke.fault (entry_of O.view W.view run) (end_of O.view F.view V.view W.view run) →
        NothingRose (entry_of O.view W.view again) (end_of O.view F.view V.view W.view again) →
        PrintsFront broke.told (events_scrubbed other.run) (entry_of O.view W.view run) (entry_of O.view W.view again)
        (end_of O.view F.view V.view W.view run) (end_of O.view F.view V.view W.view again) again.status }
    ensures fixes { (run again : RunOf O F V W)
        (other : EndsFixed (entry_of O.view W.view again) (end_of O.view F.view V.view W.view again) again.status)
        (broke : BrokeOff (entry_of O.view W.view run) (end_of O.view F.view V.view W.view run)) →
        HoldAlike (entry_of O.view W.view run) (entry_of O.view W.view again) →
        AskSame (entry_of O.view W.view run) (entry_of O.view W.view again) →
        KeepStampsAlike (entry_of O.view W.view run) (entry_of O.view W.view again) →
        RoseOnceBy broke.fault (entry_of O.view W.view run) (end_of O.view F.view V.view W.view run) →
        NothingRose (entry_of O.view W.view again) (end_of O.view F.view V.view W.view again) →
        PrintsFront broke.told (events_in other.run other.finishes) (entry_of O.view W.view run) (entry_of O.view W.view again)
        (end_of O.view F.view V.view W.view run) (end_of O.view F.view V.view W.view again) again.status }
    ensures read_syncs { (run again : RunOf O F V W) (more : List StripeReading)
        (other : EndsInPart (entry_of O.view W.view again) (end_of O.view F.view V.view W.view again) again.status)
        (off : SyncBrokeOff (entry_of O.view W.view run) (end_of O.view F.view V.view W.view run)) →
        off.sync.course.start ≡ other.run.plan.start → other.run.readings ≡ off.sync.course.readings ++ more →
        PrintsFront off.broke.told (events_of other.run.plan.start other.run.readings) (entry_of O.view W.view run)
        (entry_of O.view W.view again) (end_of O.view F.view V.view W.view run) (end_of O.view F.view V.view W.view again) again.status }
    ensures read_scrubs { (run again : RunOf O F V W)
        (other : EndsScrubbed (entry_of O.view W.view again) (end_of O.view F.view V.view W.view again) again.status)
        (off : ScrubBrokeOff (entry_of O.view W.view run) (end_of O.view F.view V.view W.view run)) →
        (answered off.broke).table ≡ other.run.loaded → off.scrub.course.readings ≡ other.run.readings →
        PrintsFront off.broke.told (events_scrubbed other.run) (entry_of O.view W.view run) (entry_of O.view W.view again)
        (end_of O.view F.view V.view W.view run) (end_of O.view F.view V.view W.view again) again.status }
    ensures read_fixes { (run again : RunOf O F V W)
        (other : EndsFixed (entry_of O.view W.view again) (end_of O.view F.view V.view W.view again) again.status)
        (off : FixBrokeOff (entry_of O.view W.view run) (end_of O.view F.view V.view W.view run)) → ReadsRight off →
        HoldAlike (entry_of O.view W.view run) (entry_of O.view W.view again) →
        AskSame (entry_of O.view W.view run) (entry_of O.view W.view again) →
        KeepStampsAlike (entry_of O.view W.view run) (entry_of O.view W.view again) →
        NothingRose (entry_of O.view W.view again) (end_of O.view F.view V.view W.view again) →
        PrintsFront off.broke.told (events_in other.run other.finishes) (entry_of O.view W.view run) (entry_of O.view W.view again)
        (end_of O.view F.view V.view W.view run) (end_of O.view F.view V.view W.view again) again.status }
    ensures seen_fixes { (run again : RunOf O F V W)
        (other : EndsFixed (entry_of O.view W.view again) (end_of O.view F.view V.view W.view again) again.status)
        (off : FixBrokeOff (entry_of O.view W.view run) (end_of O.view F.view V.view W.view run)) →
        HoldAlike (entry_of O.view W.view run) (entry_of O.view W.view again) →
        KeepStampsAlike (entry_of O.view W.view run) (entry_of O.view W.view again) →
        SeenAlike (seen_so_far off) (seen_by other.run) →
        PrintsFront off.broke.told (events_in other.run other.finishes) (entry_of O.view W.view run) (entry_of O.view W.view again)
        (end_of O.view F.view V.view W.view run) (end_of O.view F.view V.view W.view again) again.status }
    ensures early { (run : RunOf O F V W) →
        EndedEarly (entry_of O.view W.view run) (end_of O.view F.view V.view W.view run) →
        (end_of O.view F.view V.view W.view run).after.out ≡ (entry_of O.view W.view run).out }
{
    one_table_has_a_spelling();
    a_sync_is_a_part_sync();
    what_is_read_determines_what_is_found();
}

/// A sync that broke off read what one reads first over the same array in which nothing failed but its output, in the same
/// layout. A scrub that broke off read what such a one reads, of the same table. A fix that broke off once the folders were
/// listed saw what such a one sees first. Both were asked for the same, and their openers tell all and hold the same. Of the one
/// that broke off no count of faults rose but that of what broke it off, and that by one at most: so that call failed alone,
/// and no reading did. Scrubs begin at one moment. This is what the clauses `read_syncs`, `read_scrubs` and `seen_fixes` of
/// `a_broken_run_prints_a_front` suppose, and `read_fixes` of how the first one read.
pub fn a_broken_run_reads_the_same_first<O: Opener, F: Folder, V: Vault, W: Sink>()
    ensures syncs { (run again : RunOf O F V W)
        (other : EndsInPart (entry_of O.view W.view again) (end_of O.view F.view V.view W.view again) again.status)
        (off : SyncBrokeOff (entry_of O.view W.view run) (end_of O.view F.view V.view W.view run)) →
        HoldAlike (entry_of O.view W.view run) (entry_of O.view W.view again) →
        AskSame (entry_of O.view W.view run) (entry_of O.view W.view again) →
        RoseOnce (entry_of O.view W.view run) (end_of O.view F.view V.view W.view run) →
        NothingRose (entry_of O.view W.view again) (end_of O.view F.view V.view W.view again) →
        (off.sync.course.start ≡ other.run.plan.start)
        × ((more : List StripeReading) × (other.run.readings ≡ off.sync.course.readings ++ more)) }
    ensures scrubs { (run again : RunOf O F V W)
        (other : EndsScrubbed (entry_of O.view W.view again) (end_of O.view F.view V.view W.view again) again.status)
        (off : ScrubBrokeOff (entry_of O.view W.view run) (end_of O.view F.view V.view W.view run)) →
        HoldAlike (entry_of O.view W.view run) (entry_of O.view W.view again) →
        AskSame (entry_of O.view W.view run) (entry_of O.view W.view again) → run.moment ≡ again.moment →
        RoseOnce (entry_of O.view W.view run) (end_of O.view F.view V.view W.view run) →
        NothingRose (entry_of O.view W.view again) (end_of O.view F.view V.view W.view again) →
        ((answered off.broke).table ≡ other.run.loaded) × (off.scrub.course.readings ≡ other.run.readings) }
    ensures fixes { (run again : RunOf O F V W)
        (other : EndsFixed (entry_of O.view W.view again) (end_of O.view F.view V.view W.view again) again.status)
        (off : FixBrokeOff (entry_of O.view W.view run) (end_of O.view F.view V.view W.view run)) →
        HoldAlike (entry_of O.view W.view run) (entry_of O.view W.view again) →
        AskSame (entry_of O.view W.view run) (entry_of O.view W.view again) →
        RoseOnceBy off.broke.fault (entry_of O.view W.view run) (end_of O.view F.view V.view W.view run) →
        NothingRose (entry_of O.view W.view again) (end_of O.view F.view V.view W.view again) →
        SeenAlike (seen_so_far off) (seen_by other.run) }
    ensures reads_right { (run : RunOf O F V W)
        (off : FixBrokeOff (entry_of O.view W.view run) (end_of O.view F.view V.view W.view run)) →
        TellsAll (entry_of O.view W.view run) →
        RoseOnceBy off.broke.fault (entry_of O.view W.view run) (end_of O.view F.view V.view W.view run) → ReadsRight off }
{
    one_table_has_a_spelling();
    a_sync_is_a_part_sync();
    what_is_read_determines_what_is_found();
}
