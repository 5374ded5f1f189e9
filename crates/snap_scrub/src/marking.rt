// The stripes of a scrub are marked in the table.
ghost use Rattle.std.specs.Prelude.{◌≡◌, ◌<◌, All, length};
ghost use Rattle.file_table.specs.Table.{info_at};
ghost use Rattle.file_table.specs.declared.info.Mark.TheVariants.{Synced};
ghost use Rattle.snap_scrub.specs.Marks.{info_by, with_marks};

use crate::verdict::Verdict;
use file_table::{Info, Mark, Table};

// What is known of a stripe after a verdict.
fn info_after(info: Info, verdict: Verdict, now: u64) -> Info
    ensures { result ≡ info_by now verdict info }
{
    match verdict {
        Verdict::Right => Info {
            mark: Mark::Synced,
            last: now,
            bad: false,
            fresh: false,
        },
        Verdict::Wrong => Info { bad: true, ..info },
        Verdict::Changed => info,
    }
}

/// Marks synced stripes by the verdict on each.
pub(crate) fn mark_all(table: &mut Table, stripes: &[u32], verdicts: &[Verdict], now: u64)
    requires within { All (λ stripe. stripe < length table.old.infos) stripes.now }
    requires synced { All (λ stripe. (info_at table.old.infos stripe).mark ≡ Synced) stripes.now }
    requires count { length verdicts.now ≡ length stripes.now }
    ensures { table.new ≡ with_marks now table.old stripes.now verdicts.now }
{
    // Each block of a synced stripe has its hash.
    let _count = table.length();
    for (i, stripe) in stripes.iter().enumerate() {
        let info = info_after(table.info(*stripe), verdicts[i], now);
        table.set_info(*stripe, info);
    }
}
