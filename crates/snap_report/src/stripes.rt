// What is known of the stripes of a table together.
ghost use Rattle.std.specs.Prelude.{◌≡◌, ◌+◌, ◌<◌, ◌≤◌, ◌^◌, length, cond, Option};
ghost use Rattle.file_table.specs.declared.info.Info.{Info};
ghost use Rattle.file_table.specs.Table.{is_synced_mark};
ghost use Rattle.snap_report.specs.StatusText.{is_pending_mark, synced_in, pending_in, fresh_in, bad_in, check_at, lesser, oldest as oldest_of};

use file_table::{Info, Mark, Table};

/// How many stripes are synced, pending, not scrubbed since their sync, and known to be bad.
#[derive(Clone, Copy)]
pub(crate) struct Marks {
    pub synced: u64,
    pub pending: u64,
    pub fresh: u64,
    pub bad: u64,
}

impl Marks {
    // With one stripe more.
    fn with(self, info: Info) -> Marks
        requires synced { self.synced < 2 ^ 32 }
        requires pending { self.pending < 2 ^ 32 }
        requires fresh { self.fresh < 2 ^ 32 }
        requires bad { self.bad < 2 ^ 32 }
        ensures synced { result.synced ≡ self.synced + cond (is_synced_mark info.mark) 1 0 }
        ensures pending { result.pending ≡ self.pending + cond (is_pending_mark info.mark) 1 0 }
        ensures fresh { result.fresh ≡ self.fresh + cond info.fresh 1 0 }
        ensures bad { result.bad ≡ self.bad + cond info.bad 1 0 }
    {
        let is_synced = match info.mark {
            Mark::Synced => true,
            Mark::Pending => false,
        };
        Marks {
            synced: self.synced + u64::from(is_synced),
            pending: self.pending + u64::from(!is_synced),
            fresh: self.fresh + u64::from(info.fresh),
            bad: self.bad + u64::from(info.bad),
        }
    }
}

pub(crate) fn marks_of(table: &Table) -> Marks
    ensures synced { result.synced ≡ synced_in table.now.infos }
    ensures pending { result.pending ≡ pending_in table.now.infos }
    ensures fresh { result.fresh ≡ fresh_in table.now.infos }
    ensures bad { result.bad ≡ bad_in table.now.infos }
{
    let mut marks = Marks {
        synced: 0,
        pending: 0,
        fresh: 0,
        bad: 0,
    };
    for stripe in 0..table.length() {
        marks = marks.with(table.info(stripe));
    }
    marks
}

// The last check of a stripe, if it is synced and holds a block.
fn last_check(table: &Table, stripe: u32) -> Option<u64>
    requires { stripe < length table.now.infos }
    ensures { result ≡ check_at table.now stripe }
{
    let info = table.info(stripe);
    match info.mark {
        Mark::Synced => table.has_block(stripe).then_some(info.last),
        Mark::Pending => None,
    }
}

// The lesser of two numbers, as far as they are there.
fn lesser_of(a: Option<u64>, b: Option<u64>) -> Option<u64>
    ensures { result ≡ lesser a b }
{
    match (a, b) {
        (Some(a), Some(b)) => Some(a.min(b)),
        (Some(a), None) => Some(a),
        (None, b) => b,
    }
}

/// The least last check of the synced stripes that hold a block.
pub(crate) fn oldest(table: &Table) -> Option<u64>
    ensures { result ≡ oldest_of table.now }
{
    let mut oldest = None;
    for stripe in 0..table.length() {
        oldest = lesser_of(oldest, last_check(table, stripe));
    }
    oldest
}
