// The order in which a scrub comes to stripes: by last check, and where that is the same by number.
ghost use Rattle.std.specs.Prelude.{◌≡◌, ◌+◌, ◌*◌, ◌^◌};
ghost use Rattle.file_table.specs.Table.{info_at};
ghost use Rattle.snap_scrub.specs.Plan.{share_of as share_in};
ghost use Rattle.snap_scrub.specs.Order.{order_in, recent_in};

use file_table::{Info, Mark, Table};

// How many seconds a day has.
const DAY: u128 = 86_400;

// What is known of a stripe that is not there.
const NO_INFO: Info = Info {
    mark: Mark::Pending,
    last: 0,
    bad: false,
    fresh: false,
};

/// What is known of a stripe; nothing where it is not there.
pub(crate) fn info_of(table: &Table, stripe: u32) -> Info
    ensures { result ≡ info_at table.now.infos stripe }
{
    if stripe < table.length() {
        table.info(stripe)
    } else {
        NO_INFO
    }
}

// The place that a last check and a number have in the order.
fn order_of(last: u64, stripe: u32) -> u128
    ensures { result ≡ last * 2 ^ 32 + stripe }
{
    (u128::from(last) << 32) + u128::from(stripe)
}

/// The place of a stripe in the order.
pub(crate) fn stripe_order(table: &Table, stripe: u32) -> u128
    ensures { result ≡ order_in table.now.infos stripe }
{
    order_of(info_of(table, stripe).last, stripe)
}

/// The first place that is too recent: last checks of so many days ago or more come before it.
pub(crate) fn first_recent(days: u32, now: u64) -> u128
    ensures { result ≡ recent_in days now }
{
    let end = u128::from(now) + 1;
    end.saturating_sub(DAY * u128::from(days)) << 32
}

/// Of so many stripes so many percent, rounded up.
pub(crate) fn share_of(percent: u32, count: usize) -> u128
    ensures { result ≡ share_in percent count }
{
    (count as u128 * u128::from(percent)).div_ceil(100)
}
