// Which stripes a scrub checks.
ghost use Rattle.std.specs.Prelude.{◌≡◌, ◌<◌, nat_lt, filter, length, IfOk};
ghost use Rattle.snap_scrub.specs.Plan.{candidates as candidates_of, is_candidate as is_candidate_of, plan_of};
ghost use Rattle.snap_scrub.specs.Order.{order_in, takes_before, EndsOldest};

use crate::order::{first_recent, info_of, share_of, stripe_order};
use array_setup::{ScrubPlan, ScrubWay};
use disk_model::NoMemory;
use file_table::{Mark, Table};
use std::alloc::Global;

/// The stripes that a scrub checks, ascending: of the synced stripes that hold a block those that `way` asks for, where
/// `now` is in seconds since 1970. It takes at most 8 bytes for a stripe of the table.
pub fn plan(alloc: Global, table: &Table, way: &ScrubWay, now: u64) -> Result<Vec<u32>, NoMemory>
    ensures { IfOk result (λ stripes. stripes.items ≡ plan_of table.now way.now now) }
{
    let mut stripes = candidates(alloc, table)?;
    let end = oldest_end(alloc, table, &stripes, way, now)?;
    stripes.retain(|stripe| takes(table, way.plan, end, *stripe));
    Ok(stripes)
}

// Whether a scrub may check a stripe.
fn is_candidate(table: &Table, stripe: u32) -> bool
    requires { stripe < length table.now.infos }
    ensures { result ≡ is_candidate_of table.now stripe }
{
    match table.info(stripe).mark {
        Mark::Synced => table.has_block(stripe),
        Mark::Pending => false,
    }
}

// The stripes that a scrub may check, ascending.
fn candidates(alloc: Global, table: &Table) -> Result<Vec<u32>, NoMemory>
    ensures { IfOk result (λ stripes. stripes.items ≡ candidates_of table.now) }
{
    let mut stripes = Vec::with_capacity(alloc, table.length() as usize)?;
    for stripe in 0..table.length() {
        if is_candidate(table, stripe) {
            stripes.push(stripe)?;
        }
    }
    Ok(stripes)
}

// Those of these stripes that come before a place in the order.
fn before(alloc: Global, table: &Table, stripes: &[u32], end: u128) -> Result<Vec<u32>, NoMemory>
    ensures { IfOk result (λ kept.
        kept.items ≡ filter (λ stripe. nat_lt (order_in table.now.infos stripe) end) stripes.now) }
{
    let mut kept = Vec::with_capacity(alloc, stripes.len())?;
    for stripe in stripes {
        if stripe_order(table, *stripe) < end {
            kept.push(*stripe)?;
        }
    }
    Ok(kept)
}

// The place in the order before which those stripes stand that a percentage takes for their age: the place of the first
// one that it leaves, or the first place that is too recent. 0 where no percentage is asked for.
fn oldest_end(
    alloc: Global,
    table: &Table,
    stripes: &[u32],
    way: &ScrubWay,
    now: u64,
) -> Result<u128, NoMemory>
    requires { stripes.now ≡ candidates_of table.now }
    ensures { IfOk result (EndsOldest table.now way.now now) }
{
    let ScrubPlan::Percent(percent) = way.plan else {
        return Ok(0);
    };
    let recent = first_recent(way.older, now);
    let mut old = before(alloc, table, stripes, recent)?;
    let share = share_of(percent, stripes.len());
    if share >= old.len() as u128 {
        return Ok(recent);
    }
    let (_, first, _) = old.select_nth_unstable_by_key(
        share as usize,
        |stripe| stripe_order(table, *stripe),
    );
    Ok(stripe_order(table, *first))
}

// Whether a scrub takes a stripe that it may check. Of a percentage those before `end` in the order are taken.
fn takes(table: &Table, plan: ScrubPlan, end: u128, stripe: u32) -> bool
    ensures { result ≡ takes_before table.now plan end stripe }
{
    let info = info_of(table, stripe);
    match plan {
        ScrubPlan::Bad => info.bad,
        ScrubPlan::New => info.fresh,
        ScrubPlan::Full => true,
        ScrubPlan::Percent(_) => info.bad || stripe_order(table, stripe) < end,
    }
}
