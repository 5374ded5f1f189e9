// Which levels of a stripe are wrong.
ghost use Rattle.std.specs.Prelude.{◌≡◌, ◌*◌, ◌<◌, ◌≤◌, length, take, Some, None, if◌then◌else◌, true};
ghost use Rattle.parity_writer.specs.LevelsValue.{level_at};
ghost use Rattle.parity_writer.specs.Parity.{Row};
ghost use Rattle.repair_scope.specs.Plan.{seen};
ghost use Rattle.stripe_examiner.specs.Findings.{is_wrong as is_wrong_at, is_wrong_by, may_write_level as may_write_at};
ghost use Rattle.stripe_examiner.specs.Judging.{TellsWrong};
ghost use Rattle.stripe_examiner.specs.Known.{AreRemainders};
ghost use Rattle.stripe_examiner.specs.Sharing.{IsLeftOf};
ghost use Rattle.stripe_examiner.specs.Surveyed.{plan_in};

use crate::search::are_zeros;
use crate::survey::Survey;
use parity_writer::{LevelRead, Levels};
use repair_scope::{Plan, is_synced, selects_level};

// Whether a level is short or not the sum of the row, by what is left of it less that sum, where the row is known.
fn is_wrong(known: bool, levels: &Levels, r: u32, left: &[u8]) -> bool
    requires level { r < levels.now.count }
    requires left { length left.now ≡ levels.now.block_size }
    ensures { (row : Row) → (known ≡ true → IsLeftOf levels.now row r left.now) →
        result ≡ is_wrong_by levels.now.block_size r (level_at levels.now r).state (level_at levels.now r).block
        (if known then Some row else None) }
{
    match levels.state(r) {
        LevelRead::Unread => false,
        LevelRead::Short => known,
        LevelRead::Bytes => known && !are_zeros(&left[..levels.block(r).len()]),
    }
}

// Whether a level may be found wrong at a stripe, and be written: it is selected there, and the stripe is synced.
fn may_write_level(plan: &Plan<'_>, stripe: u32, r: u32) -> bool
    requires within { stripe < length plan.now.table.now.infos }
    requires most { r < 6 }
    ensures { result ≡ may_write_at (seen plan.now) stripe r }
{
    is_synced(plan, stripe) && selects_level(plan, stripe, r)
}

// Whether a level is wrong, and may be written.
fn is_wrong_level(
    survey: &Survey<'_>,
    stripe: u32,
    known: bool,
    levels: &Levels,
    r: u32,
    left: &[u8],
) -> bool
    requires within { stripe < length survey.now.plan.table.now.infos }
    requires most { r < 6 }
    requires level { r < levels.now.count }
    requires size { levels.now.block_size ≡ survey.now.plan.table.now.shape.block_size }
    requires left { length left.now ≡ levels.now.block_size }
    ensures { (row : Row) → (known ≡ true → IsLeftOf levels.now row r left.now) →
        result ≡ is_wrong_at (plan_in survey.now) stripe (level_at levels.now r)
        (if known then Some row else None) r }
{
    may_write_level(&survey.plan, stripe, r) && is_wrong(known, levels, r, left)
}

/// Which of the levels that were read and may be written are short or not the sum of a row, where that is known: by what is left of
/// them less its sums.
pub fn wrong_levels(
    survey: &Survey<'_>,
    stripe: u32,
    known: bool,
    levels: &Levels,
    remainders: &[u8],
) -> [bool; 6]
    requires within { stripe < length survey.now.plan.table.now.infos }
    requires count { levels.now.count ≡ survey.now.plan.table.now.shape.levels }
    requires room { levels.now.count ≤ length levels.now.levels }
    requires size { levels.now.block_size ≡ survey.now.plan.table.now.shape.block_size }
    requires remainders { length remainders.now ≡ 6 * survey.now.plan.table.now.shape.block_size }
    ensures { (row : Row) → (known ≡ true → AreRemainders survey.now.plan.table.now.shape.block_size row
        (take levels.now.count levels.now.levels) remainders.now) →
        TellsWrong (plan_in survey.now) stripe levels.now (if known then Some row else None) result }
{
    let shape = survey.plan.table.shape();
    let size = shape.block_size as usize;
    let mut wrong = [false; 6];
    for r in 0..shape.levels {
        let start = r as usize * size;
        let left = &remainders[start..start + size];
        wrong[r as usize] = is_wrong_level(survey, stripe, known, levels, r, left);
    }
    wrong
}
