// What is tried at a stripe.
ghost use Rattle.std.specs.Prelude.{◌≡◌, ◌<◌, length};
ghost use Rattle.repair_scope.specs.Plan.{seen, is_audit as is_audit_mode, is_synced as is_synced_at, is_searched as is_searched_at};

use crate::plan::Plan;
use crate::scope::Mode;
use file_table::Mark;

/// Whether files alone are looked at, and no parity.
pub fn is_audit(mode: Mode) -> bool
    ensures { result ≡ is_audit_mode mode }
{
    mode == Mode::Audit
}

/// Whether a stripe is synced.
pub fn is_synced(plan: &Plan<'_>, stripe: u32) -> bool
    requires { stripe < length plan.now.table.now.infos }
    ensures { result ≡ is_synced_at (seen plan.now) stripe }
{
    plan.table.info(stripe).mark == Mark::Synced
}

/// Whether a recovery of the damaged blocks of a stripe is tried.
pub fn is_searched(plan: &Plan<'_>, stripe: u32) -> bool
    requires { stripe < length plan.now.table.now.infos }
    ensures { result ≡ is_searched_at (seen plan.now) stripe }
{
    is_synced(plan, stripe) && !is_audit(plan.scope.mode)
}
