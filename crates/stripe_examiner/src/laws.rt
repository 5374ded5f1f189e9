//! What follows of the facts of stripes. The call does nothing: its contract is a law.

ghost use Rattle.std.specs.Prelude.{◌≡◌, ℕ, ◌<◌, List, length, All};
ghost use Rattle.file_table.specs.Valid.{IsValid};
ghost use Rattle.stripe_examiner.specs.Alike.{AreReadAlike, SeeAlike};
ghost use Rattle.stripe_examiner.specs.Facts.{StripeFacts};
ghost use Rattle.stripe_examiner.specs.Known.{AreFacts};
ghost use Rattle.stripe_examiner.specs.Looking.{facts_at};
ghost use Rattle.repair_scope.specs.Plan.{FixPlan};

use cauchy::laws::one_solution;

/// What was read of a stripe determines all that is known of it: whether its row is found, and which. So a check and a fix that read
/// the same of stripes find the same.
pub fn what_is_read_determines_what_is_found()
    ensures stripe { (plan other : FixPlan) (facts others : StripeFacts) → SeeAlike plan other → IsValid plan.table →
        AreFacts plan facts → AreFacts other others → AreReadAlike facts others → facts ≡ others }
    ensures stripes { (plan other : FixPlan) (stripes others : List StripeFacts) →
        SeeAlike plan other → IsValid plan.table →
        All (AreFacts plan) stripes → All (AreFacts other) others → length stripes ≡ length others →
        ((k : ℕ) → k < length stripes → AreReadAlike (facts_at stripes k) (facts_at others k)) → stripes ≡ others }
{
    one_solution();
}
