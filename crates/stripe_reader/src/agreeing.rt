// Whether a recorded hash is that of the block that came.
ghost use Rattle.std.specs.Prelude.{◌≡◌};
ghost use Rattle.stripe_reader.specs.Agreeing.{matches_digest as matches_it};

use block_hash::Digest16;

/// Whether a recorded digest, where there is one, is the one that came. `specs/Agreeing.antt` says by it when a slot agrees with a
/// recorded hash.
pub fn matches_digest(recorded: Option<Digest16>, came: Option<Digest16>) -> bool
    ensures { result ≡ matches_it recorded came }
{
    match (recorded, came) {
        (None, _) => true,
        (Some(_), None) => false,
        (Some(recorded), Some(came)) => recorded == came,
    }
}
