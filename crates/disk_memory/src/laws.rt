//! What follows from the definitions of a vault's images in memory. The calls do nothing: their contracts are laws.
ghost use Rattle.std.specs.Prelude.{◌≡◌, ◌+◌, ◌<◌, ◌^◌, ℕ, List, length};
ghost use Rattle.disk_model.specs.Bytes.{AreBytes};
ghost use Rattle.disk_model.specs.Files.{Files};
ghost use Rattle.disk_memory.specs.Choice.{CanBeCounted};
ghost use Rattle.disk_memory.specs.Vault.{VaultValue, view_of, image_at};

/// All that a stop at any moment since a vault was opened may leave of it is picked by some bytes, as long as eight of
/// them can count its calls and what the files hold.
pub fn each_image_is_picked()
    ensures { (v : VaultValue) (files : Files) → (view_of v).images.since 0 files →
        length v.since + 1 < 2 ^ 64 → CanBeCounted files →
        (choice : List ℕ) × AreBytes choice × (image_at v choice ≡ files) }
{}
