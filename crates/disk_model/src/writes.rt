// The count of writing calls that an object keeps.
ghost use Rattle.std.specs.Prelude.{true};
ghost use Rattle.disk_model.specs.Cause.{Counts, exactly};

/// One writing call more. The count stays at the greatest u64.
pub fn count_write(writes: &mut u64)
    ensures { Counts true (exactly writes.old) (exactly writes.new) }
{
    *writes = writes.saturating_add(1);
}
