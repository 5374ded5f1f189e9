// When a sync saves the table.
ghost use Rattle.std.specs.Prelude.{◌≡◌, ◌<◌, ◌≤◌, ◌+◌, ◌*◌, IfSome, length};
ghost use Rattle.snap_sync.specs.Schedule.{save_after as save_after_of, is_checkpoint as is_checkpoint_at, window_count as window_count_at};

/// After how many pending stripes a sync saves besides at its end, if it does: `save_every`, else by the bytes of
/// `autosave`, where `stripe_bytes` is what a stripe of all columns holds.
pub(crate) fn save_after(save_every: Option<u32>, autosave: u64, stripe_bytes: u64) -> Option<u64>
    requires bytes { 0 < stripe_bytes }
    requires every { IfSome save_every (λ every. 0 < every) }
    ensures value { result ≡ save_after_of save_every autosave stripe_bytes }
    ensures some { IfSome result (λ every. 0 < every) }
{
    match save_every {
        Some(every) => Some(u64::from(every)),
        None if autosave == 0 => None,
        None => Some((autosave / stripe_bytes).max(1)),
    }
}

/// Whether a checkpoint stands after so many pending stripes.
pub(crate) fn is_checkpoint(every: Option<u64>, count: u32) -> bool
    requires { IfSome every (λ n. 0 < n) }
    ensures { result ≡ is_checkpoint_at every count }
{
    match every {
        Some(every) => u64::from(count) % every == 0,
        None => false,
    }
}

/// How many stripes a window takes after so many of all.
pub(crate) fn window_count(every: Option<u64>, room: u32, all: u32, count: u32) -> u32
    requires every { IfSome every (λ n. 0 < n) }
    requires within { count ≤ all }
    ensures value { result ≡ window_count_at every room all count }
    ensures room { result ≤ room }
    ensures rest { count + result ≤ all }
    ensures some { 0 < room → count < all → 0 < result }
{
    let rest = all - count;
    let till = match every {
        Some(every) => (every - u64::from(count) % every).min(u64::from(room)) as u32,
        None => room,
    };
    rest.min(till)
}
