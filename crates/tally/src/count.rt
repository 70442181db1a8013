// The number of erased disks on a stripe.
ghost use Rattle.std.specs.Prelude.{◌≡◌, ◌+◌, ◌-◌, ◌≤◌, ◌<◌, length, get_or, set};

// One more.
pub fn raise(counts: &mut [u8], stripe: usize)
    requires stripe_in_bounds { stripe < length counts.old }
    requires stripe_bound { get_or counts.old stripe 0 + 1 < 256 }
    ensures { counts.new ≡ set counts.old stripe (get_or counts.old stripe 0 + 1) }
{
    counts[stripe] = counts[stripe] + 1;
}

// One less.
pub fn lower(counts: &mut [u8], stripe: usize)
    requires stripe_in_bounds { stripe < length counts.old }
    requires bound { 1 ≤ get_or counts.old stripe 0 }
    ensures { counts.new ≡ set counts.old stripe (get_or counts.old stripe 0 - 1) }
{
    counts[stripe] = counts[stripe] - 1;
}
