// Lists inside the library: repairs, or the steps of a cycle, a disk and a stripe in one word each.
#![tactic(auto)]

ghost use Rattle.std.specs.Prelude.{◌≡◌, ◌<◌, min, length, set};
ghost use Rattle.entries.specs.Listed.{word_of, entry_disk, entry_stripe};

// The words that a list has room for: no loss takes more repairs, and no loop has more disks.
pub const CAPACITY: usize = 32;

// Writes entry number k. Entries are counted from 0.
pub fn put(list: &mut [u32], k: usize, disk: usize, stripe: usize)
    requires k_in_bounds { k < length list.old }
    requires disk_bound { disk < 65536 }
    requires stripe_bound { stripe < 65536 }
    ensures { list.new ≡ set list.old k (word_of disk stripe) }
{
    list[k] = (disk + 65536 * stripe) as u32;
}

// The disk of entry number k.
pub fn disk_of(list: &[u32], k: usize) -> usize
    requires { k < length list.now }
    ensures { result ≡ entry_disk list.now k }
{
    (list[k] % 65536) as usize
}

// The stripe of entry number k.
pub fn stripe_of(list: &[u32], k: usize) -> usize
    requires { k < length list.now }
    ensures { result ≡ entry_stripe list.now k }
{
    (list[k] / 65536 % 65536) as usize
}

// How many entries of a list of `count` a limit allows.
pub fn at_most(count: usize, limit: usize) -> usize
    ensures { result ≡ min count limit }
{
    count.min(limit)
}
