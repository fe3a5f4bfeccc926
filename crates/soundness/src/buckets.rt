// Buckets by keys and sums: numbers below BUCKETS, whatever the bytes. `as` stands where no `From` does: to and from
// usize, and to fewer bits.
ghost use Rattle.std.specs.Prelude.{◌≡◌, ◌<◌};
ghost use Rattle.soundness.specs.Buckets.{chain_heads, key_bucket, folded, own_buckets, own_bucket};

use crate::place::FOUR_BYTES;
use chains::BUCKETS;

// How many of them each depository has.
pub(crate) const OWN_BUCKETS: usize = 256;

// A prime near FOUR_BYTES divided by the golden ratio: keys that follow each other come to buckets far apart.
const SPREAD: u64 = 2654435761;

// What is left of a product without its 21 lowest bits.
const LOW_BITS: u64 = 2097152;

pub(crate) fn key_bucket(key: u32) -> usize
    ensures value { result ≡ key_bucket key }
    ensures upper_bound { result < chain_heads }
{
    (u64::from(key) * SPREAD / LOW_BITS % BUCKETS as u64) as usize
}

// A sum of 64 bits as one of 32, and a key more.
pub(crate) fn fold(sum: u64, key: u32) -> u32
    ensures { result ≡ folded sum key }
{
    ((sum % FOUR_BYTES + sum / FOUR_BYTES + u64::from(key)) % FOUR_BYTES) as u32
}

// One of a depository's buckets.
pub(crate) fn own_bucket(csd: u8, k: usize) -> usize
    requires { k < own_buckets }
    ensures { result ≡ own_bucket csd k }
{
    usize::from(csd) % 8 * OWN_BUCKETS + k
}
