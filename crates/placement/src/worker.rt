//! The worker that is an object's home.
ghost use Rattle.std.specs.Prelude.{◌≡◌, ◌<◌, ◌≤◌};
ghost use Rattle.placement.specs.Homes.{home_of};

use sha2::{Digest, Sha256};

/// The number of the worker, counted from 0, that is the home of the object of this class and name among so many workers: the
/// first four bytes of a digest, greatest first, modulo their number. So objects spread over the workers, and each run agrees.
pub fn home(class: &str, name: &str, workers: u32) -> u32
    requires some { 1 ≤ workers }
    ensures home { result ≡ home_of (class.now, name.now) workers }
    ensures within { result < workers }
{
    let mut hasher = Sha256::new();
    hasher.update(class.as_bytes());
    hasher.update(&[0_u8]);
    hasher.update(name.as_bytes());
    let digest = hasher.finalize();
    u32::from_be_bytes([digest[0], digest[1], digest[2], digest[3]]) % workers
}
