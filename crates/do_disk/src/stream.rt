//! Streams of bytes: a source that is read to its end, and a sink that takes what is written.
ghost use Rattle.std.specs.Prelude.{◌≡◌, ◌≤◌, ◌<◌, ◌++◌, [], List, ℕ, Option, length, IfOk, OnErr, take, drop, option_map};
ghost use Rattle.do_disk.specs.Disk.{IfTold, CountsFaults};

use crate::Failed;

/// A stream that is read piece by piece. Whether it tells what it has left is the same after each read as before it.
pub trait Source {
    /// The bytes that are left, where the source tells them.
    ghost left: { Self → Option (List ℕ) };

    /// How many faults there have been. It stays at u64's greatest value.
    ghost faults_of: { Self → ℕ };

    /// Puts the next bytes at the buffer's front and gives their number. 0 into a buffer that isn't empty is the end of
    /// the input. After a failure nothing is lost of what is left, and the buffer may hold anything.
    fn read(&mut self, into: &mut [u8]) -> Result<usize, Failed>
        ensures bound { IfOk result (λ n. n ≤ length into.old) }
        ensures given { IfOk result (λ n. IfTold (left self.old) (λ bytes. take n into.new ≡ take n bytes)) }
        ensures left { IfOk result (λ n. left self.new ≡ option_map (drop n) (left self.old)) }
        ensures within { IfOk result (λ n. IfTold (left self.old) (λ bytes. n ≤ length bytes)) }
        ensures end { IfOk result (λ n. n ≡ 0 → 0 < length into.old → IfTold (left self.old) (λ bytes. bytes ≡ [])) }
        ensures same { OnErr result (left self.new ≡ left self.old) }
        ensures faults { CountsFaults (faults_of self.old) (faults_of self.new) result };
}

/// A stream that takes bytes piece by piece. Whether it tells what it took is the same after each write as before it.
pub trait Sink {
    /// The bytes that were taken, where the sink tells them.
    ghost taken: { Self → Option (List ℕ) };

    /// How many faults there have been. It stays at u64's greatest value.
    ghost faults_of: { Self → ℕ };

    /// Takes bytes from the front of these and gives their number, which is above 0 where there are any. A sink that
    /// could take none of them fails. A failed write took nothing.
    fn write(&mut self, from: &[u8]) -> Result<usize, Failed>
        ensures bound { IfOk result (λ n. n ≤ length from.now) }
        ensures some { IfOk result (λ n. 0 < length from.now → 0 < n) }
        ensures taken { IfOk result (λ n. taken self.new ≡ option_map (λ bytes. bytes ++ take n from.now) (taken self.old)) }
        ensures same { OnErr result (taken self.new ≡ taken self.old) }
        ensures faults { CountsFaults (faults_of self.old) (faults_of self.new) result };
}
