ghost use Rattle.std.specs.Prelude.{◌≡◌, ℕ};

/// A reader or writer that counts its faults.
pub trait Device {
    /// How many reads and writes of this device have failed.
    ghost failure_count: { Self → ℕ };

    /// How many reads and writes of this device have failed. The count rises by one with each fault
    /// of a read or a write, and only then. A write of one byte or more that takes none is a fault.
    /// An implementor keeps the count below 2^62.
    fn failures(&self) -> u64
        ensures { result ≡ failure_count self.now };
}

impl Device for &[u8] {
    ghost failure_count = { λ _. 0 };

    fn failures(&self) -> u64 {
        0
    }
}

impl Device for Vec<u8> {
    ghost failure_count = { λ _. 0 };

    fn failures(&self) -> u64 {
        0
    }
}
