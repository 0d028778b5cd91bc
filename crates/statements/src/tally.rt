//! Sums for the numbers of peers.

ghost use Rattle.std.specs.Prelude.{◌≡◌, ◌<◌, ◌+◌, ℕ, IfOk, OnOk, vec_len};
ghost use Rattle.statements.specs.Sums.{counted_for, IsAdded, IsOver, OnLong, sum_at};

use common_types::ReadError;
use std::alloc::{AllocError, Global};
use tenant_core::PeerNo;

/// There is no room for a sum, or for the number of a peer.
#[derive(Clone, Copy, Debug, PartialEq, Eq)]
pub struct Long;

/// A sum, unless it is out of memory or has no room.
pub type Summed<T> = Result<T, ReadError<Long>>;

pub const LONG: ReadError<Long> = ReadError::Fault(Long);

/// A sum for each number of a peer, which is 0 if nothing was added.
#[derive(Drop)]
pub struct Tally {
    sums: Vec<u128>,
}

impl Tally {
    /// Sums to which nothing was added.
    pub fn new(alloc: Global) -> Tally
        ensures { (n : ℕ) → sum_at result n ≡ 0 }
    {
        Tally {
            sums: Vec::new(alloc),
        }
    }

    /// The sum for that peer.
    pub fn get(&self, peer: PeerNo) -> u128
        ensures { result ≡ sum_at self.now peer }
    {
        match self.sums.get(peer as usize) {
            Some(sum) => *sum,
            None => 0,
        }
    }

    /// A copy of the sums. Fails only if it is out of memory.
    pub fn copy(&self, alloc: Global) -> Result<Tally, AllocError>
        ensures { IfOk result (λ copy. (n : ℕ) → sum_at copy n ≡ sum_at self.now n) }
    {
        Ok(Tally {
            sums: Vec::from_slice(alloc, self.sums.as_slice())?,
        })
    }

    // Makes room for the sum of that peer. Fails only if it is out of memory.
    #[tactic(auto, using(crate::proofs::ZeroSums::zero_more))]
    fn reach(&mut self, peer: PeerNo) -> Result<(), AllocError>
        ensures same { OnOk result ((n : ℕ) → sum_at self.new n ≡ sum_at self.old n) }
        ensures there { OnOk result (peer < vec_len self.new.sums) }
    {
        for count in self.sums.len()..peer as usize + 1 {
            self.sums.push(0)?;
        }
        Ok(())
    }

    /// Adds so much for that peer, if there is anything to add. `Long` if its sum has no room for it.
    pub fn add(&mut self, counted: Option<(PeerNo, u64)>) -> Summed<()>
        ensures added { OnOk result (IsAdded self.old self.new (counted_for counted)) }
        ensures long { OnLong result (IsOver self.old (counted_for counted)) }
    {
        let Some((peer, amount)) = counted else {
            return Ok(());
        };
        let more = self.get(peer).checked_add(amount as u128).ok_or(LONG)?;
        self.reach(peer)?;
        self.sums[peer as usize] = more;
        Ok(())
    }
}
