//! Buckets that keep their credit.

ghost use Rattle.std.specs.Prelude.{◌≡◌};
ghost use Rattle.rate_bucket.specs.Bucket.{full_bucket};

use std::marker::Model;

/// What a packet costs, in the thousandths of a packet that credit is counted in.
pub const PACKET: u64 = 1_000;

/// What a bucket holds when it is full, in thousandths of a packet. It has room for `burst` packets.
pub fn full_bucket(burst: u32) -> u64
    ensures { result ≡ full_bucket burst }
{
    PACKET * burst as u64
}

/// A bucket for `burst` packets, into which `per_second` packets a second flow. It keeps what it had at its last clock.
/// Clocks are in milliseconds, and credit is counted in thousandths of a packet.
#[derive(Clone, Copy, Debug, PartialEq, Eq)]
pub struct Bucket {
    burst: u32,
    per_second: u32,
    clock: u64,
    credit: u64,
}

impl Model for Bucket {
    ghost use Rattle.std.specs.Prelude.{◌≤◌};
    ghost use Rattle.rate_bucket.specs.Bucket.{full_bucket};
    ghost use Rattle.rate_bucket.specs.Running.{Level};

    ghost Value = { Level };

    ghost view = { λ b. record {
      burst = b.burst;
      per_second = b.per_second;
      clock = b.clock;
      credit = b.credit;
    } };

    ghost invariant = { λ b. b.credit ≤ full_bucket b.burst };

    ghost inverse = { λ v. record {
      burst = v.burst;
      per_second = v.per_second;
      clock = v.clock;
      credit = v.credit;
    } };
}

impl Bucket {
    ghost use Rattle.std.specs.Prelude.{◌≡◌, ◌≤◌, [], nat_le, min};
    ghost use Rattle.rate_bucket.specs.Bucket.{Stretch, packet, full_bucket, credit_at, is_admitted};
    ghost use Rattle.rate_bucket.specs.Running.{IsLevelOf, credit_by, taken, left_by, changed, level_changed};

    /// The bucket that had that credit at that clock, cut to what it can hold.
    pub fn with_credit(burst: u32, per_second: u32, credit: u64, now: u64) -> Bucket
        ensures level { result ≡ record {
          burst = burst;
          per_second = per_second;
          clock = now;
          credit = min credit (full_bucket burst);
        } }
        ensures stretch { IsLevelOf
            (record { start = now; credit = credit; burst = burst; per_second = per_second; admitted = [] }) result }
    {
        Bucket {
            burst,
            per_second,
            clock: now,
            credit: credit.min(full_bucket(burst)),
        }
    }

    /// A full bucket at that clock.
    pub fn new(burst: u32, per_second: u32, now: u64) -> Bucket
        ensures level { result ≡ record { burst = burst; per_second = per_second; clock = now; credit = full_bucket burst } }
        ensures stretch { IsLevelOf
            (record { start = now; credit = full_bucket burst; burst = burst; per_second = per_second; admitted = [] })
            result }
    {
        Bucket {
            burst,
            per_second,
            clock: now,
            credit: full_bucket(burst),
        }
    }

    /// The credit at a clock that is not before the last one.
    pub fn credit(self, now: u64) -> u64
        requires { self.clock ≤ now }
        ensures level { result ≡ credit_by self now }
        ensures stretch { (b : Stretch) → IsLevelOf b self → result ≡ credit_at b now }
    {
        let full = full_bucket(self.burst);
        let gained = self.per_second as u128 * (now - self.clock) as u128;
        (self.credit as u128 + gained).min(full as u128) as u64
    }

    /// Admits a packet at a clock that is not before the last one, if there is credit for it, and takes its cost. A
    /// refused packet changes nothing.
    pub fn admit(&mut self, now: u64) -> bool
        requires { self.old.clock ≤ now }
        ensures level { result ≡ nat_le packet (credit_by self.old now) }
        ensures left { self.new ≡ left_by result now self.old }
        ensures stretch { (b : Stretch) → IsLevelOf b self.old
            → (result ≡ is_admitted b now) × IsLevelOf (taken result now b) self.new }
    {
        let credit = self.credit(now);
        if credit < PACKET {
            return false;
        }
        self.credit = credit - PACKET;
        self.clock = now;
        true
    }

    /// Changes what the bucket is for, at a clock that is not before the last one. It keeps its credit, cut to what it can
    /// hold from then on.
    pub fn change(&mut self, burst: u32, per_second: u32, now: u64)
        requires { self.old.clock ≤ now }
        ensures level { self.new ≡ level_changed burst per_second now self.old }
        ensures stretch { (b : Stretch) → IsLevelOf b self.old → IsLevelOf (changed burst per_second now b) self.new }
    {
        let credit = self.credit(now);
        *self = Bucket {
            burst,
            per_second,
            clock: now,
            credit: credit.min(full_bucket(burst)),
        };
    }
}
