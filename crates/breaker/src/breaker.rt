//! Whether packets go on to a peer, by what became of the packets before them.

ghost use Rattle.std.specs.Prelude.{◌≡◌, ◌≤◌};
ghost use Rattle.breaker.specs.Breaker.{later, longer, rested_from, time_under, trial_end};

use std::marker::Model;

/// After so many packets in a row without an answer a peer is left alone.
pub const MISSES: u32 = 5;

/// For how many milliseconds a peer is left alone at first.
pub const FIRST_REST: u64 = 1_000;

/// For how many milliseconds a peer is left alone at most.
pub const LONGEST_REST: u64 = 30_000;

/// For how many milliseconds a trial waits for its answer at most.
pub const TRIAL: u64 = 1_000;

/// So many milliseconds after its time a trial that has not reported counts as missed.
pub const MARGIN: u64 = 1_000;

/// A miss says nothing of a peer that had fewer milliseconds to answer.
pub const LEAST_TIME: u64 = 500;

/// What lets a packet go on to the peer.
#[derive(Clone, Copy, Debug, PartialEq, Eq)]
pub enum Pass {
    /// As ever.
    Usual,
    /// As the one trial, which reports before that moment.
    Trial { until: u64 },
}

impl Pass {
    /// For how many milliseconds a packet waits for its answer that would otherwise wait so long.
    pub fn time_of(self, time: u64) -> u64
        ensures exact { result ≡ time_under self time }
        ensures within { result ≤ time }
    {
        match self {
            Pass::Usual => time,
            Pass::Trial { .. } => time.min(TRIAL),
        }
    }
}

/// What became of a packet that had a pass.
#[derive(Clone, Copy, Debug, PartialEq, Eq)]
pub enum Outcome {
    /// The peer answered.
    Answered,
    /// The peer gave no answer in time, or a broken one.
    Missed,
    /// Nothing is known of the peer: the packet did not go on, or the peer had less than `LEAST_TIME` to answer.
    Unknown,
}

/// What a breaker knows of its peer. Moments are in milliseconds.
#[derive(Clone, Copy, Debug, PartialEq, Eq)]
pub enum State {
    /// Packets go on. So many in a row got no answer.
    Closed { misses: u32 },
    /// No packet goes on until that moment. The rest has so many milliseconds.
    Resting { until: u64, rest: u64 },
    /// A trial is under way after a rest of so many milliseconds. It reports before that moment.
    Trying { until: u64, rest: u64 },
}

/// A breaker: whether packets go on to a peer. Contracts see it as its `State`.
///
/// After 5 packets in a row without an answer the peer rests for a second: no packet goes on. After a rest one packet goes on as
/// a trial, and the others rest until it reports. If the trial gets no answer, the next rest is twice as long, 30 seconds at most.
/// An answer to any packet ends all that.
///
/// Moments are milliseconds since any fixed one. A moment before an earlier one is no error.
#[derive(Clone, Copy, Debug, PartialEq, Eq)]
pub struct Breaker {
    state: State,
}

impl Model for Breaker {
    ghost use Rattle.breaker.specs.declared.breaker.State.{State};
    ghost use Rattle.breaker.specs.Breaker.{IsBounded};

    ghost Value = { State };

    ghost view = { λ b. b.state };

    ghost invariant = { λ b. IsBounded b.state };

    ghost inverse = { λ v. record { state = v } };
}

// A moment so many milliseconds later, or the last one.
fn later(now: u64, by: u64) -> u64
    ensures { result ≡ later now by }
{
    now.saturating_add(by)
}

// When a trial that begins now must have reported.
fn trial_end(now: u64) -> u64
    ensures { result ≡ trial_end now }
{
    later(now, TRIAL + MARGIN)
}

// The rest after one of so many milliseconds.
fn longer(rest: u64) -> u64
    ensures { result ≡ longer rest }
{
    rest.saturating_mul(2).min(LONGEST_REST)
}

// The rest of so many milliseconds that begins then.
fn rested_from(now: u64, rest: u64) -> State
    ensures { result ≡ rested_from now rest }
{
    State::Resting {
        until: later(now, rest),
        rest,
    }
}

impl Breaker {
    ghost use Rattle.std.specs.Prelude.{◌≡◌};
    ghost use Rattle.breaker.specs.Breaker.{IsBounded, abandoned, asked_at, is_closed, learnt, missed, pass_at, settled};
    ghost use Rattle.breaker.specs.declared.breaker.State.TheVariants.{Closed};

    /// The breaker of a peer of which nothing is known: packets go on.
    pub fn new() -> Breaker
        ensures { result ≡ Closed 0 }
    {
        Breaker {
            state: State::Closed { misses: 0 },
        }
    }

    /// Whether packets go on as ever.
    pub fn is_closed(&self) -> bool
        ensures { result ≡ is_closed self.now }
    {
        matches!(self.state, State::Closed { .. })
    }

    /// What holds of every breaker: fewer than 5 packets in a row got no answer while packets go on, and a rest has 1 to 30
    /// seconds.
    pub fn is_bounded(&self)
        ensures { IsBounded self.now }
    {
        let _state = self.state;
    }

    /// The pass for one packet at that moment; `None` if the peer rests. The caller reports each pass by `learn`. A trial that
    /// has not been reported by its end counts as missed then.
    pub fn ask(&mut self, now: u64) -> Option<Pass>
        ensures pass { result ≡ pass_at now self.old }
        ensures asked { self.new ≡ asked_at now self.old }
    {
        self.settle(now);
        match self.state {
            State::Closed { .. } => Some(Pass::Usual),
            State::Resting { until, rest } if now >= until => {
                let until = trial_end(now);
                self.state = State::Trying { until, rest };
                Some(Pass::Trial { until })
            }
            State::Resting { .. } | State::Trying { .. } => None,
        }
    }

    /// Learns at that moment what became of a packet that had that pass.
    pub fn learn(&mut self, pass: Pass, outcome: Outcome, now: u64)
        ensures { self.new ≡ learnt pass outcome now self.old }
    {
        match outcome {
            Outcome::Answered => *self = Breaker::new(),
            Outcome::Missed => self.miss(pass, now),
            Outcome::Unknown => self.abandon(pass, now),
        }
    }

    // A trial that has not reported by its end counts as missed then.
    fn settle(&mut self, now: u64)
        ensures { self.new ≡ settled now self.old }
    {
        if let State::Trying { until, rest } = self.state
            && now >= until
        {
            self.state = rested_from(until, longer(rest));
        }
    }

    // A packet with that pass got no answer.
    fn miss(&mut self, pass: Pass, now: u64)
        ensures { self.new ≡ missed pass now self.old }
    {
        match self.state {
            State::Closed { misses } if misses + 1 < MISSES => {
                self.state = State::Closed { misses: misses + 1 };
            }
            State::Closed { .. } => self.state = rested_from(now, FIRST_REST),
            State::Trying { until, rest } if pass == (Pass::Trial { until }) => {
                self.state = rested_from(now, longer(rest));
            }
            State::Resting { .. } | State::Trying { .. } => {}
        }
    }

    // Of a packet with that pass nothing is known: if it was the trial, the next one is.
    fn abandon(&mut self, pass: Pass, now: u64)
        ensures { self.new ≡ abandoned pass now self.old }
    {
        if let State::Trying { until, rest } = self.state
            && pass == (Pass::Trial { until })
        {
            self.state = State::Resting { until: now, rest };
        }
    }
}
