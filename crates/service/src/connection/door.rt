//! Which connections may still come, how many are there, and whether others wait for the thread of one.

use crate::connection::pace::{Rush, rush_of};
use crate::connection::timed::millis_of;
use crate::running::ended::Ended;
use std::sync::Wait;
use std::sync::atomic::{AtomicBool, AtomicU64, Ordering};
use std::time::{Clock, Instant};

/// How many connections may still be served, how many are open and may be, how many threads wait for one, and whether the system
/// refuses them. A door that is closed lets no connection in any more, and presses those that are open to end.
#[derive(Drop)]
pub struct Door {
    // When the service began, and how many milliseconds later the door was closed.
    begun: Instant,
    closed_at: AtomicU64,
    left: AtomicU64,
    most: AtomicU64,
    open: AtomicU64,
    // One more than how many milliseconds after the beginning as many were open as may be, last; 0 if never.
    full_at: AtomicU64,
    waiting: AtomicU64,
    refused: AtomicBool,
    closed: AtomicBool,
    deserted: AtomicBool,
    commanded: AtomicBool,
}

/// Evidence that no thread serves connections or does commands any more. Only a door that is closed gives it, after `desert` was
/// called.
#[derive(Drop)]
pub struct Deserted(());

impl Door {
    /// A door for so many connections in all, of a service that begins now.
    pub fn new(begun: Instant, connections: u64) -> Door {
        Door {
            begun,
            closed_at: AtomicU64::new(0),
            left: AtomicU64::new(connections),
            most: AtomicU64::new(u64::MAX),
            open: AtomicU64::new(0),
            full_at: AtomicU64::new(0),
            waiting: AtomicU64::new(0),
            refused: AtomicBool::new(false),
            closed: AtomicBool::new(false),
            deserted: AtomicBool::new(false),
            commanded: AtomicBool::new(false),
        }
    }

    /// Whether one more connection may be served. It is the caller's from then on.
    pub fn enter(&self, rt: &impl Wait) -> bool {
        for _ in rt.forever() {
            let left = self.left.load(Ordering::SeqCst);
            if left == 0 || self.is_closed() {
                return false;
            }
            let taken = self
                .left
                .compare_exchange(left, left - 1, Ordering::SeqCst, Ordering::SeqCst);
            if taken.is_ok() {
                return true;
            }
        }
        unreachable!()
    }

    /// Whether connections are served without end.
    pub fn is_endless(&self) -> bool {
        self.left.load(Ordering::SeqCst) > u64::MAX / 2
    }

    /// Another connection may be served in place of one that was idle or did not come.
    pub fn give_back(&self) {
        self.left.fetch_add(1, Ordering::SeqCst);
    }

    /// A connection is open from now on.
    pub fn connection_begins(&self, clock: &impl Clock) {
        self.open.fetch_add(1, Ordering::SeqCst);
        self.note_full(clock);
    }

    /// A connection has ended.
    pub fn connection_ends(&self, clock: &impl Clock) {
        self.note_full(clock);
        self.open.fetch_sub(1, Ordering::SeqCst);
    }

    // Keeps that as many connections are open now as may be, if they are.
    fn note_full(&self, clock: &impl Clock) {
        if self.free() == 0 {
            let now = self.age(clock).saturating_add(1);
            self.full_at.store(now, Ordering::SeqCst);
        }
    }

    // How many milliseconds ago as many connections were open as may be, last.
    fn since_full(&self, clock: &impl Clock) -> u64 {
        if self.free() == 0 {
            return 0;
        }
        match self.full_at.load(Ordering::SeqCst) {
            0 => u64::MAX,
            at => self.age(clock).saturating_add(1).saturating_sub(at),
        }
    }

    /// How many connections are open.
    pub fn open(&self) -> u64 {
        self.open.load(Ordering::SeqCst)
    }

    /// How many threads wait for a connection.
    pub fn waiting(&self) -> u64 {
        self.waiting.load(Ordering::SeqCst)
    }

    /// So many connections may be open at once: each has a thread.
    pub fn set_most(&self, most: u64) {
        self.most.store(most, Ordering::SeqCst);
    }

    // For how many milliseconds the service has run; none if the clock can't be read.
    fn age(&self, clock: &impl Clock) -> u64 {
        match Instant::now(clock) {
            Ok(now) => millis_of(now.saturating_duration_since(self.begun)),
            Err(_) => 0,
        }
    }

    /// Lets nobody in any more.
    pub fn close(&self, clock: &impl Clock) {
        if self.is_closed() {
            return;
        }
        self.closed_at.store(self.age(clock), Ordering::SeqCst);
        self.closed.store(true, Ordering::SeqCst);
    }

    /// For how many milliseconds it has been closed; none if it is open.
    pub fn closed_for(&self, clock: &impl Clock) -> u64 {
        if !self.is_closed() {
            return 0;
        }
        self.age(clock)
            .saturating_sub(self.closed_at.load(Ordering::SeqCst))
    }

    pub fn is_closed(&self) -> bool {
        self.closed.load(Ordering::SeqCst)
    }

    /// Says that no thread serves connections any more, since the workers have ended.
    pub fn desert(&self, _ended: Ended) {
        self.deserted.store(true, Ordering::SeqCst);
    }

    pub fn is_deserted(&self) -> bool {
        self.deserted.load(Ordering::SeqCst)
    }

    /// Whether a command of another thread than the workers' may begin: not once the door is closed. That thread calls
    /// `command_ends` after it.
    pub fn command_begins(&self) -> bool {
        self.commanded.store(true, Ordering::SeqCst);
        if self.is_closed() {
            self.command_ends();
            return false;
        }
        true
    }

    /// The command has ended.
    pub fn command_ends(&self) {
        self.commanded.store(false, Ordering::SeqCst);
    }

    /// Evidence that no thread serves connections or does commands any more, after `close` and `desert` were called.
    pub fn deserted(&self) -> Option<Deserted> {
        let is_over = self.is_closed() && self.is_deserted();
        if is_over && !self.commanded.load(Ordering::SeqCst) {
            Some(Deserted(()))
        } else {
            None
        }
    }

    /// Whether the system has just refused to accept a connection.
    fn is_refused(&self) -> bool {
        self.refused.load(Ordering::SeqCst)
    }

    /// Whether a connection that comes is let in: the door is open, and the system does not refuse it.
    pub fn lets_in(&self) -> bool {
        !self.is_closed() && !self.is_refused()
    }

    /// One more thread waits for a connection.
    pub fn wait_begins(&self) {
        self.waiting.fetch_add(1, Ordering::SeqCst);
    }

    /// One thread waits no longer.
    pub fn wait_ends(&self) {
        self.waiting.fetch_sub(1, Ordering::SeqCst);
    }

    /// Says whether the system has just refused to accept a connection, as it does if too many files are open.
    pub fn set_refused(&self, refused: bool) {
        self.refused.store(refused, Ordering::SeqCst);
    }

    // How many connections more may be open. If none may begin any more, only threads that wait already serve another.
    fn free(&self) -> u64 {
        if self.left.load(Ordering::SeqCst) == 0 {
            return self.waiting();
        }
        self.most.load(Ordering::SeqCst).saturating_sub(self.open())
    }

    /// What connections that are open have to hurry for.
    pub fn rush(&self, clock: &impl Clock) -> Rush {
        rush_of(self.is_closed(), self.since_full(clock), self.is_refused())
    }
}
