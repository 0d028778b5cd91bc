//! The connections at the host's or the operators' door: those whose request has not come whole, and those whose answer has not
//! left.

ghost use Rattle.std.specs.Prelude.{◌≡◌};
ghost use Rattle.service.specs.Hosting.{Repeats};
ghost use Rattle.service.specs.Callers.{fate_of, turns_until};

use crate::connection::door::Door;
use crate::connection::timed::{is_pause, millis_of};
use crate::host::letters::{Letter, Letters};
use std::alloc::{AllocError, Global};
use std::io::Write;
use std::net::{Net, TcpListener, TcpStream};
use std::sync::Wait;
use std::thread;
use std::time::{Clock, Duration, Instant};

/// How many callers wait side by side at most: one more takes the place of the one that came first.
pub const MAX_CALLERS: usize = 10;

/// How many tenants there may be.
const MAX_TENANTS: usize = 64;

/// How many milliseconds a request may take to come.
const PATIENCE: u64 = 500;

/// How many milliseconds lie between two looks whether anything has come.
const PAUSE: u64 = 20;

/// How many milliseconds a request that has come may be read. Its bytes are there, so only a machine that stalls takes so long.
const READING: u64 = 500;

/// As many bytes of a request as are looked at: those of a head and of a command, with its chunks.
const GLANCE: usize = 16_384;

/// When a request can be answered, by what has come of it.
#[derive(Clone, Copy, Debug, PartialEq, Eq)]
pub enum Due {
    /// Once more of it has come.
    Later,
    /// Once more of it has come, for which its client must be asked. (RFC 9110, 10.1.1)
    Invited,
    /// Now. It is of that tenant, or of none that counts.
    Now(usize),
    /// Once the service has ended.
    AtTheEnd,
}

/// What becomes of a caller for now.
#[derive(Clone, Copy, Debug, PartialEq, Eq)]
pub enum Fate {
    Waits,
    /// It waits, and is asked for the rest of its request.
    Invited,
    /// It is sent away.
    Dismissed,
    /// Its request, of that tenant, is answered.
    Answered(usize),
}

// What becomes of a caller that has waited for so many milliseconds: half a second for its request, or until the end.
fn fate_of(due: Due, waited: u64) -> Fate
    ensures { result ≡ fate_of due waited }
{
    match due {
        Due::Now(tenant) => Fate::Answered(tenant),
        Due::AtTheEnd => Fate::Waits,
        Due::Later | Due::Invited if waited >= PATIENCE => Fate::Dismissed,
        Due::Invited => Fate::Invited,
        Due::Later => Fate::Waits,
    }
}

// How many turns of other tenants come before that of a tenant, after the turn of the last one.
fn turns_until(tenant: usize, last: usize) -> usize
    ensures { result ≡ turns_until tenant last }
{
    let last = last.min(MAX_TENANTS - 1);
    (tenant.saturating_add(MAX_TENANTS - 1) - last) % MAX_TENANTS
}

/// A connection whose request has not been answered.
#[derive(Drop)]
struct Caller {
    stream: TcpStream,
    came: Instant,
    // Whether it was asked for the rest of its request.
    is_invited: bool,
    // Whether it has waited for the end of the service.
    is_bound: bool,
}

impl Caller {
    // When its request can be answered, by a look at the bytes, which stay unread. If nothing more comes, it can be now.
    fn due<K: Answering>(&mut self, answering: &K, room: &mut [u8]) -> Due {
        let due = match self.stream.peek(room) {
            Ok(0) => Due::Now(0),
            Ok(n) if n >= room.len() => Due::Now(0),
            Ok(n) => answering.due(&room[..n]),
            Err(error) if is_pause(&error) => Due::Later,
            Err(_) => Due::Now(0),
        };
        self.is_bound |= due == Due::AtTheEnd;
        due
    }

    // Asks its client once for the rest of its request.
    fn invite(&mut self) {
        if self.is_invited {
            return;
        }
        self.is_invited = true;
        let mut stream = &self.stream;
        let _ = stream.write(b"HTTP/1.1 100 Continue\r\n\r\n");
    }
}

/// What is next at a door.
#[derive(Clone, Copy)]
enum Next {
    /// The caller at that place is sent away.
    Dismiss(usize),
    /// The caller at that place, of that tenant, is answered.
    Answer(usize, usize),
    /// Nothing.
    Nothing,
}

/// Those that wait, the first one first, the room in which their bytes are looked at, and whose turn was last.
#[derive(Drop)]
pub struct Callers {
    waiting: Vec<Caller>,
    room: Vec<u8>,
    last: usize,
}

impl Callers {
    /// Nobody, with room for as many as may wait.
    pub fn new(alloc: Global) -> Result<Callers, AllocError> {
        Ok(Callers {
            waiting: Vec::with_capacity(alloc, MAX_CALLERS)?,
            room: vec![in alloc; 0u8; GLANCE]?,
            last: 0,
        })
    }

    // Sends away the first that does not wait for the end, or says that all do.
    fn dismiss_first(&mut self) -> bool {
        for at in 0..self.waiting.len() {
            let Some(caller) = self.waiting.get(at) else {
                return false;
            };
            if !caller.is_bound {
                let _ = self.waiting.remove(at);
                return true;
            }
        }
        false
    }

    // Lets a connection wait.
    fn admit(&mut self, stream: TcpStream, came: Instant) {
        if stream.set_nonblocking(true).is_err() {
            return;
        }
        if self.waiting.len() >= MAX_CALLERS && !self.dismiss_first() {
            return;
        }
        // There is room for one more.
        let _ = self.waiting.push(Caller {
            stream,
            came,
            is_invited: false,
            is_bound: false,
        });
    }

    // Lets those wait who have come.
    fn admit_all(&mut self, listener: &TcpListener, clock: &impl Clock) {
        for _ in 0..MAX_CALLERS {
            let Ok(now) = Instant::now(clock) else {
                return;
            };
            match listener.accept() {
                Ok((stream, _)) => self.admit(stream, now),
                // Perhaps too many files are open, which the system also says where nobody has come: those who wait stay.
                Err(_) => return,
            }
        }
    }

    // What becomes of the caller at a place.
    fn fate_at<K: Answering>(&mut self, at: usize, now: Instant, answering: &K) -> Fate {
        let Some(caller) = self.waiting.get_mut(at) else {
            return Fate::Waits;
        };
        let waited = millis_of(now.saturating_duration_since(caller.came));
        let due = caller.due(answering, self.room.as_mut_slice());
        let fate = fate_of(due, waited);
        if fate == Fate::Invited {
            caller.invite();
        }
        fate
    }

    // What is next: one whose time is over is sent away; of those whose requests have come the one is answered whose tenant's
    // turn is first.
    fn next<K: Answering>(&mut self, now: Instant, answering: &K) -> Next {
        let mut next = Next::Nothing;
        let mut turns = MAX_TENANTS;
        for at in 0..self.waiting.len() {
            match self.fate_at(at, now, answering) {
                Fate::Waits | Fate::Invited => {}
                Fate::Dismissed => return Next::Dismiss(at),
                Fate::Answered(tenant) => {
                    let until = turns_until(tenant, self.last);
                    if until < turns {
                        next = Next::Answer(at, tenant);
                        turns = until;
                    }
                }
            }
        }
        next
    }

    // Takes out one whose request has come. Those whose time is over are sent away.
    fn next_due<K: Answering>(&mut self, now: Instant, answering: &K) -> Option<Caller> {
        for _ in 0..MAX_CALLERS + 1 {
            match self.next(now, answering) {
                Next::Nothing => return None,
                Next::Dismiss(at) => {
                    if at < self.waiting.len() {
                        let _ = self.waiting.remove(at);
                    }
                }
                Next::Answer(at, tenant) => {
                    if at < self.waiting.len() {
                        self.last = tenant;
                        return Some(self.waiting.remove(at));
                    }
                }
            }
        }
        None
    }

    // Whether one waits for the end of the service.
    fn has_bound(&self) -> bool {
        self.waiting.as_slice().iter().any(|caller| caller.is_bound)
    }
}

/// What is done on one thread while others work on theirs.
pub trait Beside {
    /// What one call of `stay` leaves of it.
    ghost stays: { Self → Self → Type 0 };

    /// Does it, until the others have done their work.
    fn stay(&mut self)
        ensures { stays self.old self.new };
}

/// Who answers at a door: one request of each connection.
pub trait Answering {
    /// What one connection leaves of it.
    ghost serves: { Self → Self → Type 0 };

    /// When the request can be answered of which these bytes have come, and no more.
    fn due(&self, came: &[u8]) -> Due;

    /// Answers the one request of a connection, which may take so long to come. The answer is the letter's.
    fn serve_connection(&mut self, stream: &TcpStream, time: Duration, letter: &mut Letter)
        ensures { serves self.old self.new };

    /// Whether an answer may leave: what it says has been done.
    fn may_leave(&self, letter: &Letter) -> bool;

    /// How many milliseconds an answer has to leave once the service has ended.
    fn patience(&self) -> u64;
}

/// One who answers at a door, those who wait there, and the answers that have not left. A caller who sends no request, or reads no
/// answer, keeps nobody from being answered.
#[derive(Drop)]
pub struct Porter<'a, H, K> {
    pub handle: &'a H,
    pub alloc: Global,
    /// Where callers come.
    pub listener: &'a TcpListener,
    /// Where packets come: once nobody serves them any more, nobody is answered.
    pub packets: &'a Door,
    pub answering: K,
    pub callers: Callers,
    pub letters: Letters,
}

impl<H: Wait + Net<Stream = TcpStream> + Clock, K: Answering> Porter<'_, H, K> {
    // Answers the request of a caller. The answer leaves as the connection takes it.
    #[tactic(auto, using(crate::proofs::Repeating::none_repeated, crate::proofs::Repeating::once_repeated))]
    fn answer(&mut self, caller: Caller, now: Instant)
        ensures { Repeats K.serves self.old.answering self.new.answering }
    {
        let Caller {
            stream,
            is_bound,
            ..
        } = caller;
        if stream.set_nonblocking(false).is_err() {
            return;
        }
        let mut letter = Letter::new(self.alloc);
        let time = Duration::from_millis(READING);
        self.answering.serve_connection(&stream, time, &mut letter);
        if stream.set_nonblocking(true).is_ok() {
            self.letters.admit(stream, letter, is_bound, now);
        }
    }

    // Answers those whose requests have come, one after another, and lets those wait who come meanwhile: so whose turn is next has
    // to wait for one answer at most. One of those who were there before is first, since one who comes may take its place.
    #[tactic(auto, using(crate::proofs::Repeating::then_repeated))]
    fn attend(&mut self)
        ensures { Repeats K.serves self.old.answering self.new.answering }
    {
        self.answer_next();
        for _ in 0..MAX_CALLERS {
            self.callers.admit_all(self.listener, self.handle);
            self.send_letters();
            if !self.answer_next() {
                return;
            }
        }
        self.send_letters();
    }

    // Answers one whose request has come, and says whether there was one.
    #[tactic(auto, using(crate::proofs::Repeating::none_repeated, crate::proofs::Repeating::then_repeated))]
    fn answer_next(&mut self) -> bool
        ensures { Repeats K.serves self.old.answering self.new.answering }
    {
        let Ok(now) = Instant::now(self.handle) else {
            return false;
        };
        let Some(caller) = self.callers.next_due(now, &self.answering) else {
            return false;
        };
        self.answer(caller, now);
        true
    }

    // Sends what may leave of the answers.
    fn send_letters(&mut self)
        ensures { self.new.answering ≡ self.old.answering }
    {
        if let Ok(now) = Instant::now(self.handle) {
            self.letters.send_all(now, &self.answering);
        }
    }

    // Whether someone still waits for an answer once nobody serves packets: for the end and its setup, as long as the connection takes
    // it, or for the rest of another answer.
    fn is_bound(&self, since: Option<Instant>) -> bool {
        if self.callers.has_bound() || self.letters.has_bound() {
            return true;
        }
        let waited = match (since, Instant::now(self.handle)) {
            (Some(since), Ok(now)) => millis_of(now.saturating_duration_since(since)),
            _ => u64::MAX,
        };
        self.letters.has_unsent() && waited < self.answering.patience()
    }
}

impl<H: Wait + Net<Stream = TcpStream> + Clock, K: Answering> Beside for Porter<'_, H, K> {
    ghost stays = { λ before after. Repeats K.serves before.answering after.answering };

    // Answers at the door until nobody serves packets any more, and those who waited for that are answered.
    #[tactic(auto, using(crate::proofs::Repeating::none_repeated, crate::proofs::Repeating::then_repeated))]
    fn stay(&mut self) {
        let clock = self.handle;
        let mut over: Option<Instant> = None;
        for _ in clock.forever() {
            let is_over = self.packets.is_deserted();
            if is_over && over.is_none() {
                over = Instant::now(clock).ok();
            }
            self.attend();
            if is_over && !self.is_bound(over) {
                return;
            }
            thread::sleep(clock, Duration::from_millis(PAUSE));
        }
    }
}
