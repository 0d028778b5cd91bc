//! What is left of a stream: bytes that have come, and then those of its reader.

ghost use Rattle.std.specs.Prelude.{◌≤◌, length};

use crate::devices::Source;
use crate::held::{Held, NOTHING};
use crate::intake::Reach;
use crate::streams::{LinkFault, MAX_READS, fetch};

/// A reader, and a room for the bytes that come from it.
#[derive(Drop)]
pub(crate) struct Stream<'r, 'b, R: Source> {
    pub(crate) reader: &'r mut R,
    pub(crate) room: &'b mut [u8],
    /// How many bytes at the front of the room are kept: those of a body.
    pub(crate) done: usize,
    /// The bytes that have come and were not used, after those that are kept.
    pub(crate) held: Held,
    /// How much of the stream is taken.
    pub(crate) reach: Reach,
    /// How many reads may still be made.
    pub(crate) turns: u32,
    /// How often the reader had failed, as far as that is known.
    pub(crate) failures: u64,
    ghost lies: { (done ≤ held.from) × (held.from ≤ held.to) × (held.to ≤ length room.now) },
    ghost unfailed: { R.failure_count reader.now ≤ failures },
}

impl<'r, 'b, R: Source> Stream<'r, 'b, R> {
    ghost use Rattle.std.specs.Prelude.{◌≡◌, ◌⊎◌, ◌<◌, [], take, Some, Err, IfOk};
    ghost use Rattle.http_link.specs.BodyReading.{ReadsOnlyFor, TakesNext, no_more};
    ghost use Rattle.http_link.specs.Limits.{max_turns};
    ghost use Rattle.http_link.specs.StreamCalls.{KeepsBody, ReadsNoFurther, Reports, held_of, to_come};
    ghost use Rattle.http_link.specs.Streams.{EndsOrNot, FillsOn, PullsNext, ReadsBehind};

    /// A stream of which nothing has come.
    pub(crate) fn new(reader: &'r mut R, room: &'b mut [u8], reach: Reach) -> Stream<'r, 'b, R>
        ensures reader { (result.reader.ghost_name ≡ reader.entry.ghost_name) × (result.reader.now ≡ reader.old) }
        ensures room { (result.room.ghost_name ≡ room.entry.ghost_name) × (result.room.now ≡ room.old) }
        ensures fresh { (result.done ≡ 0) × (result.held.from ≡ 0) × (result.held.to ≡ 0) }
        ensures reach { result.reach ≡ reach }
        ensures turns { result.turns ≡ max_turns }
        ensures failures { result.failures ≡ R.failure_count reader.old }
    {
        let failures = reader.failures();
        Stream {
            reader,
            room,
            done: 0,
            held: NOTHING,
            reach,
            turns: MAX_READS,
            failures,
        }
    }

    /// So many bytes at the front of the room.
    pub(crate) fn front(&self, len: usize) -> &[u8]
        requires { len ≤ length self.now.room.now }
        ensures { result.now ≡ take len self.now.room.now }
    {
        &self.room[..len]
    }

    /// Copies so many bytes from the front of the room to the front of a text.
    pub(crate) fn copy_front(&self, len: usize, text: &mut [u8])
        requires within { (len ≤ length self.now.room.now) × (len ≤ length text.old) }
        ensures len { length text.new ≡ length text.old }
        ensures copied { take len text.new ≡ take len self.now.room.now }
    {
        text[..len].copy_from_slice(self.front(len));
    }

    /// Reads into a part of the room until something has come, and gives how many bytes. At 0 the stream has ended.
    pub(crate) fn fetch(&mut self, at: usize, limit: usize) -> Result<usize, LinkFault>
        requires room { at < limit }
        requires within { limit ≤ length self.old.room.now }
        ensures came { IfOk result (λ n. ReadsBehind (to_come self.old) (to_come self.new) at limit self.old.room.now self.new.room.now (Some n)) }
        ensures same { (self.new.done ≡ self.old.done) × (self.new.held ≡ self.old.held) }
        ensures reports { Reports self.old self.new result }
    {
        let before = self.failures;
        let result = fetch(self.reader, self.room, at, limit, before, &mut self.turns);
        self.failures = before.max(self.reader.failures());
        result
    }

    /// Takes the next byte of the reader, with no use of the room.
    fn fetch_one(&mut self) -> Result<Option<u8>, LinkFault>
        ensures pulled { IfOk result (PullsNext (to_come self.old) (to_come self.new)) }
        ensures same { (self.new.done ≡ self.old.done) × (self.new.held ≡ self.old.held) × (self.new.room.now ≡ self.old.room.now) }
        ensures reports { Reports self.old self.new result }
    {
        let before = self.failures;
        let mut one = [0u8; 1];
        let result = fetch(self.reader, &mut one, 0, 1, before, &mut self.turns);
        self.failures = before.max(self.reader.failures());
        if result? == 0 {
            return Ok(None);
        }
        Ok(Some(one[0]))
    }

    /// Takes the next byte: from those that are held, or else from the reader. Bytes that come with it are held.
    pub(crate) fn next_byte(&mut self) -> Result<Option<u8>, LinkFault>
        ensures kept { KeepsBody self.old self.new result }
        ensures taken { IfOk result (TakesNext (held_of self.old) (to_come self.old) (to_come self.new) (held_of self.new)) }
        ensures at_once { ReadsOnlyFor self.old.reader.now self.new.reader.now result
            (TakesNext (held_of self.old) no_more no_more (held_of self.new)) (held_of self.old ≡ []) }
        ensures exact { ReadsNoFurther self.old self.new }
        ensures reports { Reports self.old self.new result }
    {
        let Held { from, to } = self.held;
        if from < to {
            self.held.from += 1;
            return Ok(Some(self.room[from]));
        }
        let (done, size) = (self.done, self.room.len());
        if done == size {
            return self.fetch_one();
        }
        let n = self.fetch(done, self.reach.limit(done, size))?;
        if n == 0 {
            return Ok(None);
        }
        self.held = Held {
            from: done + 1,
            to: done + n,
        };
        Ok(Some(self.room[done]))
    }

    /// Reads until so many bytes are at the front of the room, which has some already, or until the stream has ended.
    /// Returns how many are there.
    pub(crate) fn read_on(&mut self, had: usize, needed: usize) -> Result<usize, LinkFault>
        requires there { had ≤ length self.old.room.now }
        requires within { needed ≤ length self.old.room.now }
        ensures filled { IfOk result (FillsOn (to_come self.old) (to_come self.new) (take had self.old.room.now) needed self.new.room.now) }
        ensures at_once { needed ≤ had → self.new.reader.now ≡ self.old.reader.now }
        ensures same { (self.new.done ≡ self.old.done) × (self.new.held ≡ self.old.held) }
        ensures reports { Reports self.old self.new result }
    {
        let mut there = had;
        while there < needed {
            let n = self.fetch(there, needed)?;
            if n == 0 {
                return Ok(there);
            }
            there += n;
        }
        Ok(there)
    }

    /// Whether the reader has ended. One byte more is taken from it at most.
    pub(crate) fn has_ended(&mut self) -> Result<bool, LinkFault>
        ensures ended { IfOk result (EndsOrNot (to_come self.old)) }
        ensures same { self.new.room.now ≡ self.old.room.now }
        ensures reports { Reports self.old self.new result }
    {
        Ok(self.fetch_one()?.is_none())
    }
}
