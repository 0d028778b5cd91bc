//! Records as a journal lends them.

ghost use Rattle.std.specs.Prelude.{◌≡◌, ◌≤◌, length, true};
ghost use Rattle.ilp_addr.specs.Address.{max_address};
ghost use Rattle.oer_core.specs.Length.{AreBytes};
ghost use Rattle.tenant_core.specs.Called.{IsOfBytes};
ghost use Rattle.tenant_core.specs.Judge.{decide_entry};
ghost use Rattle.tenant_core.specs.Key.{key_of};
ghost use Rattle.tenant_core.specs.Replay.{is_sayable};
ghost use Rattle.tenant_core.specs.Views.{decide_of};

use crate::journal::{
    AnswerEntry, ChangeEntry, DecideEntry, Entry, Expiry, Outcome, PrepareKey, RollEntry, TickEntry,
};
use common_types::{Bytes, Spare};
use ilp_addr::{Address, Moment};
use route_table::PeerNo;

/// A Prepare that a peer sent, and the moment. Its bytes are borrowed.
#[derive(Clone, Copy)]
pub struct DecideView<'a> {
    pub peer: PeerNo,
    /// In the sender's units.
    pub amount: u64,
    /// Milliseconds since 1970-01-01.
    pub expiry: u64,
    pub condition: &'a [u8; 32],
    /// An address of at most 1,023 bytes.
    pub destination: &'a [u8],
    /// Milliseconds since 1970-01-01.
    pub now: u64,
}

/// One event of a tenant.
#[derive(Clone, Copy)]
pub enum EntryView<'a> {
    Decide(DecideView<'a>),
    Answer(&'a AnswerEntry),
    Tick(TickEntry),
    Change(&'a ChangeEntry),
    /// The last of its period.
    Roll(RollEntry),
}

/// An event and what it led to.
#[derive(Clone, Copy)]
pub struct RecordView<'a> {
    pub entry: EntryView<'a>,
    pub outcome: Outcome,
}

impl DecideView<'_> {
    ghost use Rattle.std.specs.Prelude.{◌≡◌, ◌≤◌, length};
    ghost use Rattle.tenant_core.specs.Views.{decide_of};

    // The same in memory of its own, the destination in that room.
    fn to_entry(&self, spare: Spare) -> DecideEntry
        requires { length self.now.destination.now ≤ spare }
        ensures { result ≡ decide_of self.entry.now }
    {
        DecideEntry {
            peer: self.peer,
            amount: self.amount,
            expiry: self.expiry,
            condition: *self.condition,
            destination: Bytes::from_vec(spare.fill(self.destination)),
            now: self.now,
        }
    }
}

impl EntryView<'_> {
    ghost use Rattle.std.specs.Prelude.{◌≡◌, ◌≤◌};
    ghost use Rattle.ilp_addr.specs.Address.{max_address};
    ghost use Rattle.tenant_core.specs.Views.{entry_of, IsShort};

    /// The same entry, owned: the address or the prefix in it is in that room. It allocates nothing.
    pub fn to_entry(&self, spare: Spare) -> Entry
        requires room { max_address ≤ spare }
        requires short { IsShort self.now }
        ensures { result ≡ entry_of self.now }
    {
        match self {
            EntryView::Decide(decide) => Entry::Decide(decide.to_entry(spare)),
            EntryView::Answer(answer) => Entry::Answer(**answer),
            EntryView::Tick(tick) => Entry::Tick(*tick),
            EntryView::Change(change) => Entry::Change(change.copy_into(spare)),
            EntryView::Roll(roll) => Entry::Roll(*roll),
        }
    }
}

// Each number of the list is a byte.
fn are_bytes(bytes: &[u8])
    ensures { AreBytes bytes.now }
{
    let _first = bytes.first();
}

// What the types of a Prepare's parts keep.
pub(crate) fn is_sayable(
    amount: u64,
    expiry: Expiry,
    condition: &[u8; 32],
    destination: &Address<'_>,
)
    ensures sayable { is_sayable (record {
      amount = amount;
      expiry = expiry;
      condition = condition.now;
      destination = destination.now;
    }) ≡ true }
    ensures condition { AreBytes condition.now }
    ensures destination { AreBytes destination.now }
{
    let _condition = *condition;
    ilp_addr::laws::addresses();
    expiry.get();
    are_bytes(destination.bytes());
}

/// The entry of a Prepare of that peer.
pub fn decide_view<'a>(peer: PeerNo, key: &PrepareKey<'a>, now: Moment) -> DecideView<'a>
    ensures value { decide_of result ≡ decide_entry peer (key_of key.now) now }
    ensures short { length result.destination.now ≤ max_address }
    ensures sayable { is_sayable (key_of key.now) ≡ true }
    ensures octets { IsOfBytes (key_of key.now) }
{
    is_sayable(key.amount, key.expiry, key.condition, key.destination);
    DecideView {
        peer,
        amount: key.amount,
        expiry: key.expiry.get(),
        condition: key.condition,
        destination: key.destination.bytes(),
        now: now.millis(),
    }
}
