//! A plain count of what went into a book and of its answers, from its beginning on, and the lines that its statements
//! must give. It knows no record, no period and no statement.

use std::alloc::{AllocError, Global};
use tenant_core::{PeerNo, Side};
use test_texts::put;

/// A peer, which is called p0, p1 and so on by its slot, and what came of it, in its units.
#[derive(Clone, Copy)]
pub struct Counted {
    pub slot: u64,
    /// The number that it had first.
    pub first: PeerNo,
    /// The number that it has, unless it is gone.
    pub number: Option<PeerNo>,
    pub came: u64,
    pub fulfilled_in: u64,
    pub settled_in: u64,
    pub went: u64,
    pub fulfilled_out: u64,
    pub settled_out: u64,
    pub fees: u64,
}

/// A packet that went on: the places of its peers among all that were there, and what it is worth to them.
#[derive(Clone, Copy)]
pub struct Sent {
    pub hold: u64,
    pub from: usize,
    pub to: usize,
    pub amount: u64,
    pub price: u64,
    pub fee: u64,
}

/// A route: the slot of its prefix, none of which is the empty one, the slot of its peer, and its fee.
#[derive(Clone, Copy)]
pub struct Led {
    pub prefix: Option<u64>,
    pub slot: u64,
    pub fee: u64,
}

/// All that was counted.
#[derive(Drop)]
pub struct Count {
    pub periods: u64,
    pub entries: u64,
    pub peers: Vec<Counted>,
    pub routes: Vec<Led>,
    /// The packets that await their answers.
    pub awaited: Vec<Sent>,
    next_peer: PeerNo,
}

fn owed(peer: &Counted) -> i128 {
    i128::from(peer.fulfilled_in)
        .saturating_sub(i128::from(peer.fulfilled_out))
        .saturating_sub(i128::from(peer.settled_in))
        .saturating_add(i128::from(peer.settled_out))
}

impl Count {
    /// Nobody and nothing.
    pub fn new(alloc: Global) -> Count {
        Count {
            periods: 0,
            entries: 0,
            peers: Vec::new(alloc),
            routes: Vec::new(alloc),
            awaited: Vec::new(alloc),
            next_peer: 0,
        }
    }

    /// An entry more.
    pub fn enter(&mut self) {
        self.entries = self.entries.saturating_add(1);
    }

    /// A peer more, who owes nothing.
    pub fn add_peer(&mut self, slot: u64) -> Result<(), AllocError> {
        let number = self.next_peer;
        self.next_peer = number.saturating_add(1);
        Ok(
            self.peers.push(Counted {
                slot,
                first: number,
                number: Some(number),
                came: 0,
                fulfilled_in: 0,
                settled_in: 0,
                went: 0,
                fulfilled_out: 0,
                settled_out: 0,
                fees: 0,
            })?,
        )
    }

    /// The place of the slot's peer among all that were there, if it is there.
    pub fn place_of(&self, slot: u64) -> Option<usize> {
        self.peers
            .iter()
            .position(|peer| peer.slot == slot && peer.number.is_some())
    }

    fn place_numbered(&self, number: PeerNo) -> Option<usize> {
        self.peers
            .iter()
            .position(|peer| peer.number == Some(number))
    }

    /// The slot's peer is taken away.
    pub fn remove_peer(&mut self, slot: u64) {
        for peer in self.peers.iter_mut() {
            if peer.slot == slot {
                peer.number = None;
            }
        }
    }

    /// A packet of the slot's peer was recorded.
    pub fn came(&mut self, slot: u64) {
        self.enter();
        if let Some(place) = self.place_of(slot)
            && let Some(peer) = self.peers.get_mut(place)
        {
            peer.came = peer.came.saturating_add(1);
        }
    }

    // The fee of the route for the slot's address: its own route, or that of the empty prefix.
    fn fee(&self, slot: u64) -> u64 {
        let mut fee = 0;
        for route in &self.routes {
            if route.prefix == Some(slot) {
                return route.fee;
            }
            if route.prefix.is_none() {
                fee = route.fee;
            }
        }
        fee
    }

    /// A packet of the slot's peer for the other slot's address went on to the peer of that number.
    pub fn went(
        &mut self,
        (from, to): (u64, u64),
        (hold, number): (u64, PeerNo),
        (amount, price): (u64, u64),
    ) -> Result<(), AllocError> {
        let fee = self.fee(to);
        let (Some(from), Some(to)) = (self.place_of(from), self.place_numbered(number)) else {
            return Ok(());
        };
        if let Some(peer) = self.peers.get_mut(to) {
            peer.went = peer.went.saturating_add(1);
        }
        Ok(
            self.awaited.push(Sent {
                hold,
                from,
                to,
                amount,
                price,
                fee,
            })?,
        )
    }

    /// A packet that went on was answered, and fulfilled or not.
    pub fn answered(&mut self, hold: u64, is_fulfilled: bool) {
        self.enter();
        let Some(sent) = self.awaited.iter().find(|sent| sent.hold == hold).copied() else {
            return;
        };
        self.awaited.retain(|sent| sent.hold != hold);
        if !is_fulfilled {
            return;
        }
        if let Some(peer) = self.peers.get_mut(sent.from) {
            peer.fulfilled_in = peer.fulfilled_in.saturating_add(sent.amount);
        }
        if let Some(peer) = self.peers.get_mut(sent.to) {
            peer.fulfilled_out = peer.fulfilled_out.saturating_add(sent.price);
            peer.fees = peer.fees.saturating_add(sent.fee);
        }
    }

    /// Money was settled with the slot's peer.
    pub fn settled(&mut self, slot: u64, side: Side, amount: u64) {
        if let Some(place) = self.place_of(slot)
            && let Some(peer) = self.peers.get_mut(place)
        {
            match side {
                Side::In => peer.settled_in = peer.settled_in.saturating_add(amount),
                Side::Out => peer.settled_out = peer.settled_out.saturating_add(amount),
            }
        }
    }

    /// What the slot's peer owes.
    pub fn owed_by(&self, slot: u64) -> i128 {
        match self
            .peers
            .iter()
            .find(|peer| peer.slot == slot && peer.number.is_some())
        {
            Some(peer) => owed(peer),
            None => 0,
        }
    }

    /// The service began again: who is there is numbered from 0.
    pub fn begun_again(&mut self) {
        let mut next: PeerNo = 0;
        for peer in self.peers.iter_mut() {
            if peer.number.is_some() {
                peer.number = Some(next);
                next = next.saturating_add(1);
            }
        }
        self.next_peer = next;
    }
}

fn put_number(alloc: Global, text: &mut String, key: &str, number: i128) -> Result<(), AllocError> {
    let digits = number.to_string(alloc)?;
    put(text, &[" ", key, " ", digits.as_str()])
}

fn put_peer(alloc: Global, text: &mut String, peer: &Counted) -> Result<(), AllocError> {
    let (first, slot) = (peer.first.to_string(alloc)?, peer.slot.to_string(alloc)?);
    put(
        text,
        &["peer ", first.as_str(), " p", slot.as_str(), " began 0"],
    )?;
    let ended = if peer.number.is_some() { owed(peer) } else { 0 };
    put_number(alloc, text, "ended", ended)?;
    for (key, number) in [
        ("packets-in", peer.came),
        ("fulfilled-in", peer.fulfilled_in),
        ("settled-in", peer.settled_in),
        ("packets-out", peer.went),
        ("fulfilled-out", peer.fulfilled_out),
        ("settled-out", peer.settled_out),
        ("fees", peer.fees),
    ] {
        put_number(alloc, text, key, i128::from(number))?;
    }
    text.push_str("\n")
}

/// The lines that the statements must give.
pub fn lines_of(alloc: Global, count: &Count) -> Result<String, AllocError> {
    let periods = count.periods.to_string(alloc)?;
    let entries = count.entries.to_string(alloc)?;
    let mut text = String::new(alloc);
    put(
        &mut text,
        &["good ", periods.as_str(), " ", entries.as_str(), "\n"],
    )?;
    for peer in &count.peers {
        put_peer(alloc, &mut text, peer)?;
    }
    Ok(text)
}
