//! What became of the packets of a tenant's running period, by peer, in the text format of Prometheus (version 0.0.4).

ghost use Rattle.std.specs.Prelude.{◌≡◌, ◌≤◌, ◌++◌, ℕ, OnOk};
ghost use Rattle.books_shared.specs.PeerOutcomes.{count_of_peer, peer_count, peer_numbers};
ghost use Rattle.books_shared.specs.declared.outcomes.PacketOutcome as said;
ghost use Rattle.service.specs.PeerMetrics.{HasPeers, count_line, counts_text, peer_label, peer_line, peer_lines, peers_head, peers_upto};

use crate::host::metrics::{all_outcomes, outcome_word, put_number};
use books_shared::{PacketOutcome, PeerPackets};
use common_types::Name;
use std::alloc::{AllocError, Global};
use tenant_core::{Book, PeerNo};

// The lines before the numbers.
fn head() -> &'static [u8]
    ensures { result.now ≡ peers_head }
{
    b"# HELP ilpd_peer_packets Packets of the running period, by what became of them and the peer that they count for.\n# TYPE ilpd_peer_packets gauge\n"
}

// Whose number it is.
#[tactic(auto, unfolding(crate::specs::PeerMetrics::peer_label))]
fn put_label(text: &mut Vec<u8>, tenant: &Name, peer: &[u8]) -> Result<(), AllocError>
    ensures { OnOk result (text.new.items ≡ text.old.items ++ peer_label tenant.now peer.now) }
{
    text.extend_from_slice(b"ilpd_peer_packets{tenant=\"")?;
    text.extend_from_slice(tenant.as_bytes())?;
    text.extend_from_slice(b"\",peer=\"")?;
    text.extend_from_slice(peer)?;
    text.extend_from_slice(b"\"")
}

// How many packets had an outcome and count for a peer, unless there are none.
#[tactic(auto, unfolding(crate::specs::PeerMetrics::count_line))]
fn put_line(
    alloc: Global,
    text: &mut Vec<u8>,
    tenant: &Name,
    peer: &[u8],
    outcome: PacketOutcome,
    number: u64,
) -> Result<(), AllocError>
    ensures { OnOk result (text.new.items ≡ text.old.items ++ peer_line tenant.now peer.now outcome number) }
{
    if number == 0 {
        return Ok(());
    }
    put_label(text, tenant, peer)?;
    text.extend_from_slice(b",outcome=\"")?;
    text.extend_from_slice(outcome_word(outcome))?;
    text.extend_from_slice(b"\"}")?;
    put_number(alloc, text, number)
}

// The lines of a peer of that name.
fn put_counts(
    alloc: Global,
    text: &mut Vec<u8>,
    tenant: &Name,
    name: &[u8],
    packets: &PeerPackets,
    peer: PeerNo,
) -> Result<(), AllocError>
    ensures { OnOk result (text.new.items ≡ text.old.items ++ counts_text tenant.now name.now (count_of_peer packets.now peer)) }
{
    for outcome in all_outcomes() {
        put_line(
            alloc,
            text,
            tenant,
            name,
            outcome,
            packets.get(peer, outcome),
        )?;
    }
    Ok(())
}

// The lines of the peer of that number, if there is one.
fn put_peer(
    alloc: Global,
    text: &mut Vec<u8>,
    tenant: &Name,
    book: &Book,
    packets: &PeerPackets,
    peer: PeerNo,
) -> Result<(), AllocError>
    requires { (o : said.PacketOutcome) → count_of_peer packets.now peer o ≡ peer_count book.now peer o }
    ensures { OnOk result (text.new.items ≡ text.old.items ++ peer_lines tenant.now book.now peer) }
{
    match book.peer_name(peer) {
        Some(name) => put_counts(alloc, text, tenant, name, packets, peer),
        None => Ok(()),
    }
}

// The lines of the peers below a number, in the order of their numbers.
fn put_upto(
    alloc: Global,
    text: &mut Vec<u8>,
    tenant: &Name,
    book: &Book,
    packets: &PeerPackets,
    bound: usize,
) -> Result<(), AllocError>
    requires counts { (n : ℕ) (o : said.PacketOutcome) → count_of_peer packets.now n o ≡ peer_count book.now n o }
    requires few { bound ≤ peer_numbers }
    ensures { OnOk result (text.new.items ≡ text.old.items ++ peers_upto tenant.now book.now bound) }
{
    for peer in 0..bound {
        put_peer(alloc, text, tenant, book, packets, peer as PeerNo)?;
    }
    Ok(())
}

/// Adds how many packets of a book's running period had which outcome, for each peer that they count for. Fails only if it is out
/// of memory.
pub fn put_peers(
    alloc: Global,
    text: &mut Vec<u8>,
    tenant: &Name,
    book: &Book,
) -> Result<(), AllocError>
    ensures { OnOk result (HasPeers tenant.now book.now text.old.items text.new.items) }
{
    let packets = PeerPackets::of(alloc, book)?;
    text.extend_from_slice(head())?;
    put_upto(alloc, text, tenant, book, &packets, packets.bound())
}
