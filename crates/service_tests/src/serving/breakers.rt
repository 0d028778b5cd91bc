//! A peer that gives no answer, and rests.

use super::asked;
use super::crowd::setup_text;
use super::host::{Addresses, DOORLESS, METRICS, STOP, expect_metrics, has_line, served_with_host};
use super::wire::{is_reply, packet_by};
use std::alloc::Global;
use std::net::{Net, OpenListener, TcpListener, TcpStream};
use std::process::Abort;
use std::test::Fail;
use std::{io, str};

// So many packets are sent, far more than a peer has to miss before it rests.
const PACKETS: usize = 20;

// The answers to the packets, one after another, and then the metrics.
fn told_of_misses(
    net: &impl Net<Stream = TcpStream>,
    alloc: Global,
    to: Addresses,
    packet: &[u8],
) -> io::Result<Vec<Vec<u8>>> {
    let mut answers = Vec::new(alloc);
    for _ in 0..PACKETS {
        answers.push(asked(net, alloc, &to.packets, packet)?)?;
    }
    answers.push(asked(net, alloc, &to.host, METRICS)?)?;
    asked(net, alloc, &to.host, STOP)?;
    Ok(answers)
}

const METRICS_WANTED: &str = "\
ilpd_peers_resting{tenant=\"acme\"} 1
ilpd_peers_resting{tenant=\"beta\"} 0
ilpd_packets_skipped_total{tenant=\"beta\"} 0
ilpd_link_faults_total{tenant=\"acme\"} 20
";

const NONE_SKIPPED: &str = "ilpd_packets_skipped_total{tenant=\"acme\"} 0";

fn expect_rest(rt: &impl Abort, alloc: Global, answers: &[Vec<u8>]) -> Result<(), Fail> {
    let [packets @ .., metrics] = answers else {
        return Err("the metrics".into());
    };
    for answer in packets {
        assert!(rt; is_reply(alloc, answer.as_slice(), "{T01}")?);
    }
    assert!(rt; packets.len() == PACKETS);
    assert!(rt; !has_line(str::from_utf8(metrics.as_slice())?, NONE_SKIPPED));
    expect_metrics(rt, metrics.as_slice(), METRICS_WANTED)
}

// A port at which nobody listens.
fn deserted_port(net: &impl Net<Listener = TcpListener, Stream = TcpStream>) -> io::Result<u16> {
    Ok(TcpListener::bind(net, "127.0.0.1:0")?.local_addr()?.port())
}

// Each packet to such a peer is T01, whether it was sent on or not.
#[test]
fn a_peer_without_answers_rests(rt: HostRuntime) -> Result<(), Fail> {
    let alloc = rt.alloc();
    let text = setup_text(alloc, deserted_port(&rt)?)?;
    let packet = packet_by(alloc, "/ilp/acme", "tok-alice", "{base}")?;
    let ask = |to: Addresses| Ok(told_of_misses(&rt, alloc, to, packet.as_slice())?);
    let (answers, _) = served_with_host(&rt, text.as_str(), DOORLESS, ask)?;
    expect_rest(&rt, alloc, answers.as_slice())
}
