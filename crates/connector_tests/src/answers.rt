//! Packets that come back, and packets that are overdue: the sender gets one answer, and each hold ends
//! once.

use crate::rows::{expect_rows, expect_written};
use std::alloc::Global;
use std::process::Abort;
use std::test::Fail;
use test_texts::{filled, setup_with};

static ANSWERS: &str = "\
== a Fulfill goes back as it came, once
>> alice|{base}|{T}|send bob 0 {sent}
> answer 0 {T} {fulfill}
acme reply {fulfill}
> answer 0 {T} {fulfill}
- idle
== a Fulfill of another condition
>> alice|{base}|{T}|send bob 0 {sent}
> answer 0 {T} {fulfill of another condition}
acme reply {F05}
>> alice|{base}|{T}|send bob 1 {sent}
== no answer, and bytes that are none
>> alice|{base}|{T}|send bob 0 {sent}
> answer 0 {T} fault
acme reply {T01}
>> alice|{base}|{T}|send bob 1 {sent}
> answer 0 {T} -
acme reply {T01}
>> alice|{base}|{T}|send bob 2 {sent}
> answer 0 {T} {fulfill cut}
acme reply {T01}
>> alice|{base}|{T}|send bob 3 {sent}
> answer 0 {T} {base}
acme reply {T01}
== Rejects go back as they came, in long spellings and with bytes after the data too
>> alice|{base}|{T}|send bob 0 {sent}
> answer 0 {T} 0e06ff0000000000
acme reply 0e06ff0000000000
>> alice|{base}|{T}|send bob 1 {sent}
> answer 0 {T} 0e0746303001410000
acme reply 0e0746303001410000
>> alice|{base}|{T}|send bob 2 {sent}
> answer 0 {T} 0e8106ff0000000000
acme reply 0e8106ff0000000000
>> alice|{base}|{T}|send bob 3 {sent}
> answer 0 {T} 0e08ff00000000005555
acme reply 0e08ff00000000005555
== an answer before the outgoing expiry
>> alice|{base}|{T}|send bob 0 {sent}
> answer 0 {T+8999} {fulfill}
acme reply {fulfill}
== an answer at the outgoing expiry
>> alice|{base}|{T}|send bob 0 {sent}
> answer 0 {T+9000} {fulfill}
acme reply {R00}
== a tick marks what is overdue, once, and an answer after it is late
>> alice|{base}|{T}|send bob 0 {sent}
> tick acme {T+8999}
acme ticked 0
> tick acme {T+9000}
acme ticked 1
> tick acme {T+9000}
acme ticked 0
> answer 0 {T+9000} {fulfill}
acme reply {R00}
== after the mark a Reject is late too, at a moment that goes back
>> alice|{base}|{T}|send bob 0 {sent}
> tick acme {T+9000}
acme ticked 1
> answer 0 {T} 0e06ff0000000000
acme reply {R00}
== after the mark no answer is late too
>> alice|{base}|{T}|send bob 0 {sent}
> tick acme {T+9000}
acme ticked 1
> answer 0 {T+9000} fault
acme reply {R00}
== a full journal takes no tick, and the clock stays
| acme|journal|2
>> alice|{base}|{T}|send bob 0 {sent}
> tick acme {T+10000}
acme refused full
> answer 0 {T} {fulfill}
acme reply {fulfill}
>> alice|{base}|{T}|reply {T03}
== an idle worker has nothing to answer, and one that has loaded neither
> answer 0 {T} {fulfill}
> load 0 acme tok-alice {base}
> answer 0 {T} {fulfill}
> tick acme {T}
> decide 0 {T}
- idle
acme loaded 0
- idle
acme ticked 0
acme send bob 0 {sent}
";

#[test]
fn answers_and_ticks(rt: HostRuntime) -> Result<(), Fail> {
    expect_rows(&rt, rt.alloc(), ANSWERS)
}

// A Fulfill of the packet that went on: that first part, and so many zeros after it.
fn fulfill_with_zeros(alloc: Global, head: &str, zeros: usize) -> Result<String, Fail> {
    let zeros = "00".repeat(alloc, zeros)?;
    Ok([head, zeros.as_str()].concat(alloc)?)
}

// The reply to the sender, if that is the answer to the packet that went on.
fn expect_reply(rt: &impl Abort, alloc: Global, answer: &str, reply: &str) -> Result<(), Fail> {
    let setup = setup_with(alloc, &[])?;
    let asked = "load 0 acme tok-alice {base}\ndecide 0 {T}\nanswer 0 {T} ";
    let script = [asked, answer].concat(alloc)?;
    let script = filled(alloc, script.as_str())?;
    let sent = "acme loaded 0\nacme send bob 0 {sent}\nacme reply ";
    let lines = [sent, reply, "\n"].concat(alloc)?;
    let lines = filled(alloc, lines.as_str())?;
    expect_written(rt, alloc, setup.as_str(), script.as_str(), lines.as_str())
}

#[test]
fn an_answer_has_at_most_34_000_bytes(rt: HostRuntime) -> Result<(), Fail> {
    let alloc = rt.alloc();
    let longest = fulfill_with_zeros(alloc, "0d8284cc", 33_996)?;
    expect_reply(&rt, alloc, longest.as_str(), longest.as_str())?;
    let longer = fulfill_with_zeros(alloc, "0d8284cd", 33_997)?;
    expect_reply(&rt, alloc, longer.as_str(), "{T01}")
}
