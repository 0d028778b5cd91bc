//! Packets (RFC 0027): frames that were worked out by hand, and frames at their limits.

ghost use Rattle.std.specs.Prelude.{◌≡◌, ◌≤◌, length};

use super::rows::expect;
use ilp_view::{
    FulfillView, PrepareMut, PreparePlaces, PrepareView, RejectView, ViewFault, write_fulfill,
    write_reject,
};
use std::alloc::Global;
use std::process::Abort;
use std::test::Fail;
use test_texts::frame;

// 2030-01-01T00:00:10Z: `date -u -d 2030-01-01T00:00:10 +%s` gives its seconds.
const EXPIRY: u64 = 1_893_456_010_000;

// A frame that is no Prepare, and the fault.
static FAULTY: [(&str, ViewFault); 7] = [
    ("", ViewFault::Kind),
    ("0d00", ViewFault::Kind),
    ("0c80", ViewFault::Oer),
    ("0c89", ViewFault::Oer),
    ("{base cut}", ViewFault::Oer),
    ("{base}00", ViewFault::AfterEnd),
    ("{base in month 13}", ViewFault::Field),
];

// 1,000 units to g.acme.bob.x until 2030-01-01T00:00:10Z, with the condition of 32 zero bytes and no data.
fn is_base(view: &PrepareView<'_>, condition: &[u8]) -> bool {
    view.amount() == 1000
        && view.expiry() == EXPIRY
        && view.condition() == condition
        && view.destination().bytes() == b"g.acme.bob.x".as_slice()
        && view.payload().is_empty()
}

// The same of what is kept of a Prepare without its frame.
fn keeps_base(frame: &[u8], condition: &[u8]) -> Result<bool, ViewFault> {
    let places = PreparePlaces::read(frame)?;
    let fields = places.fields(frame);
    Ok(
        fields.amount == 1000
            && fields.expiry == EXPIRY
            && fields.condition == condition
            && fields.destination.bytes() == b"g.acme.bob.x".as_slice(),
    )
}

// Writes 1,500 units until 2030-01-01T00:00:09Z into a Prepare.
fn forward(frame: &mut [u8]) -> Result<(), ViewFault> {
    let mut prepare = PrepareMut::read(frame)?;
    let (amount, expiry) = prepare.lend();
    amount.copy_from_slice(&1500u64.to_be_bytes());
    expiry.copy_from_slice(b"20300101000009000");
    Ok(())
}

fn expect_forwarded(
    rt: &impl Abort,
    frame: &mut [u8],
    condition: &[u8],
    sent_on: &[u8],
) -> Result<(), ViewFault> {
    assert!(rt; is_base(&PrepareView::read(frame)?, condition));
    assert!(rt; keeps_base(frame, condition)?);
    forward(frame)?;
    assert!(rt; *frame == *sent_on);
    Ok(())
}

#[test]
fn prepares(rt: HostRuntime) -> Result<(), Fail> {
    let alloc = rt.alloc();
    let condition = frame(alloc, "{condition}")?;
    for (came, sent_on) in [("{base}", "{sent}"), ("{long}", "{long sent}")] {
        let mut came = frame(alloc, came)?;
        let sent_on = frame(alloc, sent_on)?;
        expect_forwarded(&rt, &mut came, &condition, &sent_on)?;
    }
    Ok(())
}

fn expect_faulty(rt: &impl Abort, alloc: Global, rows: &[(&str, ViewFault)]) -> Result<(), Fail> {
    for (text, fault) in rows {
        let bytes = frame(alloc, text)?;
        expect(
            rt,
            text.as_bytes(),
            PrepareView::read(&bytes).err() == Some(*fault),
        );
        expect(
            rt,
            text.as_bytes(),
            PreparePlaces::read(&bytes).err() == Some(*fault),
        );
    }
    Ok(())
}

#[test]
fn frames_that_are_no_prepares(rt: HostRuntime) -> Result<(), Fail> {
    let alloc = rt.alloc();
    expect_faulty(&rt, alloc, &FAULTY)?;
    let large = vec![in alloc; 0x0c; 34_001]?;
    assert!(rt; PrepareView::read(&large).err() == Some(ViewFault::Size));
    Ok(())
}

// The front of a Prepare: the type, the length of its contents in two bytes, an amount of 0, until 2030-01-01, a
// condition of zeros, to g.a, and the length of its data in two bytes.
const FRONT: usize = 68;

fn prepare(frame: &mut [u8], data: usize)
    requires { FRONT ≤ length frame.old }
    ensures { length frame.new ≡ length frame.old }
{
    let contents = frame.len() - 4;
    frame[0] = 0x0c;
    frame[1] = 0x82;
    frame[2] = (contents / 256 % 256) as u8;
    frame[3] = (contents % 256) as u8;
    for (i, digit) in b"20300101000000000".iter().enumerate() {
        frame[12 + i] = *digit;
    }
    for (i, byte) in b"\x03g.a".iter().enumerate() {
        frame[61 + i] = *byte;
    }
    frame[65] = 0x82;
    frame[66] = (data / 256 % 256) as u8;
    frame[67] = (data % 256) as u8;
}

#[test]
fn prepares_at_their_limits(rt: HostRuntime) -> Result<(), Fail> {
    let rows = [
        (FRONT + 32_768, 32_768, None),
        (FRONT + 32_769, 32_769, Some(ViewFault::Size)),
        (34_000, 32_768, None),
        (34_001, 32_768, Some(ViewFault::Size)),
        (FRONT + 32_767, 32_768, Some(ViewFault::Oer)),
        (FRONT, 0, None),
    ];
    for (size, data, fault) in rows {
        let mut frame = vec![in rt.alloc(); 0; size]?;
        assert!(rt; frame.len() == size && size >= FRONT);
        prepare(&mut frame, data);
        match PrepareView::read(frame.as_slice()) {
            Ok(view) => {
                assert!(rt; fault.is_none(), "{size}");
                assert!(rt; view.payload().len() == data);
            }
            Err(found) => assert!(rt; Some(found) == fault, "{size}"),
        }
    }
    Ok(())
}

const AMOUNTS: &[u8; 16] = b"\0\0\0\0\0\0\x03\xe8\0\0\0\0\0\0\x03\xe7";

type Reject = (
    &'static str,
    &'static [u8],
    &'static [u8],
    &'static [u8],
    &'static [u8],
);

// A Reject, and its code, sender, message and data.
static REJECTS: [Reject; 3] = [
    ("0e074630300001ff00", b"F00", b"", b"\xff", b""),
    ("0e0746303001410000", b"F00", b"A", b"", b""),
    (
        "{F08 1000 999}",
        b"F08",
        b"g.acme",
        b"amount too large",
        AMOUNTS,
    ),
];

fn expect_rejects(rt: &impl Abort, alloc: Global, rows: &[Reject]) -> Result<(), Fail> {
    for (text, code, triggered_by, message, payload) in rows {
        let bytes = frame(alloc, text)?;
        let view = RejectView::read(&bytes)?;
        assert!(rt; view.code() == *code);
        assert!(rt; view.triggered_by() == *triggered_by);
        assert!(rt; view.message() == *message);
        assert!(rt; view.payload() == *payload);
    }
    Ok(())
}

// The result of writing the last of the Rejects.
fn write_last(out: &mut [u8]) -> Result<usize, ViewFault> {
    ilp_view::laws::written_frames_are_short();
    write_reject(out, b"F08", b"g.acme", b"amount too large", AMOUNTS)
}

fn expect_last_written(rt: &impl Abort, alloc: Global) -> Result<(), Fail> {
    let mut expected = frame(alloc, "{F08 1000 999}")?;
    expected.push(9)?;
    let mut out = vec![in alloc; 9; 47]?;
    assert!(rt; write_last(&mut out) == Ok(46));
    assert!(rt; out == expected);
    Ok(())
}

#[test]
fn rejects(rt: HostRuntime) -> Result<(), Fail> {
    let alloc = rt.alloc();
    expect_rejects(&rt, alloc, &REJECTS)?;
    expect_last_written(&rt, alloc)?;
    let mut little = [9; 45];
    assert!(rt; write_last(&mut little) == Err(ViewFault::Short));
    assert!(rt; little == [9; 45]);
    Ok(())
}

fn expect_fulfill(rt: &impl Abort, frame: &[u8]) -> Result<(), Fail> {
    let view = FulfillView::read(frame)?;
    assert!(rt; view.fulfillment() == [0; 32].as_slice());
    assert!(rt; view.payload().is_empty());
    Ok(())
}

fn fault_of_fulfill(frame: &[u8]) -> Option<ViewFault> {
    FulfillView::read(frame).err()
}

#[test]
fn fulfills(rt: HostRuntime) -> Result<(), Fail> {
    let mut extended = [0; 36];
    extended[0] = 0x0d;
    extended[1] = 0x22;
    extended[35] = 0x55;
    expect_fulfill(&rt, &extended)?;
    let mut out = [9; 36];
    assert!(rt; write_fulfill(&mut out, &[0; 32], b"") == Ok(35));
    extended[1] = 0x21;
    extended[35] = 9;
    assert!(rt; out == extended);
    assert!(rt; fault_of_fulfill(&out) == Some(ViewFault::AfterEnd));
    assert!(rt; fault_of_fulfill(&frame(rt.alloc(), "{base}")?) == Some(ViewFault::Kind));
    Ok(())
}
