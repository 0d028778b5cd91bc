//! Periods that close by themselves and by a command, and their statements.

use super::asked;
use super::crowd::setup_text;
use super::host::{Addresses, DOORLESS, KEPT, METRICS, Manner, STOP, has_line, served_with_host};
use super::wire::packet_by;
use std::alloc::Global;
use std::net::{Net, TcpStream};
use std::process::Abort;
use std::rt::Files;
use std::test::Fail;
use std::{fs, io};

// Where statements are kept, and periods close by themselves at one hundredth of their entries: at 21 of 2,048.
const STATED: Manner = Manner {
    has_operators: true,
    keeps: true,
    roll_at: Some(1),
    ..DOORLESS
};

const ROLL: &[u8] =
    b"POST /acme HTTP/1.1\r\nAuthorization: Bearer root\r\nContent-Length: 4\r\n\r\nroll";

const STATEMENT: &[u8] = b"GET /acme/statements/1 HTTP/1.1\r\nAuthorization: Bearer root\r\n\r\n";

// The metrics after so many packets, the answer to a roll, whether its statement is there by then, and that statement.
fn told_in_turn(
    rt: &(impl Net<Stream = TcpStream> + Files),
    alloc: Global,
    to: Addresses,
    packet: &[u8],
) -> io::Result<(Vec<Vec<u8>>, bool)> {
    for _ in 0..21 {
        asked(rt, alloc, &to.packets, packet)?;
    }
    let mut answers = Vec::new(alloc);
    answers.push(asked(rt, alloc, &to.host, METRICS)?)?;
    answers.push(asked(rt, alloc, &to.operators, ROLL)?)?;
    let is_there = fs::exists(rt, "kept/acme.1.statement")?;
    answers.push(asked(rt, alloc, &to.operators, STATEMENT)?)?;
    asked(rt, alloc, &to.host, STOP)?;
    Ok((answers, is_there))
}

// Whether the answer ends with the bytes of that file.
fn ends_with_file(rt: &(impl Files + AllocGlobal), answer: &[u8], path: &str) -> io::Result<bool> {
    let text = fs::read(rt, path)?;
    Ok(!text.is_empty() && answer.ends_with(text.as_slice()))
}

fn expect_told(rt: &(impl Abort + Files + AllocGlobal), answers: &[Vec<u8>]) -> Result<(), Fail> {
    let [metrics, roll, statement] = answers else {
        return Err("three answers".into());
    };
    assert!(rt;
        has_line(
            str::from_utf8(metrics.as_slice())?,
            "ilpd_period{tenant=\"acme\"} 1"
        )
    );
    assert!(rt; has_line(str::from_utf8(roll.as_slice())?, "acme rolled 1 1"));
    assert!(rt; ends_with_file(rt, statement.as_slice(), "kept/acme.1.statement")?);
    Ok(())
}

#[test]
fn periods_close_and_are_stated(rt: HostRuntime) -> Result<(), Fail> {
    let alloc = rt.alloc();
    fs::create_dir(&rt, KEPT)?;
    let text = setup_text(alloc, 7802)?;
    let packet = packet_by(alloc, "/ilp/acme", "tok-bob", "{config}")?;
    let ask = |to: Addresses| Ok(told_in_turn(&rt, alloc, to, packet.as_slice())?);
    let ((answers, is_there), lines) = served_with_host(&rt, text.as_str(), STATED, ask)?;
    assert!(rt; is_there);
    assert_eq!(rt;
        lines.as_slice(),
        b"acme 200 22 4xx 0 503 0 link 0\nbeta 200 0 4xx 0 503 0 link 0\n".as_slice()
    );
    expect_told(&rt, answers.as_slice())?;
    for file in [
        "kept/acme.0.statement",
        "kept/acme.2.statement",
        "kept/beta.0.statement",
    ] {
        assert!(rt; fs::exists(&rt, file)?, "{file}");
    }
    Ok(())
}
