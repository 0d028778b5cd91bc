//! Floors: workers that carry packets for two tenants, crosswise, with their outputs as text.

ghost use Rattle.std.specs.Prelude.{All};
ghost use Rattle.std.specs.Bool.{OnTrue};
ghost use Rattle.floor_core.specs.FloorView.{Fits};

use admin_text::read_setup;
use common_types::Boxed;
use floor_core::{Floor, Octets, Output, PeerAnswer, Step};
use ilp_addr::Moment;
use std::alloc::Global;
use std::process::Abort;
use std::str;
use std::test::Fail;
use tenant_core::{Answered, Command, CommandFault, TenantSetup};
use test_texts::{Line, filled, frame, setup_with};

// 2030-01-01T00:00:00Z, when the books begin.
const START: u64 = 1_893_456_000_000;

// The first tenant, whose journal has room for one packet and its answer.
static ACME: [Line; 1] = [("acme", "journal", "2")];

// The second tenant, whose peers have the tokens of the first one's.
static BETA: [Line; 3] = [
    ("acme", "name", "'beta'"),
    ("acme", "address", "'g.beta'"),
    ("route", "prefix", "'g.beta.bob'"),
];

const TO_BETA: &str = "0c4700000000000003e8{until 10 s}{condition}0c672e626574612e626f622e7800";

// A step of a worker for a tenant, and what it puts out. A packet comes by the token of alice, or the packet `base`
// for acme to the first worker by another token.
enum Row {
    Load(usize, usize, &'static str, &'static str),
    Show(&'static [u8], &'static str),
    Decide(usize, &'static str),
    Answer(usize, &'static str, &'static str),
    Lost(usize, &'static str),
    Tick(usize, &'static str),
    Balances(usize, &'static str),
}

// The bytes of a row's packet or answer, none for a row that has none.
fn bytes_of(alloc: Global, row: &Row) -> Result<Vec<u8>, Fail> {
    match *row {
        Row::Load(_, _, text, _) | Row::Answer(_, text, _) => frame(alloc, text),
        Row::Show(_, _) => frame(alloc, "{base}"),
        _ => Ok(Vec::new(alloc)),
    }
}

fn moment(millis: u64) -> Result<Moment, Fail> {
    Ok(Moment::new(millis).ok_or("a moment")?)
}

fn load<'a>(worker: usize, tenant: usize, token: &'a [u8], bytes: &'a [u8]) -> Step<'a> {
    Step::Load {
        worker,
        tenant,
        token: Octets::of(token),
        bytes: Octets::of(bytes),
    }
}

fn balances<'a>(alloc: Global, tenant: usize, now: Moment) -> Result<Step<'a>, Fail> {
    let command = Boxed::new(alloc, Command::Balances)?;
    Ok(Step::Govern {
        tenant,
        now,
        command,
    })
}

// The step of a row, which has these bytes.
fn step_of<'a>(alloc: Global, row: &Row, bytes: &'a [u8]) -> Result<Step<'a>, Fail> {
    let now = moment(START)?;
    match *row {
        Row::Load(worker, tenant, _, _) => Ok(load(worker, tenant, b"tok-alice", bytes)),
        Row::Show(token, _) => Ok(load(0, 0, token, bytes)),
        Row::Decide(worker, _) => Ok(Step::Decide { worker, now }),
        Row::Answer(worker, _, _) => {
            let given = PeerAnswer::Bytes(Octets::of(bytes));
            Ok(Step::Answer { worker, now, given })
        }
        Row::Lost(worker, _) => {
            let given = PeerAnswer::Fault;
            Ok(Step::Answer { worker, now, given })
        }
        Row::Tick(tenant, _) => Ok(Step::Tick { tenant, now }),
        Row::Balances(tenant, _) => balances(alloc, tenant, now),
    }
}

// The text of a row's output, with names in braces.
fn output_of(row: &Row) -> &'static str {
    match *row {
        Row::Load(_, _, _, output)
        | Row::Show(_, output)
        | Row::Decide(_, output)
        | Row::Answer(_, _, output)
        | Row::Lost(_, output)
        | Row::Tick(_, output)
        | Row::Balances(_, output) => output,
    }
}

// What a peer owes, and what is held from it and for it.
fn balance_text(alloc: Global, row: &tenant_core::Row) -> Result<String, Fail> {
    let name = str::from_utf8(row.name.as_bytes())?;
    let balance = row.balance.to_string(alloc)?;
    let held_in = row.held_in.to_string(alloc)?;
    let held_out = row.held_out.to_string(alloc)?;
    Ok([
        " ",
        name,
        " ",
        balance.as_str(),
        " ",
        held_in.as_str(),
        " ",
        held_out.as_str(),
    ]
    .concat(alloc)?)
}

fn balances_text(alloc: Global, rows: &[tenant_core::Row]) -> Result<String, Fail> {
    let mut text = String::new(alloc);
    for row in rows {
        text.push_str(balance_text(alloc, row)?.as_str())?;
    }
    Ok(text)
}

fn governed_text(alloc: Global, answer: &Result<Answered, CommandFault>) -> Result<String, Fail> {
    match answer {
        Ok(Answered::Balances(rows)) => balances_text(alloc, rows.as_slice()),
        Ok(_) => Err(Fail::from("balances")),
        Err(fault) => Ok(format!(in alloc; " {fault}")?),
    }
}

fn reply_text(alloc: Global, bytes: &[u8]) -> Result<String, Fail> {
    let digits = hex::encode(alloc, bytes)?;
    Ok([" reply ", digits.as_str()].concat(alloc)?)
}

fn sent_text(alloc: Global, peer: &[u8], hold: u64, frame: &[u8]) -> Result<String, Fail> {
    let peer = str::from_utf8(peer)?;
    let hold = hold.to_string(alloc)?;
    let digits = hex::encode(alloc, frame)?;
    Ok([" send ", peer, " ", hold.as_str(), " ", digits.as_str()].concat(alloc)?)
}

// The text of an output after the number of its tenant.
fn rest_of(alloc: Global, output: &Output) -> Result<String, Fail> {
    match output {
        Output::Busy => Ok(String::from_str(alloc, "busy")?),
        Output::Idle => Ok(String::from_str(alloc, "idle")?),
        Output::Loaded { call, .. } => Ok(format!(in alloc; " loaded {call}")?),
        Output::Bad { kind, .. } => Ok(format!(in alloc; " bad {kind:?}")?),
        Output::Stranger { .. } => Ok(String::from_str(alloc, " stranger")?),
        Output::Reply { bytes, .. } => reply_text(alloc, bytes.as_slice()),
        Output::Send {
            peer,
            hold,
            frame,
            ..
        } => sent_text(alloc, peer.as_bytes(), *hold, frame.as_slice()),
        Output::Ticked { answer, .. } => Ok(format!(in alloc; " ticked {answer:?}")?),
        Output::Governed { answer, .. } => governed_text(alloc, answer),
    }
}

fn tenant_of(output: &Output) -> Option<usize> {
    match *output {
        Output::Busy | Output::Idle => None,
        Output::Loaded { tenant, .. }
        | Output::Bad { tenant, .. }
        | Output::Stranger { tenant }
        | Output::Reply { tenant, .. }
        | Output::Send { tenant, .. }
        | Output::Ticked { tenant, .. }
        | Output::Governed { tenant, .. } => Some(tenant),
    }
}

fn text_of(alloc: Global, output: &Output) -> Result<String, Fail> {
    let rest = rest_of(alloc, output)?;
    match tenant_of(output) {
        Some(tenant) => {
            let tenant = tenant.to_string(alloc)?;
            Ok([tenant.as_str(), rest.as_str()].concat(alloc)?)
        }
        None => Ok(rest),
    }
}

// The tenants of the usual setup, so changed.
fn tenants(alloc: Global, changes: &[Line]) -> Result<Vec<TenantSetup>, Fail> {
    let text = setup_with(alloc, changes)?;
    Ok(read_setup(alloc, text.as_bytes())?.tenants.into_vec())
}

// The tenants of both setups.
fn both(alloc: Global, first: &[Line], second: &[Line]) -> Result<Vec<TenantSetup>, Fail> {
    let mut setups = tenants(alloc, first)?;
    for setup in tenants(alloc, second)? {
        setups.push(setup)?;
    }
    Ok(setups)
}

// A floor with two workers.
fn begun(alloc: Global, setups: &[TenantSetup]) -> Result<Floor, Fail> {
    if setups.len() == 0 || setups.len() > 64 {
        return Err(Fail::from("two tenants"));
    }
    Ok(Floor::new(alloc, setups, moment(START)?, 2)?)
}

// Two tenants, and two workers.
fn floor_of(alloc: Global, first: &[Line], second: &[Line]) -> Result<Floor, Fail> {
    let setups = both(alloc, first, second)?;
    begun(alloc, setups.as_slice())
}

fn all_fit(floor: &Floor, steps: &[Step]) -> bool
    ensures { OnTrue result (All (Fits floor.now) steps.now) }
{
    for step in steps {
        if !floor.fits(step) {
            return false;
        }
    }
    true
}

fn run(alloc: Global, floor: &mut Floor, steps: &[Step]) -> Result<Vec<Output>, Fail> {
    if !all_fit(floor, steps) || !floor.room(steps.len()) {
        return Err(Fail::from("steps of the floor"));
    }
    match floor.run(alloc, steps) {
        Ok(outputs) => Ok(outputs),
        Err(_) => Err(Fail::from("memory")),
    }
}

fn all_bytes(alloc: Global, rows: &[Row]) -> Result<Vec<Vec<u8>>, Fail> {
    let mut all = Vec::new(alloc);
    for row in rows {
        all.push(bytes_of(alloc, row)?)?;
    }
    Ok(all)
}

fn all_steps<'a>(alloc: Global, rows: &[Row], all: &'a [Vec<u8>]) -> Result<Vec<Step<'a>>, Fail> {
    let mut steps = Vec::new(alloc);
    for (row, bytes) in rows.iter().zip(all.iter()) {
        steps.push(step_of(alloc, row, bytes.as_slice())?)?;
    }
    Ok(steps)
}

fn outputs_of(alloc: Global, floor: &mut Floor, rows: &[Row]) -> Result<Vec<Output>, Fail> {
    let bytes = all_bytes(alloc, rows)?;
    let steps = all_steps(alloc, rows, bytes.as_slice())?;
    run(alloc, floor, steps.as_slice())
}

fn expect_output(rt: &impl Abort, alloc: Global, output: &Output, row: &Row) -> Result<(), Fail> {
    let told = text_of(alloc, output)?;
    let text = filled(alloc, output_of(row))?;
    assert!(rt; told.as_str() == text.as_str(), "{told} is not {text}");
    Ok(())
}

fn expect_outputs(
    rt: &impl Abort,
    alloc: Global,
    outputs: &[Output],
    rows: &[Row],
) -> Result<(), Fail> {
    assert!(rt; outputs.len() == rows.len());
    for (output, row) in outputs.iter().zip(rows.iter()) {
        expect_output(rt, alloc, output, row)?;
    }
    Ok(())
}

// What a floor of two tenants puts out.
fn expect_rows(rt: &impl Abort, alloc: Global, first: &[Line], rows: &[Row]) -> Result<(), Fail> {
    let mut floor = floor_of(alloc, first, &BETA)?;
    let outputs = outputs_of(alloc, &mut floor, rows)?;
    expect_outputs(rt, alloc, outputs.as_slice(), rows)
}

// Two workers for one tenant: the calls are decided and answered crosswise.
static CROSSWISE: [Row; 13] = [
    Row::Load(0, 0, "{base}", "0 loaded 0"),
    Row::Load(1, 0, "{base}", "0 loaded 1"),
    Row::Load(1, 1, "{base}", "busy"),
    Row::Answer(1, "{fulfill}", "idle"),
    Row::Decide(1, "0 send bob 0 {sent}"),
    Row::Decide(0, "0 send bob 1 {sent}"),
    Row::Decide(0, "idle"),
    Row::Load(0, 0, "{base}", "busy"),
    Row::Lost(0, "0 reply {T01}"),
    Row::Answer(1, "{fulfill}", "0 reply {fulfill}"),
    Row::Answer(1, "{fulfill}", "idle"),
    Row::Load(0, 1, "{base cut}", "1 bad Oer"),
    Row::Balances(0, "0 alice 1000 0 0 bob -1500 0 0"),
];

#[test]
fn two_workers_crosswise(rt: HostRuntime) -> Result<(), Fail> {
    expect_rows(&rt, rt.alloc(), &[], &CROSSWISE)
}

// Two tenants by one worker: the full journal of the first is nothing to the second, whose holds begin at 0.
static APART: [Row; 14] = [
    Row::Load(0, 0, "{base}", "0 loaded 0"),
    Row::Decide(0, "0 send bob 0 {sent}"),
    Row::Lost(0, "0 reply {T01}"),
    Row::Tick(0, "0 ticked Err(Full)"),
    Row::Tick(1, "1 ticked Ok(0)"),
    Row::Load(0, 1, TO_BETA, "1 loaded 0"),
    Row::Decide(
        0,
        "1 send bob 0 0c4700000000000005dc{until 9 s}{condition}0c672e626574612e626f622e7800",
    ),
    Row::Answer(0, "{fulfill}", "1 reply {fulfill}"),
    Row::Load(0, 0, "{base}", "0 loaded 1"),
    Row::Decide(0, "0 reply {T03}"),
    Row::Load(1, 1, "{base}", "1 loaded 1"),
    Row::Decide(
        1,
        "1 reply 0e1746303206672e626574610b756e726561636861626c6500",
    ),
    Row::Balances(0, "0 alice 0 0 0 bob 0 0 0"),
    Row::Balances(1, "1 alice 1000 0 0 bob -1500 0 0"),
];

#[test]
fn two_tenants_apart(rt: HostRuntime) -> Result<(), Fail> {
    expect_rows(&rt, rt.alloc(), &ACME, &APART)
}

// No byte, 65 bytes, and bytes beside those that tokens have: nothing is taken in hand, and no call has a number.
static TOKENS: [Row; 26] = [
    Row::Show(b"", "0 bad Token"),
    Row::Decide(0, "idle"),
    Row::Show(
        b"aaaaaaaaaaaaaaaaaaaaaaaaaaaaaaaaaaaaaaaaaaaaaaaaaaaaaaaaaaaaaaaaa",
        "0 bad Token",
    ),
    Row::Decide(0, "idle"),
    Row::Show(b"tok alice", "0 bad Token"),
    Row::Decide(0, "idle"),
    Row::Show(b"tok-alice\n", "0 bad Token"),
    Row::Decide(0, "idle"),
    Row::Show(b"\0", "0 bad Token"),
    Row::Show(b"*", "0 bad Token"),
    Row::Show(b",", "0 bad Token"),
    Row::Show(b":", "0 bad Token"),
    Row::Show(b"@", "0 bad Token"),
    Row::Show(b"[", "0 bad Token"),
    Row::Show(b"^", "0 bad Token"),
    Row::Show(b"`", "0 bad Token"),
    Row::Show(b"{", "0 bad Token"),
    Row::Show(b"}", "0 bad Token"),
    Row::Show(b"\x7f", "0 bad Token"),
    Row::Show(b"\xc3\xa9", "0 bad Token"),
    Row::Decide(0, "idle"),
    Row::Load(0, 0, "{base}", "0 loaded 0"),
    Row::Decide(0, "0 send bob 0 {sent}"),
    Row::Answer(0, "{fulfill}", "0 reply {fulfill}"),
    Row::Show(
        b"aaaaaaaaaaaaaaaaaaaaaaaaaaaaaaaaaaaaaaaaaaaaaaaaaaaaaa-._~+/=AZ9",
        "0 loaded 1",
    ),
    Row::Decide(0, "0 stranger"),
];

#[test]
fn tokens_that_are_none(rt: HostRuntime) -> Result<(), Fail> {
    expect_rows(&rt, rt.alloc(), &[], &TOKENS)
}
