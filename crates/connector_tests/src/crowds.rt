//! Many tenants and many workers, through replays.

use crate::rows::{expect_rows, expect_rows_by, expect_written_by, written_by};
use admin_text::{SetupFault, read_setup};
use common_types::ReadError;
use std::alloc::{AllocError, Global};
use std::process::Abort;
use std::test::Fail;
use test_texts::{filled, put};

static TENANTS: &str = "\
== two tenants by one worker
| acme|journal|2
| beta
>> alice|{wide}|{T}|send bob 0 {wide sent}
> answer 0 {T} fault
acme reply {T01}
> load 0 beta tok-alice {for beta}
beta loaded 0
> decide 0 {T}
beta send bob 0 {for beta sent}
> answer 0 {T} {fulfill}
beta reply {fulfill}
>> alice|{base}|{T}|reply {T03}
> do beta {T} balances
beta balance alice 1000 0 0
beta balance bob -1500 0 0
beta ok
== the second tenant's own steps alone
| acme|journal|2
| beta
> load 0 beta tok-alice {for beta}
> decide 0 {T}
> answer 0 {T} {fulfill}
> do beta {T} balances
beta loaded 0
beta send bob 0 {for beta sent}
beta reply {fulfill}
beta balance alice 1000 0 0
beta balance bob -1500 0 0
beta ok
== a token of another tenant
| acme|journal|2
| beta
| beta alice|token|'tok-other'
> load 0 beta tok-alice {for beta}
beta loaded 0
> decide 0 {T}
beta stranger
>> alice|{base}|{T}|send bob 0 {sent}
== moments of one tenant are not those of another
| acme|journal|2
| beta
> tick acme {T+10000}
> load 0 beta tok-alice {for beta}
> decide 0 {T}
> answer 0 {T} {fulfill}
acme ticked 0
beta loaded 0
beta send bob 0 {for beta sent}
beta reply {fulfill}
";

static NEIGHBOURS: &str = "\
== a neighbour whose journal is full, who goes to the last moment, and takes its peer and its route away
| acme|journal|2
| beta
> load 1 acme tok-alice {wide}
acme loaded 0
> load 0 beta tok-alice {for beta}
beta loaded 0
> decide 1 {T}
acme send bob 0 {wide sent}
> tick acme 253400000000000
acme refused full
> load 1 acme tok-alice 0c80
- busy
> decide 0 {T}
beta send bob 0 {for beta sent}
> load 0 acme tok-alice {base}
- busy
> load 0 acme tok-none {base}
- busy
> decide 0 {T}
- idle
> answer 1 {T} fault
acme reply {T01}
> load 1 acme tok-alice 0c80
acme bad oer
> load 1 acme tok-none {base}
acme loaded 1
> decide 1 {T}
acme stranger
> load 1 acme tok-alice {wide}
acme loaded 2
> decide 1 {T}
acme reply {T03}
> do acme {T} peer limits alice 0 0 0
acme refused full
> do acme {T} roll
acme balance alice 0 0 0
acme balance bob 0 0 0
acme rolled 0 3
> do acme {T} peer limits alice 0 0 0
acme ok
> tick acme 253400000000000
acme ticked 0
> do acme {T} roll
acme balance alice 0 0 0
acme balance bob 0 0 0
acme rolled 1 3
> do acme {T} route remove g.acme.bob
acme ok
> do acme {T} peer remove bob
acme ok
> answer 0 {T} {fulfill}
beta reply {fulfill}
>> alice|{wide}|{T}|reply {T03}
> do beta {T} balances
beta balance alice 1000 0 0
beta balance bob -1500 0 0
beta ok
";

static WORKERS: &str = "\
== two calls crosswise
> load 0 acme tok-alice {base}
> load 1 acme tok-alice {base}
> answer 1 {T} {fulfill}
> decide 1 {T}
> decide 0 {T}
> answer 0 {T} fault
> answer 1 {T} {fulfill}
> do acme {T} balances
acme loaded 0
acme loaded 1
- idle
acme send bob 0 {sent}
acme send bob 1 {sent}
acme reply {T01}
acme reply {fulfill}
acme balance alice 1000 0 0
acme balance bob -1500 0 0
acme ok
== a worker is free after a bad frame and not before an answer
> load 1 acme tok-alice 0c80
acme bad oer
> decide 1 {T}
- idle
> load 1 acme tok-alice {base}
acme loaded 0
> decide 1 {T}
acme send bob 0 {sent}
> load 1 acme tok-alice {base}
- busy
>> alice|{base}|{T}|send bob 1 {sent}
";

#[test]
fn tenants_and_workers_are_told_apart(rt: HostRuntime) -> Result<(), Fail> {
    let alloc = rt.alloc();
    expect_rows(&rt, alloc, TENANTS)?;
    expect_rows_by(&rt, alloc, 2, WORKERS)?;
    expect_rows_by(&rt, alloc, 2, NEIGHBOURS)?;
    Ok(())
}

const LIMITS: &str = "\
role = \"peer\"\nurl = \"http://127.0.0.1/\"\nout_token = \"out\"\nasset = \"USD\"\nscale = 2\n\
cap = 1500\nceiling = 2000\ncredit = 3000\nburst = 2\nper_second = 0\n";

const WAY: &str = "[[tenant.route]]\nprefix = \"*\"\npeer = \"bob\"\n\
[[tenant.rate]]\nfrom = \"alice\"\nto = \"bob\"\nnum = 3\nden = 2\n";

fn put_peer(setup: &mut String, name: &str) -> Result<(), AllocError> {
    put(
        setup,
        &[
            "[[tenant.peer]]\nname = \"",
            name,
            "\"\ntoken = \"tok-",
            name,
            "\"\n",
            LIMITS,
        ],
    )
}

fn put_tenant(setup: &mut String, number: &str) -> Result<(), AllocError> {
    put(
        setup,
        &[
            "[[tenant]]\nname = \"t",
            number,
            "\"\naddress = \"g.t",
            number,
            "\"\nadmin = \"root\"\n",
        ],
    )?;
    put_peer(setup, "alice")?;
    put_peer(setup, "bob")?;
    put(setup, &[WAY])
}

// A setup of so many tenants, each of whom sends everything to bob, at 3/2.
fn crowd(alloc: Global, tenants: usize) -> Result<String, Fail> {
    let mut setup = String::from_str(alloc, "version = 1\nstart = 1893456000000\n")?;
    for tenant in 0..tenants {
        let number = tenant.to_string(alloc)?;
        put_tenant(&mut setup, number.as_str())?;
    }
    Ok(setup)
}

// The digits of a worker, of the tenant whose packet it takes in that round, and of the round.
#[derive(Drop)]
struct Turn {
    worker: String,
    tenant: String,
    round: String,
}

fn turn_of(alloc: Global, worker: usize, round: usize) -> Result<Turn, Fail> {
    let tenant = worker.saturating_add(round) % 64;
    Ok(Turn {
        worker: worker.to_string(alloc)?,
        tenant: tenant.to_string(alloc)?,
        round: round.to_string(alloc)?,
    })
}

fn put_load(script: &mut String, lines: &mut String, turn: &Turn) -> Result<(), AllocError> {
    let (worker, tenant) = (turn.worker.as_str(), turn.tenant.as_str());
    put(
        script,
        &["load ", worker, " t", tenant, " tok-alice {base}\n"],
    )?;
    put(lines, &["t", tenant, " loaded ", turn.round.as_str(), "\n"])
}

fn put_decide(script: &mut String, lines: &mut String, turn: &Turn) -> Result<(), AllocError> {
    put(script, &["decide ", turn.worker.as_str(), " {T}\n"])?;
    let (tenant, round) = (turn.tenant.as_str(), turn.round.as_str());
    put(lines, &["t", tenant, " send bob ", round, " {sent}\n"])
}

fn put_answer(script: &mut String, lines: &mut String, turn: &Turn) -> Result<(), AllocError> {
    put(
        script,
        &["answer ", turn.worker.as_str(), " {T} {fulfill}\n"],
    )?;
    put(lines, &["t", turn.tenant.as_str(), " reply {fulfill}\n"])
}

// Each worker takes a packet of a tenant; all are decided, the last worker's first; and all are answered.
fn put_round(
    alloc: Global,
    script: &mut String,
    lines: &mut String,
    round: usize,
) -> Result<(), Fail> {
    for worker in 0..64 {
        put_load(script, lines, &turn_of(alloc, worker, round)?)?;
    }
    for place in 0..64 {
        put_decide(script, lines, &turn_of(alloc, 63 - place, round)?)?;
    }
    for worker in 0..64 {
        put_answer(script, lines, &turn_of(alloc, worker, round)?)?;
    }
    Ok(())
}

// Two rounds: in the second round each worker takes a packet of the next tenant.
fn put_rounds(alloc: Global, script: &mut String, lines: &mut String) -> Result<(), Fail> {
    put_round(alloc, script, lines, 0)?;
    put_round(alloc, script, lines, 1)
}

fn expect_rounds(rt: &impl Abort, alloc: Global, setup: &str) -> Result<(), Fail> {
    let mut script = String::new(alloc);
    let mut lines = String::new(alloc);
    put_rounds(alloc, &mut script, &mut lines)?;
    let script = filled(alloc, script.as_str())?;
    let lines = filled(alloc, lines.as_str())?;
    expect_written_by(rt, alloc, 64, setup, script.as_str(), lines.as_str())
}

fn fault_of(alloc: Global, setup: &str) -> Option<ReadError<SetupFault>> {
    read_setup(alloc, setup.as_bytes()).err()
}

#[test]
fn sixty_four_tenants_and_workers(rt: HostRuntime) -> Result<(), Fail> {
    let alloc = rt.alloc();
    let setup = crowd(alloc, 64)?;
    expect_rounds(&rt, alloc, setup.as_str())?;
    let setup = crowd(alloc, 65)?;
    let found = fault_of(alloc, setup.as_str());
    assert!(rt; found == Some(ReadError::Fault(SetupFault::Tenant(64))));
    Ok(())
}
