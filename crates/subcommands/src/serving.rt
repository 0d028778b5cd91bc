//! What `serve` does before and with the service: its listeners, its folder, its clock, and a line for each door.

ghost use Rattle.std.specs.Prelude.{◌≤◌, length, IfOk};
ghost use Rattle.allotment.specs.Loans.{max_places};
ghost use Rattle.books_shared.specs.Gathers.{max_workers};
ghost use Rattle.tenant_core.specs.Limits.{max_tenants};

use crate::beginning::{Beginning, begin, expect_fit, open_journal};
use crate::checking::printing;
use crate::clock::SystemClock;
use crate::ending::Ending;
use crate::files::{cannot, say_cannot, setup_in, token_in};
use crate::folder::{expect_folder, expect_going_on};
use crate::verifying::memory_refused;
use admin_text::Setup;
use command_line::CommandLine;
use log_folder::LogFolder;
use replay_text::ReplayFault;
use service::{
    Disk, Doors, Extent, HostDoor, OperatorDoor, Plan, Start, can_open, files_of, serve,
};
use std::alloc::AllocError;
use std::fs::File;
use std::io;
use std::net::{Net, SocketAddr, TcpListener, TcpStream};
use std::rt::Files;
use std::sync::Wait;
use std::thread::Threads;
use std::time::Clock;

// Says on standard error that there are only so many of something for so many others, and the effect.
fn complain(
    rt: &(impl Eprint + AllocGlobal),
    few: usize,
    of: &str,
    many: usize,
    effect: &str,
) -> Result<(), AllocError> {
    let alloc = rt.alloc();
    let (few, many) = (few.to_string(alloc)?, many.to_string(alloc)?);
    let mut text = String::new(alloc);
    for part in [
        "ilpd: ",
        few.as_str(),
        " ",
        of,
        " for ",
        many.as_str(),
        " ",
        effect,
    ] {
        text.push_str(part)?;
    }
    let _ = rt.eprintln(text.as_str());
    Ok(())
}

// Says on standard error if a service is too small for what it promises its tenants, if there is memory for the words.
fn warn(rt: &(impl Eprint + AllocGlobal), extent: Extent, tenants: usize) {
    let Extent {
        workers,
        connections,
        ..
    } = extent;
    if workers < tenants {
        let effect = "tenants: no tenant is sure of one";
        let _ = complain(rt, workers, "workers", tenants, effect);
    }
    if connections <= workers {
        let effect = "workers: peers that hang can keep all of them";
        let _ = complain(rt, connections, "connections", workers, effect);
    }
}

// Why a word is not an address to listen on.
const NO_ADDRESS: &str = "not an address: an IP address and a port, as 127.0.0.1:7768";

// A listener on an address, which is an IP address and a port.
fn listener_on<R: Net<Listener = TcpListener, Stream = TcpStream> + Print + AllocGlobal>(
    rt: &R,
    address: &str,
) -> Result<TcpListener, Ending> {
    let Ok(parsed) = address.parse::<SocketAddr>() else {
        say_cannot(rt, "listen on", address, NO_ADDRESS);
        return Err(Ending::Fault(ReplayFault::Device));
    };
    TcpListener::bind(rt, parsed).map_err(|error| cannot(rt, "listen on", address, &error))
}

/// How many files a service with a journal has open for it: its log, and the lock twice.
const JOURNAL_FILES: usize = 3;

/// How many of them are open before it is begun: the lock.
const LOCK_FILES: usize = 1;

// Says in a line on standard output what to do if so many files can't be open at once, and those of a journal if there is one.
fn expect_files(
    rt: &(impl Print + AllocGlobal),
    listener: &TcpListener,
    others: usize,
    has_journal: bool,
) -> Result<(), Ending> {
    let (more, open) = if has_journal {
        (JOURNAL_FILES, LOCK_FILES)
    } else {
        (0, 0)
    };
    let files = others.saturating_add(more);
    match can_open(rt.alloc(), listener, files.saturating_sub(open)) {
        Ok(true) => Ok(()),
        Ok(false) => {
            let _ = println!(rt;
                "ilpd: cannot have {files} files open at once: raise the limit of open files, as by 'ulimit -n {files}' or LimitNOFILE={files}, or ask for fewer --connections"
            );
            Err(Ending::Fault(ReplayFault::Device))
        }
        Err(AllocError) => Err(Ending::Fault(ReplayFault::Memory)),
    }
}

/// What a service is to begin with, of which nothing is written yet: its setup, that as a text, and the folder of its journal, if
/// it keeps one.
#[derive(Drop)]
struct Ready<'t, 'x, R> {
    setup: Setup,
    text: &'t [u8],
    folder: Option<LogFolder<'x, R>>,
}

// Looks at the setup, the folder of the journal, and that of statements.
fn ready_with<'t, 'x, R: Files<File = File> + Print + AllocGlobal>(
    rt: &'x R,
    text: &'t [u8],
    plan: Plan<'_>,
    line: &CommandLine<'x>,
) -> Result<Ready<'t, 'x, R>, Ending>
    ensures { IfOk result (λ ready. (1 ≤ length ready.setup.tenants) × (length ready.setup.tenants ≤ max_tenants)) }
{
    let setup = setup_in(rt.alloc(), text)?;
    let folder = match line.journal {
        Some(path) => Some(open_journal(rt, path, line.setup, text)?),
        None => None,
    };
    let goes_on = match &folder {
        Some(folder) => folder.newest().is_some(),
        None => false,
    };
    match plan.statements {
        Some(path) if goes_on => expect_going_on(rt, path)?,
        Some(path) => expect_folder(rt, path, &setup, plan.report.audit)?,
        None => {}
    }
    Ok(Ready {
        setup,
        text,
        folder,
    })
}

/// Serves the setup at the doors that the command line names.
pub fn serve_at<
    'x,
    R: Net<Listener = TcpListener, Stream = TcpStream>
        + Files<File = File>
        + Disk
        + Threads
        + Wait
        + Clock
        + Print
        + Eprint
        + AllocGlobal
        + Sync,
>(rt: &'x R, setup: &[u8], plan: Plan<'_>, line: &CommandLine<'x>) -> Result<(), Ending>
    requires workers { (1 ≤ plan.extent.workers) × (plan.extent.workers ≤ max_places) }
    requires connections { (1 ≤ plan.extent.connections) × (plan.extent.connections ≤ max_workers) }
{
    let ready = ready_with(rt, setup, plan, line)?;
    let Some(words) = line.host else {
        let packets = listener_on(rt, line.address)?;
        return serve_with(rt, ready, plan, line, &packets, None);
    };
    let token = token_in(rt, words.token_file)?;
    let packets = listener_on(rt, line.address)?;
    let listener = listener_on(rt, words.address)?;
    let door = HostDoor::new(&listener, &token, &packets).map_err(printing)?;
    serve_with(rt, ready, plan, line, &packets, Some(door))
}

// Serves at the doors of packets and of the host, and at that of operators if the command line names one.
fn serve_with<
    R: Net<Listener = TcpListener, Stream = TcpStream>
        + Files<File = File>
        + Disk
        + Threads
        + Wait
        + Clock
        + Print
        + Eprint
        + AllocGlobal
        + Sync,
>(
    rt: &R,
    ready: Ready<'_, '_, R>,
    plan: Plan<'_>,
    line: &CommandLine<'_>,
    packets: &TcpListener,
    host: Option<HostDoor<'_>>,
) -> Result<(), Ending>
    requires workers { (1 ≤ plan.extent.workers) × (plan.extent.workers ≤ max_places) }
    requires connections { (1 ≤ plan.extent.connections) × (plan.extent.connections ≤ max_workers) }
{
    let (doors, has_journal) = (u8::from(host.is_some()), ready.folder.is_some());
    let Some(address) = line.operators else {
        expect_files(rt, packets, files_of(plan.extent, doors), has_journal)?;
        return serve_by(rt, ready, plan, line, packets, host, None);
    };
    let listener = listener_on(rt, address)?;
    let operators = OperatorDoor::new(&listener).map_err(printing)?;
    expect_files(rt, packets, files_of(plan.extent, doors + 1), has_journal)?;
    serve_by(rt, ready, plan, line, packets, host, Some(operators))
}

// A line for each door.
fn say_doors(rt: &impl Print, line: &CommandLine<'_>) -> Result<(), Ending> {
    println!(rt; "listening {}", line.address).map_err(printing)?;
    if let Some(words) = line.host {
        println!(rt; "host {}", words.address).map_err(printing)?;
    }
    if let Some(address) = line.operators {
        println!(rt; "operators {address}").map_err(printing)?;
    }
    Ok(())
}

// Begins, and serves at these doors, by the system's clock.
fn serve_by<
    R: Net<Listener = TcpListener, Stream = TcpStream>
        + Files<File = File>
        + Disk
        + Threads
        + Wait
        + Clock
        + Print
        + Eprint
        + AllocGlobal
        + Sync,
>(
    rt: &R,
    ready: Ready<'_, '_, R>,
    plan: Plan<'_>,
    line: &CommandLine<'_>,
    packets: &TcpListener,
    host: Option<HostDoor<'_>>,
    operators: Option<OperatorDoor<'_>>,
) -> Result<(), Ending>
    requires workers { (1 ≤ plan.extent.workers) × (plan.extent.workers ≤ max_places) }
    requires connections { (1 ≤ plan.extent.connections) × (plan.extent.connections ≤ max_workers) }
{
    // The folder keeps its lock until the service has ended.
    let Ready {
        setup,
        text,
        mut folder,
    } = ready;
    let begun = begin(rt, &mut folder, line.journal, text, setup, plan.statements)?;
    expect_fit(&begun).map_err(Ending::of_journal)?;
    say_doors(rt, line)?;
    warn(rt, plan.extent, begun.setup.tenants.as_slice().len());
    let clock = SystemClock::new(rt);
    let mut writer = io::writer(rt);
    let Beginning {
        setup,
        openings,
        journal,
    } = begun;
    let start = Start {
        setup: &setup,
        openings: openings.as_slice(),
        journal,
    };
    let doors = Doors {
        packets,
        host,
        operators,
    };
    serve(rt, rt.alloc(), start, plan, doors, &clock, &mut writer).map_err(Ending::Served)
}
