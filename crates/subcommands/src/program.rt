//! The program: it reads its words, does what they ask for, and says how it ended.

use crate::checking::printing;
use crate::ending::{Ending, asks_version, exit_status, words_refused};
use crate::files::read_setup_file;
use crate::judging::{audit_at, check_at, verify_at};
use crate::recovering::{Recovery, recover_at, verify_journal_at};
use crate::replaying::replay_at;
use crate::serving::serve_at;
use command_line::{Task, arguments};
use replay_text::ReplayFault;
use service::{Disk, Extent, Plan, Report, ServeFault};
use std::env;
use std::fs::File;
use std::net::{Net, TcpListener, TcpStream};
use std::rt::{Env, Files};
use std::sync::Wait;
use std::thread::Threads;
use std::time::Clock;

// Does what the words of the command line ask for.
fn perform<
    R: Env
        + Files<File = File>
        + Disk
        + Input
        + Print
        + Eprint
        + AllocGlobal
        + Net<Listener = TcpListener, Stream = TcpStream>
        + Threads
        + Wait
        + Clock
        + Sync,
>(rt: &R) -> Result<(), Ending> {
    let alloc = rt.alloc();
    let words: Vec<String> = env::args(rt)
        .map_err(printing)?
        .collect(alloc)
        .map_err(|_| Ending::Fault(ReplayFault::Memory))?;
    let line = match arguments(alloc, words.as_slice()) {
        Ok(line) => line,
        Err(error) if asks_version(&error) => return rt.print(error).map_err(printing),
        Err(error) => return Err(words_refused(error)),
    };
    let (first, receipts) = (line.first, line.receipts);
    if let Some(files) = &line.statements {
        return match receipts {
            Some(receipts) => audit_at(rt, first, receipts, files.as_slice()),
            None => verify_at(rt, first, files.as_slice()),
        };
    }
    match (line.task, line.journal) {
        (Task::Verify, Some(journal)) => return verify_journal_at(rt, journal),
        (Task::Recover, Some(journal)) => {
            let recovery = Recovery {
                journal,
                setup: line.recovered,
                statements: line.folder,
            };
            return recover_at(rt, recovery);
        }
        _ => {}
    }
    let setup = read_setup_file(rt, line.task, line.setup)?;
    match line.task {
        Task::Verify | Task::Recover => Ok(()),
        Task::Check => check_at(rt, setup.as_slice(), line.script, line.workers),
        Task::Serve {
            connections,
            rounds,
            balances,
            audit,
        } => {
            let extent = Extent {
                workers: line.workers,
                connections,
                rounds,
            };
            let plan = Plan {
                extent,
                report: Report { balances, audit },
                statements: line.folder,
                roll_at: line.roll_at,
                admin: line.admin,
                breakers: line.breakers,
            };
            serve_at(rt, setup.as_slice(), plan, &line)
        }
        Task::Replay => replay_at(
            rt,
            setup.as_slice(),
            line.workers,
            line.folder,
            line.journal,
        ),
    }
}

// Says on standard error how a run ended, unless lines have said so.
fn say_ending(rt: &impl Eprint, ended: &Result<(), Ending>) {
    match ended {
        Ok(())
        | Err(
            Ending::Served(ServeFault::Audit)
            | Ending::NoToken
            | Ending::NotGood
            | Ending::Audit
            | Ending::SetupDiffers,
        ) => {}
        Err(Ending::Usage(error)) => {
            let _ = rt.eprint(error);
        }
        Err(Ending::Fault(fault)) => {
            let _ = rt.eprintln(*fault);
        }
        Err(Ending::Served(fault)) => {
            let _ = rt.eprintln(*fault);
        }
        Err(Ending::Journal(why)) => {
            let _ = rt.eprintln(*why);
        }
    }
}

/// Does what the words of the command line ask for, says on standard error what went wrong, and returns the exit status.
pub fn run<
    R: Env
        + Files<File = File>
        + Disk
        + Input
        + Print
        + Eprint
        + AllocGlobal
        + Net<Listener = TcpListener, Stream = TcpStream>
        + Threads
        + Wait
        + Clock
        + Sync,
>(rt: &R) -> u8 {
    let ended = perform(rt);
    say_ending(rt, &ended);
    exit_status(&ended)
}
