//! The files that the command line names, and what is said of one that can't be read.

ghost use Rattle.std.specs.Prelude.{◌≤◌, length, IfOk};
ghost use Rattle.tenant_core.specs.Limits.{max_tenants};

use crate::checking::{ending_of, printing};
use crate::ending::Ending;
use crate::reasons::reason_of;
use crate::token::token_of;
use admin_text::{Setup, read_setup};
use command_line::Task;
use common_types::{ReadError, Token};
use replay_text::ReplayFault;
use std::alloc::Global;
use std::io::ErrorKind;
use std::os::unix::fs::PermissionsExt;
use std::rt::Files;
use std::{fs, io};

/// Says in a line on standard output what could not be done with what, and why.
pub fn say_cannot(rt: &impl Print, doing: &str, what: &str, why: &str) {
    let _ = println!(rt; "ilpd: cannot {doing} {what}: {why}");
}

/// Says in a line on standard output what the error hindered, unless it is out of memory, and returns how the run ends.
pub fn cannot(rt: &impl Print, doing: &str, what: &str, error: &io::Error) -> Ending {
    let kind = error.kind();
    if kind != ErrorKind::OutOfMemory {
        say_cannot(rt, doing, what, reason_of(kind));
    }
    ending_of(kind)
}

/// All that is in a file, or a line that says why it can't be read.
pub fn read_file(rt: &(impl Files + Print + AllocGlobal), file: &str) -> Result<Vec<u8>, Ending> {
    fs::read(rt, file).map_err(|error| cannot(rt, "read", file, &error))
}

/// All that is in the file of the setup. A replay prints nothing but the lines of its steps.
pub fn read_setup_file(
    rt: &(impl Files + Print + AllocGlobal),
    task: Task,
    file: &str,
) -> Result<Vec<u8>, Ending> {
    match task {
        Task::Replay => fs::read(rt, file).map_err(printing),
        Task::Check | Task::Verify | Task::Recover | Task::Serve { .. } => read_file(rt, file),
    }
}

/// The bit of a file's mode by which others may write it.
const WRITTEN_BY_OTHERS: u32 = 0o002;

/// The token that a file holds. One that others may write is refused: they could stop the service.
pub fn token_in(rt: &(impl Files + Print + AllocGlobal), file: &str) -> Result<Token, Ending> {
    let found = fs::metadata(rt, file).map_err(|error| cannot(rt, "read", file, &error))?;
    if found.permissions().mode() & WRITTEN_BY_OTHERS != 0 {
        let _ = println!(rt;
            "ilpd: others may write {file}, which has the host's token: chmod o-w {file}"
        );
        return Err(Ending::NoToken);
    }
    let text = read_file(rt, file)?;
    let Some(token) = token_of(text.as_slice()) else {
        let _ = println!(rt; "ilpd: {file} holds no token: 1 to 64 of A-Z a-z 0-9 - . _ ~ + / =");
        return Err(Ending::NoToken);
    };
    Ok(token)
}

/// The setup of a text.
pub fn setup_in(alloc: Global, text: &[u8]) -> Result<Setup, Ending>
    ensures tenants { IfOk result (λ setup. (1 ≤ length setup.tenants) × (length setup.tenants ≤ max_tenants)) }
{
    admin_text::laws::setups();
    match read_setup(alloc, text) {
        Ok(setup) => Ok(setup),
        Err(ReadError::Memory) => Err(Ending::Fault(ReplayFault::Memory)),
        Err(ReadError::Fault(fault)) => Err(Ending::Fault(ReplayFault::Setup(fault))),
    }
}
