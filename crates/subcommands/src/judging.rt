//! What `check` and `verify` do with the files that the command line names.

use crate::auditing::{Statements, tell_audit};
use crate::checking::{Script, check};
use crate::ending::Ending;
use crate::files::read_file;
use crate::verifying::{
    TextFile, begin, good_in, join, memory_refused, name_in, refuse, take, tell, tenant_of,
};
use replay_text::ReplayFault;
use statements::Chain;
use std::alloc::{AllocFailed, Global};
use std::io;
use std::io::Write;
use std::rt::Files;

/// Says whether the setup is good, and the script of that file for it, if one is named.
pub fn check_at(
    rt: &(impl Files + Print + AllocGlobal),
    setup: &[u8],
    script: Option<&str>,
    workers: usize,
) -> Result<(), Ending> {
    let (alloc, mut writer) = (rt.alloc(), io::writer(rt));
    let Some(file) = script else {
        return check(alloc, setup, None, &mut writer);
    };
    let text = read_file(rt, file)?;
    let text = text.as_slice();
    check(alloc, setup, Some(Script { text, workers }), &mut writer)
}

fn no_memory<T: Drop>(_: AllocFailed<T>) -> Ending {
    Ending::Fault(ReplayFault::Memory)
}

// A file of `verify`, and what is in it.
#[derive(Drop)]
struct Named<'a> {
    file: &'a str,
    text: Vec<u8>,
}

// Whether a file of that name is a setup, and no statement.
fn is_setup(file: &str) -> bool {
    file.ends_with(".toml")
}

/// What is said if no file is a statement.
const NO_STATEMENT: &[u8] =
    b"no statement is among these files: one that ends in .toml is a setup\n";

// A run of `verify`: the chain so far, the setups that wait for the first statement, which names their tenant, and where
// lines are written.
#[derive(Drop)]
struct Verification<'a, W: Write> {
    chain: Chain,
    setups: Vec<Named<'a>>,
    writer: W,
}

impl<'a, W: Write> Verification<'a, W> {
    // Takes the first statement, and before it the setups that came before it, for its tenant. Faults of the statement
    // itself come first.
    fn take_first(&mut self, alloc: Global, file: &str, text: &[u8]) -> Result<(), Ending> {
        let good = good_in(alloc, file, text, &mut self.writer)?;
        let name = name_in(text);
        for setup in &self.setups {
            let (file, setup) = (setup.file, setup.text.as_slice());
            begin(alloc, &mut self.chain, setup, name, file, &mut self.writer)?;
        }
        join(alloc, &mut self.chain, file, &good, &mut self.writer)
    }

    // Takes a statement, or a setup that comes after one.
    fn take_text(&mut self, alloc: Global, file: &str, text: &[u8]) -> Result<(), Ending> {
        match tenant_of(&self.chain) {
            None => self.take_first(alloc, file, text),
            Some(name) if is_setup(file) => {
                begin(
                    alloc,
                    &mut self.chain,
                    text,
                    name.as_bytes(),
                    file,
                    &mut self.writer,
                )
            }
            Some(_) => take(alloc, &mut self.chain, file, text, &mut self.writer),
        }
    }

    // Keeps a setup for the first statement.
    fn keep(
        &mut self,
        rt: &(impl Files + Print + AllocGlobal),
        file: &'a str,
    ) -> Result<(), Ending> {
        let text = read_file(rt, file)?;
        self.setups.push(Named { file, text }).map_err(no_memory)
    }

    // Takes a file.
    fn take_file(
        &mut self,
        rt: &(impl Files + Print + AllocGlobal),
        file: &'a str,
    ) -> Result<(), Ending> {
        if is_setup(file) && tenant_of(&self.chain).is_none() {
            return self.keep(rt, file);
        }
        let text = read_file(rt, file)?;
        self.take_text(rt.alloc(), file, text.as_slice())
    }

    // Takes all files, and before them the setup that the first one goes on from, if one is named. Then prints the sums of all.
    fn take_all(
        &mut self,
        rt: &(impl Files + Print + AllocGlobal),
        setup: Option<&'a str>,
        files: &[&'a str],
    ) -> Result<(), Ending> {
        if let Some(file) = setup {
            self.keep(rt, file)?;
        }
        for file in files {
            self.take_file(rt, file)?;
        }
        if tenant_of(&self.chain).is_none() {
            return refuse(&mut self.writer, NO_STATEMENT);
        }
        tell(rt.alloc(), &self.chain, &mut self.writer)
    }
}

/// Says whether the statements in these files are good and go on, also over the setups between them. The first one goes
/// on from a setup, if one is named. Then prints the sums of all. One statement is in memory at a time.
pub fn verify_at(
    rt: &(impl Files + Print + AllocGlobal),
    setup: Option<&str>,
    files: &[&str],
) -> Result<(), Ending> {
    let mut verification = Verification {
        chain: Chain::new(rt.alloc()),
        setups: Vec::new(rt.alloc()),
        writer: io::writer(rt),
    };
    verification.take_all(rt, setup, files)
}

// Takes all statements, and audits the receipts by them.
fn audit_by(
    rt: &(impl Files + Print + AllocGlobal),
    statements: &mut Statements,
    setup: Option<TextFile<'_>>,
    receipts: &str,
    files: &[&str],
) -> Result<(), Ending> {
    let (alloc, mut writer) = (rt.alloc(), io::writer(rt));
    for file in files {
        let text = read_file(rt, file)?;
        statements.take(alloc, setup, file, text.as_slice(), &mut writer)?;
    }
    let text = read_file(rt, receipts)?;
    tell_audit(
        alloc,
        statements.periods(),
        receipts,
        text.as_slice(),
        &mut writer,
    )
}

/// Audits the receipts in a file by the statements in others, of all tenants, each tenant's one period after another.
/// The first ones go on from a setup, if one is named. All periods are in memory then.
pub fn audit_at(
    rt: &(impl Files + Print + AllocGlobal),
    setup: Option<&str>,
    receipts: &str,
    files: &[&str],
) -> Result<(), Ending> {
    let mut statements = Statements::new(rt.alloc()).map_err(memory_refused)?;
    let Some(file) = setup else {
        return audit_by(rt, &mut statements, None, receipts, files);
    };
    let text = read_file(rt, file)?;
    let text = text.as_slice();
    audit_by(
        rt,
        &mut statements,
        Some(TextFile { file, text }),
        receipts,
        files,
    )
}
