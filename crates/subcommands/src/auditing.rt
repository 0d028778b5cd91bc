//! What `verify` says of receipts, and of the statements of all tenants that they are audited by.

ghost use Rattle.std.specs.Prelude.{IsErr, OnOk};
ghost use Rattle.subcommands.specs.Auditing.{TellsAudit};

use crate::ending::Ending;
use crate::verifying::{
    TextFile, begin, begun, good_in, join, memory_refused, name_in, put_place, refuse, write,
};
use common_types::ReadError;
use receipt_text::{ReceiptsFault, TextFault, check_receipts};
use receipts::AuditFault;
use replay_text::ReplayFault;
use service::{audit_told, good_line, word_of};
use statements::Chain;
use std::alloc::{AllocError, Global};
use std::io::Write;
use tenant_core::Period;
use tenant_core::limits::MAX_TENANTS;

/// The statements of all tenants, as far as they were taken: a chain for each tenant, by its place, and the periods that they state.
#[derive(Drop)]
pub struct Statements {
    chains: Vec<Chain>,
    periods: Vec<Period>,
}

impl Statements {
    ghost use Rattle.std.specs.Prelude.{◌≡◌, IfOk, OnOk, []};
    ghost use Rattle.subcommands.specs.Auditing.{IsOneMore};

    /// No periods yet. Fails only if it is out of memory.
    pub fn new(alloc: Global) -> Result<Statements, AllocError>
        ensures { IfOk result (λ none. none.periods.items ≡ []) }
    {
        let mut chains = Vec::with_capacity(alloc, MAX_TENANTS)?;
        for _ in 0..MAX_TENANTS {
            chains.push(Chain::new(alloc))?;
        }
        Ok(Statements {
            chains,
            periods: Vec::new(alloc),
        })
    }

    /// The periods that they state.
    pub fn periods(&self) -> &[Period]
        ensures { result.now ≡ self.now.periods.items }
    {
        &self.periods
    }

    /// Takes the text of a file as the next statement of its tenant. The tenant's first one is taken as by `begin` if
    /// there is a setup. If it is not good, or does not go on from the one before it, it says so as `take` does, and
    /// the run ends.
    pub fn take<W: Write>(
        &mut self,
        alloc: Global,
        setup: Option<TextFile<'_>>,
        file: &str,
        text: &[u8],
        writer: &mut W,
    ) -> Result<(), Ending>
        ensures more { OnOk result (IsOneMore text.now self.old.periods.items self.new.periods.items) }
        ensures silent { OnOk result (writer.new ≡ writer.old) }
    {
        self.periods.reserve(1).map_err(memory_refused)?;
        let good = good_in(alloc, file, text, writer)?;
        let Some(chain) = self.chains.get_mut(good.period().tenant()) else {
            return Err(Ending::NotGood);
        };
        if let (None, Some(setup)) = (chain.opening_due(), setup) {
            begin(alloc, chain, setup.text, name_in(text), setup.file, writer)?;
        }
        join(alloc, chain, file, &good, writer)?;
        self.periods.push_reserved(good.into_period());
        Ok(())
    }
}

// What is said of a text that is not one of receipts.
fn text_words(
    alloc: Global,
    file: &str,
    text: &[u8],
    fault: TextFault,
) -> Result<Vec<u8>, AllocError> {
    let (line, reason) = match fault {
        TextFault::Line(line) => (line, "tells no receipt and no worker"),
        TextFault::Differs(line) => (line, "not as receipts are written"),
    };
    let mut out = begun(alloc, file)?;
    put_place(&mut out, alloc, text, Some(line), reason, None)?;
    Ok(out)
}

// Prints what an audit found wrong, and returns how the run ends.
fn fault_told<W: Write>(alloc: Global, fault: &AuditFault, writer: &mut W) -> Result<(), Ending>
    ensures { IsErr result }
{
    let word = word_of(fault).map_err(memory_refused)?;
    let line = audit_told(alloc, word).map_err(memory_refused)?;
    write(writer, line.as_slice())?;
    Err(Ending::Audit)
}

/// Audits the receipts in the text of a file by periods, and prints how many there are, which are complete. Otherwise
/// it prints what is wrong with them, or why the text is not one of receipts, and the run ends.
pub fn tell_audit<W: Write>(
    alloc: Global,
    periods: &[Period],
    file: &str,
    text: &[u8],
    writer: &mut W,
) -> Result<(), Ending>
    ensures { OnOk result (TellsAudit periods.now text.now (W.contents writer.old) (W.contents writer.new)) }
{
    match check_receipts(alloc, periods, text) {
        Ok(audited) => {
            let line = good_line(alloc, audited.receipts).map_err(memory_refused)?;
            write(writer, line.as_slice())
        }
        Err(ReceiptsFault::Audit(fault)) => fault_told(alloc, &fault, writer),
        Err(ReceiptsFault::Text(fault)) => {
            let words = text_words(alloc, file, text, fault).map_err(memory_refused)?;
            refuse(writer, words.as_slice())
        }
    }
}
