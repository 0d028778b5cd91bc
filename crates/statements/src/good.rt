//! Statements that were found good.

ghost use Rattle.std.specs.Prelude.{◌≡◌, IfOk};
ghost use Rattle.statements.specs.Gone.{IsGood};

use crate::checked::{Gone, StatementFault, checked};
use common_types::ReadError;
use std::alloc::Global;
use tenant_core::Period;

/// A text, and the closed period that it states.
#[derive(Drop)]
pub struct GoodStatement<'a> {
    pub(crate) text: &'a [u8],
    /// The period, with its packets that went on.
    pub(crate) gone: Gone,
}

impl<'a> GoodStatement<'a> {
    /// What a text states, if it is good; the faults are those of [`check_statement`](crate::check_statement).
    pub fn of(alloc: Global, text: &'a [u8]) -> Result<GoodStatement<'a>, ReadError<StatementFault>>
        ensures text { IfOk result (λ good. good.text.now ≡ text.now) }
        ensures good { IfOk result IsGood }
    {
        let gone = checked(alloc, text)?;
        Ok(GoodStatement { text, gone })
    }

    /// Its text.
    pub fn text(&self) -> &'a [u8]
        ensures { result.now ≡ self.now.text.now }
    {
        self.text
    }

    /// The period that it states.
    pub fn period(&self) -> &Period
        ensures { result.now ≡ self.now.gone.period }
    {
        &self.gone.period
    }

    /// The period that it states, without its text.
    pub fn into_period(self) -> Period
        ensures { result ≡ self.entry.gone.period }
    {
        self.gone.period
    }
}
