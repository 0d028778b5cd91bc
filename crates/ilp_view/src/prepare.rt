//! A Prepare: an amount, its receiver, its expiry, and the condition that the fulfillment must
//! match.

ghost use Rattle.std.specs.Prelude.{◌≡◌, ◌≤◌, List, ℕ, length, IfOk, Ok};
ghost use Rattle.ilp_addr.specs.Timestamp.{latest_expiry, moment_of};
ghost use Rattle.ilp_view.specs.Packet.{max_data, Prepare, IsPrepare, prepare_frame};
ghost use Rattle.ilp_view.specs.Reading.{prepare_at, prepare_fields};
ghost use Rattle.ilp_view.specs.Seen.{prepare_of};
ghost use Rattle.common_types.specs.Outcomes.{Gives};

mod places;

use crate::fault::ViewFault;
use crate::fields;
use ilp_addr::Address;
use oer_core::read_u64;
pub use places::{PrepareFields, PreparePlaces};
use std::marker::Model;

/// The type byte of a Prepare (RFC 0027).
pub(crate) const PREPARE: u8 = 12;

#[derive(Debug, Drop)]
struct PrepareParts<'a> {
    contents_length: &'a [u8],
    amount: u64,
    expiry_text: &'a [u8],
    expiry: u64,
    condition: &'a [u8],
    destination_length: &'a [u8],
    destination: Address<'a>,
    data_length: &'a [u8],
    payload: &'a [u8],
    extra: &'a [u8],
}

/// A Prepare that was read. Its parts are borrowed from the frame (RFC 0027, "ILP Prepare").
#[derive(Debug, Drop)]
pub struct PrepareView<'a> {
    parts: PrepareParts<'a>,
}

impl<'a> Model for PrepareView<'a> {
    ghost use Rattle.ilp_view.specs.Packet.{Prepare};

    ghost Value = { Prepare };

    ghost use Rattle.ilp_view.specs.Seen.{prepare_of, ArePrepareParts};

    ghost view = { λ v. prepare_of v.parts };

    ghost invariant = { λ v. ArePrepareParts v.parts };
}

#[tactic(auto, unfolding(crate::specs::Reading::prepare_fields))]
fn fields_of<'a>(spelling: &'a [u8], contents: &'a [u8]) -> Result<PrepareParts<'a>, ViewFault>
    ensures exact { Gives prepare_of result (prepare_fields spelling.now contents.now) }
    ensures moment { IfOk result (λ v. v.expiry ≡ moment_of v.expiry_text.now) }
    ensures bound { IfOk result (λ v. v.expiry ≤ latest_expiry) }
{
    let (amount, rest) = read_u64(contents)?;
    let (expiry_text, expiry, rest) = fields::expiry(rest)?;
    let (condition, rest) = fields::fixed(rest, 32)?;
    let (destination_length, destination, rest) = fields::destination(rest)?;
    let (data_length, payload, extra) = fields::payload(rest)?;
    Ok(PrepareParts {
        contents_length: spelling,
        amount,
        expiry_text,
        expiry,
        condition,
        destination_length,
        destination,
        data_length,
        payload,
        extra,
    })
}

#[tactic(auto, unfolding(crate::specs::Reading::prepare_at))]
fn parts_of(frame: &[u8]) -> Result<PrepareParts<'_>, ViewFault>
    ensures exact { Gives prepare_of result (prepare_at frame.now) }
    ensures moment { IfOk result (λ v. v.expiry ≡ moment_of v.expiry_text.now) }
    ensures bound { IfOk result (λ v. v.expiry ≤ latest_expiry) }
{
    let (spelling, contents) = fields::envelope(PREPARE, frame)?;
    fields_of(spelling, contents)
}

impl<'a> PrepareView<'a> {
    /// The Prepare that `frame` is, all of its bytes.
    ///
    /// Errors, in the order of the tests (RFC 0027, "ILP Prepare"):
    ///
    /// - `Size` if the frame is over 34,000 bytes.
    /// - `Kind` if the frame is empty or of another type.
    /// - `Oer` if the length of the contents cannot be read or goes past the end.
    /// - `AfterEnd` if bytes follow the contents.
    /// - Then, field by field: `Oer` if a field goes past the end of the contents, `Field` if the
    ///   expiry is not a date or the destination not an address, `Size` if the data is over 32,768
    ///   bytes.
    pub fn read(frame: &'a [u8]) -> Result<PrepareView<'a>, ViewFault>
        // What is read is the frame's parts.
        ensures found { IfOk result (λ p. IsPrepare frame.now p) }
        // Each Prepare is read.
        ensures only { (p : Prepare) → IsPrepare frame.now p → result ≡ Ok p }
        // Which fault it is.
        ensures exact { result ≡ prepare_at frame.now }
    {
        crate::laws::laws_below();
        let parts = parts_of(frame)?;
        Ok(PrepareView { parts })
    }

    /// The amount, in the units that the two peers agreed on.
    pub fn amount(&self) -> u64
        ensures { result ≡ self.now.amount }
    {
        self.parts.amount
    }

    /// The expiry, in milliseconds since 1970-01-01T00:00:00 UTC, at most 253,402,128,000,000.
    pub fn expiry(&self) -> u64
        ensures moment { result ≡ moment_of self.now.expiry }
        ensures bound { result ≤ latest_expiry }
    {
        self.parts.expiry
    }

    /// The condition: the SHA-256 hash of the fulfillment, 32 bytes of the frame.
    pub fn condition(&self) -> &'a [u8]
        ensures value { result.now ≡ self.now.condition }
        ensures size { length result.now ≡ 32 }
    {
        self.parts.condition
    }

    /// The address of the receiver.
    pub fn destination(&self) -> &Address<'a>
        ensures { result.now ≡ self.now.destination }
    {
        &self.parts.destination
    }

    /// The data for the receiver, at most 32,768 bytes of the frame.
    pub fn payload(&self) -> &'a [u8]
        ensures value { result.now ≡ self.now.payload }
        ensures size { length result.now ≤ max_data }
    {
        self.parts.payload
    }
}
