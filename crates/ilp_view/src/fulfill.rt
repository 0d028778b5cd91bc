//! A Fulfill: the answer that proves that the receiver was paid.

ghost use Rattle.std.specs.Prelude.{◌≡◌, ◌≤◌, List, ℕ, length, IfOk, Ok};
ghost use Rattle.common_types.specs.Outcomes.{Gives};
ghost use Rattle.ilp_view.specs.Packet.{max_data, Fulfill, IsFulfill};
ghost use Rattle.ilp_view.specs.Reading.{fulfill_at, fulfill_fields};
ghost use Rattle.ilp_view.specs.Seen.{fulfill_of};

use crate::fault::ViewFault;
use crate::fields;
use std::marker::Model;

/// The type byte of a Fulfill (RFC 0027).
pub(crate) const FULFILL: u8 = 13;

#[derive(Debug, Drop)]
struct FulfillParts<'a> {
    contents_length: &'a [u8],
    fulfillment: &'a [u8],
    data_length: &'a [u8],
    payload: &'a [u8],
    extra: &'a [u8],
}

/// A Fulfill that was read. Its parts are borrowed from the frame (RFC 0027, "ILP Fulfill").
#[derive(Debug, Drop)]
pub struct FulfillView<'a> {
    parts: FulfillParts<'a>,
}

impl<'a> Model for FulfillView<'a> {
    ghost use Rattle.ilp_view.specs.Packet.{Fulfill};

    ghost Value = { Fulfill };

    ghost use Rattle.ilp_view.specs.Seen.{fulfill_of, AreFulfillParts};

    ghost view = { λ v. fulfill_of v.parts };

    ghost invariant = { λ v. AreFulfillParts v.parts };
}

#[tactic(auto, unfolding(crate::specs::Reading::fulfill_fields))]
fn fields_of<'a>(spelling: &'a [u8], contents: &'a [u8]) -> Result<FulfillParts<'a>, ViewFault>
    ensures { Gives fulfill_of result (fulfill_fields spelling.now contents.now) }
{
    let (fulfillment, rest) = fields::fixed(contents, 32)?;
    let (data_length, payload, extra) = fields::payload(rest)?;
    Ok(FulfillParts {
        contents_length: spelling,
        fulfillment,
        data_length,
        payload,
        extra,
    })
}

#[tactic(auto, unfolding(crate::specs::Reading::fulfill_at))]
fn parts_of(frame: &[u8]) -> Result<FulfillParts<'_>, ViewFault>
    ensures { Gives fulfill_of result (fulfill_at frame.now) }
{
    let (spelling, contents) = fields::envelope(FULFILL, frame)?;
    fields_of(spelling, contents)
}

impl<'a> FulfillView<'a> {
    /// The Fulfill that `frame` is, all of its bytes.
    ///
    /// Errors, in the order of the tests (RFC 0027, "ILP Fulfill"):
    ///
    /// - `Size` if the frame is over 34,000 bytes.
    /// - `Kind` if the frame is empty or of another type.
    /// - `Oer` if the length of the contents cannot be read or goes past the end.
    /// - `AfterEnd` if bytes follow the contents.
    /// - Then, field by field: `Oer` if a field goes past the end of the contents, `Size` if the data
    ///   is over 32,768 bytes.
    pub fn read(frame: &'a [u8]) -> Result<FulfillView<'a>, ViewFault>
        // What is read is the frame's parts.
        ensures found { IfOk result (λ p. IsFulfill frame.now p) }
        // Each Fulfill is read.
        ensures only { (p : Fulfill) → IsFulfill frame.now p → result ≡ Ok p }
        // Which fault it is.
        ensures exact { result ≡ fulfill_at frame.now }
    {
        crate::laws::laws_below();
        let parts = parts_of(frame)?;
        Ok(FulfillView { parts })
    }

    /// The fulfillment: 32 bytes of the frame. Their SHA-256 hash must be the condition.
    pub fn fulfillment(&self) -> &'a [u8]
        ensures value { result.now ≡ self.now.fulfillment }
        ensures size { length result.now ≡ 32 }
    {
        self.parts.fulfillment
    }

    /// The data for the sender, at most 32,768 bytes of the frame.
    pub fn payload(&self) -> &'a [u8]
        ensures value { result.now ≡ self.now.payload }
        ensures size { length result.now ≤ max_data }
    {
        self.parts.payload
    }
}
