//! A Reject: the answer that says why a Prepare was not fulfilled.

ghost use Rattle.std.specs.Prelude.{◌≡◌, ◌≤◌, List, ℕ, length, IfOk, Ok};
ghost use Rattle.common_types.specs.Outcomes.{Gives};
ghost use Rattle.ilp_view.specs.Packet.{max_data, Reject, IsReject};
ghost use Rattle.ilp_view.specs.Reading.{reject_at, reject_fields};
ghost use Rattle.ilp_view.specs.Seen.{reject_of};

use crate::fault::ViewFault;
use crate::fields;
use std::marker::Model;

/// The type byte of a Reject (RFC 0027).
pub(crate) const REJECT: u8 = 14;

#[derive(Debug, Drop)]
struct RejectParts<'a> {
    contents_length: &'a [u8],
    code: &'a [u8],
    triggered_by_length: &'a [u8],
    triggered_by: &'a [u8],
    message_length: &'a [u8],
    message: &'a [u8],
    data_length: &'a [u8],
    payload: &'a [u8],
    extra: &'a [u8],
}

/// A Reject that was read. Its parts are borrowed from the frame (RFC 0027, "ILP Reject").
#[derive(Debug, Drop)]
pub struct RejectView<'a> {
    parts: RejectParts<'a>,
}

impl<'a> Model for RejectView<'a> {
    ghost use Rattle.ilp_view.specs.Packet.{Reject};

    ghost Value = { Reject };

    ghost use Rattle.ilp_view.specs.Seen.{reject_of, AreRejectParts};

    ghost view = { λ v. reject_of v.parts };

    ghost invariant = { λ v. AreRejectParts v.parts };
}

#[tactic(auto, unfolding(crate::specs::Reading::reject_fields))]
fn fields_of<'a>(spelling: &'a [u8], contents: &'a [u8]) -> Result<RejectParts<'a>, ViewFault>
    ensures { Gives reject_of result (reject_fields spelling.now contents.now) }
{
    let (code, rest) = fields::fixed(contents, 3)?;
    let (triggered_by_length, triggered_by, rest) = fields::string(rest)?;
    let (message_length, message, rest) = fields::string(rest)?;
    let (data_length, payload, extra) = fields::payload(rest)?;
    Ok(RejectParts {
        contents_length: spelling,
        code,
        triggered_by_length,
        triggered_by,
        message_length,
        message,
        data_length,
        payload,
        extra,
    })
}

#[tactic(auto, unfolding(crate::specs::Reading::reject_at))]
fn parts_of(frame: &[u8]) -> Result<RejectParts<'_>, ViewFault>
    ensures { Gives reject_of result (reject_at frame.now) }
{
    let (spelling, contents) = fields::envelope(REJECT, frame)?;
    fields_of(spelling, contents)
}

impl<'a> RejectView<'a> {
    /// The Reject that `frame` is, all of its bytes.
    ///
    /// Errors, in the order of the tests (RFC 0027, "ILP Reject"):
    ///
    /// - `Size` if the frame is over 34,000 bytes.
    /// - `Kind` if the frame is empty or of another type.
    /// - `Oer` if the length of the contents cannot be read or goes past the end.
    /// - `AfterEnd` if bytes follow the contents.
    /// - Then, field by field: `Oer` if a field goes past the end of the contents, `Size` if the data
    ///   is over 32,768 bytes.
    pub fn read(frame: &'a [u8]) -> Result<RejectView<'a>, ViewFault>
        // What is read is the frame's parts.
        ensures found { IfOk result (λ p. IsReject frame.now p) }
        // Each Reject is read.
        ensures only { (p : Reject) → IsReject frame.now p → result ≡ Ok p }
        // Which fault it is.
        ensures exact { result ≡ reject_at frame.now }
    {
        crate::laws::laws_below();
        let parts = parts_of(frame)?;
        Ok(RejectView { parts })
    }

    /// The code, as `F02`: three bytes of the frame, which may be any.
    pub fn code(&self) -> &'a [u8]
        ensures value { result.now ≡ self.now.code }
        ensures size { length result.now ≡ 3 }
    {
        self.parts.code
    }

    /// The address of the node that rejected, or any other bytes in its place.
    pub fn triggered_by(&self) -> &'a [u8]
        ensures { result.now ≡ self.now.triggered_by }
    {
        self.parts.triggered_by
    }

    /// The message for people, any bytes.
    pub fn message(&self) -> &'a [u8]
        ensures { result.now ≡ self.now.message }
    {
        self.parts.message
    }

    /// The data for the sender, at most 32,768 bytes of the frame.
    pub fn payload(&self) -> &'a [u8]
        ensures value { result.now ≡ self.now.payload }
        ensures size { length result.now ≤ max_data }
    {
        self.parts.payload
    }
}
