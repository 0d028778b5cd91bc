//! The fields of packets, read one after the other.

ghost use Rattle.std.specs.Prelude.{◌≡◌, ◌≤◌, IfOk};
ghost use Rattle.common_types.specs.Outcomes.{Gives};
ghost use Rattle.ilp_addr.specs.Timestamp.{latest_expiry, moment_of};
ghost use Rattle.ilp_view.specs.Reading.{fixed_at, string_at, expiry_at, destination_at, data_at, envelope_at};
ghost use Rattle.ilp_view.specs.Reading.{whole_string, behind_type};

use crate::fault::ViewFault;
use common_types::limits::MAX_FRAME;
use ilp_addr::{Address, Stamp};
use oer_core::read_length;

/// The most bytes that the data of a packet may have (RFC 0027).
pub const MAX_DATA: usize = 32_768;

#[tactic(auto, unfolding(crate::specs::Reading::fixed_at))]
pub(crate) fn fixed(bytes: &[u8], count: usize) -> Result<(&[u8], &[u8]), ViewFault>
    ensures { Gives (λ r. (r.0.now, r.1.now)) result (fixed_at count bytes.now) }
{
    if bytes.len() < count {
        return Err(ViewFault::Oer);
    }
    Ok(bytes.split_at(count))
}

#[tactic(auto, unfolding(crate::specs::Reading::string_at))]
pub(crate) fn string(bytes: &[u8]) -> Result<(&[u8], &[u8], &[u8]), ViewFault>
    ensures { Gives (λ r. (r.0.now, r.1.now, r.2.now)) result (string_at bytes.now) }
{
    let (count, taken) = read_length(bytes, MAX_FRAME)?;
    let (spelling, rest) = bytes.split_at(taken);
    if rest.len() < count {
        return Err(ViewFault::Oer);
    }
    let (text, rest) = rest.split_at(count);
    Ok((spelling, text, rest))
}

#[tactic(auto, unfolding(crate::specs::Reading::fixed_at, crate::specs::Reading::expiry_at))]
pub(crate) fn expiry(bytes: &[u8]) -> Result<(&[u8], u64, &[u8]), ViewFault>
    ensures exact { Gives (λ r. (r.0.now, r.2.now)) result (expiry_at bytes.now) }
    ensures moment { IfOk result (λ r. r.1 ≡ moment_of r.0.now) }
    ensures bound { IfOk result (λ r. r.1 ≤ latest_expiry) }
{
    let Some((text, rest)) = bytes.split_first_chunk::<17>() else {
        return Err(ViewFault::Oer);
    };
    let moment = Stamp::parse(text)?;
    Ok((text, moment, rest))
}

#[tactic(auto, unfolding(crate::specs::Reading::destination_at))]
pub(crate) fn destination(bytes: &[u8]) -> Result<(&[u8], Address<'_>, &[u8]), ViewFault>
    ensures { Gives (λ r. (r.0.now, r.1, r.2.now)) result (destination_at bytes.now) }
{
    let (spelling, text, rest) = string(bytes)?;
    Ok((spelling, Address::parse(text)?, rest))
}

#[tactic(auto, unfolding(crate::specs::Reading::data_at))]
pub(crate) fn payload(bytes: &[u8]) -> Result<(&[u8], &[u8], &[u8]), ViewFault>
    ensures { Gives (λ r. (r.0.now, r.1.now, r.2.now)) result (data_at bytes.now) }
{
    let (spelling, text, rest) = string(bytes)?;
    if text.len() > MAX_DATA {
        return Err(ViewFault::Size);
    }
    Ok((spelling, text, rest))
}

#[tactic(auto, unfolding(crate::specs::Reading::whole_string))]
fn whole(bytes: &[u8]) -> Result<(&[u8], &[u8]), ViewFault>
    ensures { Gives (λ r. (r.0.now, r.1.now)) result (whole_string bytes.now) }
{
    let (spelling, contents, after) = string(bytes)?;
    if !after.is_empty() {
        return Err(ViewFault::AfterEnd);
    }
    Ok((spelling, contents))
}

#[tactic(auto, unfolding(crate::specs::Reading::envelope_at, crate::specs::Reading::behind_type))]
pub(crate) fn envelope(kind: u8, frame: &[u8]) -> Result<(&[u8], &[u8]), ViewFault>
    ensures { Gives (λ r. (r.0.now, r.1.now)) result (envelope_at kind frame.now) }
{
    if frame.len() > MAX_FRAME {
        return Err(ViewFault::Size);
    }
    let Some((first, rest)) = frame.split_first() else {
        return Err(ViewFault::Kind);
    };
    if *first != kind {
        return Err(ViewFault::Kind);
    }
    whole(rest)
}
