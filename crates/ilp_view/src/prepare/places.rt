//! What was read of a Prepare, without its frame.

ghost use Rattle.std.specs.Prelude.{◌≡◌, ◌≤◌, length, Err, IfOk, IfErr, OnOk};
ghost use Rattle.ilp_addr.specs.Timestamp.{latest_expiry};
ghost use Rattle.ilp_view.specs.Packet.{max_frame};
ghost use Rattle.ilp_view.specs.Places.{AreFields, ArePlacesIn};
ghost use Rattle.ilp_view.specs.Reading.{prepare_at};

use super::parts_of;
use crate::fault::ViewFault;
use ilp_addr::Address;

/// What was read of a Prepare, without its frame. It is kept beside the frame, which is not read again (RFC 0027, "ILP
/// Prepare").
#[derive(Clone, Copy, Debug)]
pub struct PreparePlaces {
    amount: u64,
    expiry: u64,
    // The index of the amount, before the expiry and the condition.
    amount_at: usize,
    // How many bytes spell the length of the destination, after the condition.
    spelling: usize,
    // How many bytes the destination has, after its length.
    destination: usize,
}

/// The fields of a Prepare by which it is decided on. Two are borrowed from the frame (RFC 0027, "ILP Prepare").
#[derive(Debug, Drop)]
pub struct PrepareFields<'a> {
    /// In the units that the two peers agreed on.
    pub amount: u64,
    /// In milliseconds since 1970-01-01T00:00:00 UTC.
    pub expiry: u64,
    /// 32 bytes.
    pub condition: &'a [u8],
    pub destination: Address<'a>,
}

impl PreparePlaces {
    /// What is read of the Prepare that `frame` is, all of its bytes.
    ///
    /// The errors are those of [`PrepareView::read`](crate::PrepareView::read), in the same order. (RFC 0027, "ILP Prepare")
    pub fn read(frame: &[u8]) -> Result<PreparePlaces, ViewFault>
        ensures found { IfOk result (ArePlacesIn frame.now) }
        ensures short { OnOk result (length frame.now ≤ max_frame) }
        ensures fault { IfErr result (λ fault. prepare_at frame.now ≡ Err fault) }
    {
        crate::laws::laws_below();
        let parts = parts_of(frame)?;
        Ok(PreparePlaces {
            amount: parts.amount,
            expiry: parts.expiry,
            amount_at: 1 + parts.contents_length.len(),
            spelling: parts.destination_length.len(),
            destination: parts.destination.bytes().len(),
        })
    }

    /// The fields of the Prepare that this was read of.
    pub fn fields<'a>(&self, frame: &'a [u8]) -> PrepareFields<'a>
        requires { ArePlacesIn frame.now self.now }
        ensures fields { IfOk (prepare_at frame.now) (λ p. AreFields p result) }
        ensures bound { result.expiry ≤ latest_expiry }
        ensures size { length result.condition.now ≡ 32 }
    {
        crate::laws::laws_below();
        let (_, back) = frame.split_at(self.amount_at + 25);
        let (condition, back) = back.split_at(32);
        let (_, back) = back.split_at(self.spelling);
        let (destination, _) = back.split_at(self.destination);
        PrepareFields {
            amount: self.amount,
            expiry: self.expiry,
            condition,
            destination: Address::of_known(destination),
        }
    }
}
