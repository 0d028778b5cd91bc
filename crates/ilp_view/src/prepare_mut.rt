//! A Prepare in the frame that it came in. Only its amount and its expiry can be written.

ghost use Rattle.std.specs.Prelude.{◌≡◌, ◌+◌, length, IsOk, IsOkAnd, IfOk};
ghost use Rattle.std.specs.Borrow.{sem};
ghost use Rattle.common_types.specs.Outcomes.{Gives};
ghost use Rattle.ilp_view.specs.Lent.{HasFields, LendsFields, cut_at, cut_of, frame_of, lent_of, name_of};
ghost use Rattle.ilp_view.specs.Packet.{Prepare, IsPrepare};
ghost use Rattle.ilp_view.specs.Reading.{prepare_at};

use crate::fault::ViewFault;
use crate::fields;
use crate::prepare::{PREPARE, PrepareView};
use std::slice::from_raw_parts_mut;

/// A Prepare that was read in place. Only its amount and its expiry can be written, and no other byte
/// of its frame (RFC 0027, "ILP Prepare").
#[derive(Debug, Drop)]
pub struct PrepareMut<'a> {
    frame: &'a mut [u8],
    // The index of the amount. The expiry follows it.
    place: usize,
}

// The index of the amount in the frame of a Prepare. The expiry follows it.
fn place_of_amount(frame: &[u8]) -> usize
    requires { IsOk (prepare_at frame.now) }
    ensures place { IfOk (prepare_at frame.now) (λ p. result ≡ 1 + length p.contents_length) }
    ensures parts { IfOk (prepare_at frame.now) (λ p. IsPrepare frame.now p) }
{
    crate::laws::laws_below();
    let (spelling, _) = fields::envelope(PREPARE, frame).unwrap();
    1 + spelling.len()
}

impl<'a> PrepareMut<'a> {
    /// The Prepare that `frame` is, all of its bytes.
    ///
    /// The errors are those of [`PrepareView::read`], in the same order. (RFC 0027, "ILP Prepare")
    pub fn read(frame: &'a mut [u8]) -> Result<PrepareMut<'a>, ViewFault>
        // A PrepareMut that is read is the frame, cut at the amount and the expiry of a Prepare.
        ensures found { IfOk result (λ m. (p : Prepare) × IsPrepare frame.old p × (lent_of m ≡ cut_of p)) }
        // Each Prepare is read.
        ensures only { (p : Prepare) → IsPrepare frame.old p → IsOkAnd result (λ m. lent_of m ≡ cut_of p) }
        // Which fault it is.
        ensures exact { Gives lent_of result (cut_at frame.old) }
        // The frame is borrowed as it is, and ends as the PrepareMut ends.
        ensures same_frame { IfOk result (λ m. name_of m ≡ frame.entry.ghost_name) }
        ensures bytes { IfOk result (λ m. frame_of m ≡ frame.old) }
        ensures fields { IfOk result HasFields }
    {
        crate::laws::laws_below();
        PrepareView::read(frame)?;
        Ok(PrepareMut::of_known(frame))
    }

    /// The Prepare that `frame` is. The caller knows that it is one. (RFC 0027, "ILP Prepare")
    pub fn of_known(frame: &'a mut [u8]) -> PrepareMut<'a>
        requires { IsOk (prepare_at frame.old) }
        // It is cut at the amount and the expiry.
        ensures cut { IfOk (prepare_at frame.old) (λ p. lent_of result ≡ cut_of p) }
        // The frame is borrowed as it is, and ends as the PrepareMut ends.
        ensures same_frame { name_of result ≡ frame.entry.ghost_name }
        ensures bytes { frame_of result ≡ frame.old }
        ensures fields { HasFields result }
    {
        let place = place_of_amount(frame);
        PrepareMut { frame, place }
    }

    /// The 8 bytes of the amount, in big-endian order, and the 17 bytes of the expiry, lent at once to
    /// be written. (RFC 0027, "ILP Prepare")
    pub fn lend(&mut self) -> (&mut [u8], &mut [u8])
        requires { HasFields self.old }
        // Whatever is written there, the frame then is the bytes before, these, and the bytes after.
        ensures* writes_back { sem 𝓛 (LendsFields self.entry result) }
        ensures amount { result.0.now ≡ (lent_of self.old).amount }
        ensures expiry { result.1.now ≡ (lent_of self.old).expiry }
        ensures amount_size { length result.0.now ≡ 8 }
        ensures expiry_size { length result.1.now ≡ 17 }
    {
        let frame = self.frame.as_mut_ptr();
        let place = self.place;
        unsafe {
            (
                from_raw_parts_mut(frame.add(place), 8),
                from_raw_parts_mut(frame.add(place + 8), 17),
            )
        }
    }
}
