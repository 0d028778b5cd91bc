//! Laws of frames, each the contract of a function that does nothing.

ghost use Rattle.std.specs.Prelude.{◌≡◌, ◌<◌, ◌≤◌, ◌+◌, ◌^◌, ◌++◌, ℕ, List, [], length, Ok};
ghost use Rattle.ilp_addr.specs.Timestamp.{IsTimestamp};
ghost use Rattle.ilp_view.specs.Below.{LawsBelow};
ghost use Rattle.ilp_view.specs.Packet.{max_frame, max_data, IsFrame, Prepare, IsPrepare, Fulfill, IsFulfill, Reject};
ghost use Rattle.ilp_view.specs.Packet.{IsReject};
ghost use Rattle.ilp_view.specs.Packet.{IsForwardOf, before_amount, behind_expiry, with_amount_and_expiry};
ghost use Rattle.ilp_view.specs.Packet.{fulfill_frame, reject_frame, written_fulfill, written_reject};
ghost use Rattle.ilp_view.specs.Reading.{prepare_at, fulfill_at, reject_at};
ghost use Rattle.oer_core.specs.Length.{AreBytes};

/// No frame is a proper prefix of another, of whatever types they are. (RFC 0027)
pub fn no_frame_begins_another()
    ensures { (first other rest : List ℕ) (k l : ℕ) (s t c d : List ℕ)
        → IsFrame first k s c → IsFrame other l t d
        → other ≡ first ++ rest → rest ≡ [] }
{
    laws_below();
}

/// A frame has one set of parts: each way to take it apart gives the same. (RFC 0027)
pub fn parts_are_the_only_ones()
    ensures prepares { (frame : List ℕ) (p q : Prepare) → IsPrepare frame p → IsPrepare frame q → p ≡ q }
    ensures fulfills { (frame : List ℕ) (p q : Fulfill) → IsFulfill frame p → IsFulfill frame q → p ≡ q }
    ensures rejects { (frame : List ℕ) (p q : Reject) → IsReject frame p → IsReject frame q → p ≡ q }
{
    laws_below();
}

/// The parts that are read from bytes as a Prepare are those of a Prepare with that frame. (RFC 0027,
/// "ILP Prepare")
pub fn what_is_read_is_a_prepare()
    ensures { (frame : List ℕ) (p : Prepare) → AreBytes frame → prepare_at frame ≡ Ok p → IsPrepare frame p }
{
    laws_below();
}

/// Each Prepare is read, as its parts. (RFC 0027, "ILP Prepare")
pub fn each_prepare_is_read()
    ensures { (frame : List ℕ) (p : Prepare) → IsPrepare frame p → prepare_at frame ≡ Ok p }
{
    laws_below();
}

/// A frame that is sent on differs from the one that came in its amount and its expiry at most.
///
/// - A Prepare with any other 8 and 17 bytes in their places is such a frame.
/// - With another amount and another date in their places, it is a Prepare of the same parts but for
///   these two. (RFC 0027, "ILP Prepare")
pub fn forwards_change_two_fields()
    ensures bytes { (frame : List ℕ) (p : Prepare) (amount expiry : List ℕ)
        → IsPrepare frame p → length amount ≡ 8 → length expiry ≡ 17
        → IsForwardOf frame (before_amount p ++ (amount ++ (expiry ++ behind_expiry p))) }
    ensures values { (frame : List ℕ) (p : Prepare) (amount : ℕ) (expiry : List ℕ)
        → IsPrepare frame p → amount < 2 ^ 64 → IsTimestamp expiry
        → IsForwardOf frame (with_amount_and_expiry p amount expiry) }
    ensures prepares { (frame : List ℕ) (p : Prepare) (amount : ℕ) (expiry : List ℕ)
        → IsPrepare frame p → amount < 2 ^ 64 → IsTimestamp expiry
        → IsPrepare (with_amount_and_expiry p amount expiry) (record p { amount = amount; expiry = expiry }) }
{
    laws_below();
}

/// A packet that a writer of this crate wrote is read as the packet of the same parts. (RFC 0027)
pub fn written_is_read_back()
    ensures fulfills { (fulfillment payload : List ℕ) → length fulfillment ≡ 32 → length payload ≤ max_data
        → fulfill_at (fulfill_frame fulfillment payload) ≡ Ok (written_fulfill fulfillment payload) }
    ensures rejects { (code triggered_by message payload : List ℕ) → length code ≡ 3 → length payload ≤ max_data
        → length (reject_frame code triggered_by message payload) ≤ max_frame
        → reject_at (reject_frame code triggered_by message payload)
        ≡ Ok (written_reject code triggered_by message payload) }
{
    laws_below();
}

/// How long written frames are. A Fulfill with as much data as a packet may have is within the limit of a
/// frame. A Reject is within it if its parts have at most 33,984 bytes: its type, its code and its
/// lengths take 16 at most. (RFC 0027)
pub fn written_frames_are_short()
    ensures fulfills { (fulfillment payload : List ℕ) → length fulfillment ≡ 32 → length payload ≤ max_data
        → length (fulfill_frame fulfillment payload) ≤ max_frame }
    ensures rejects { (code triggered_by message payload : List ℕ) → length code ≡ 3
        → length triggered_by + length message + length payload ≤ 33_984
        → length (reject_frame code triggered_by message payload) ≤ max_frame }
{
    laws_below();
}

// The laws of the crates below, for the proofs of this one.
pub(crate) fn laws_below()
    ensures { LawsBelow }
{
    oer_core::laws::lengths();
    oer_core::laws::numbers();
    oer_core::laws::writings();
    ilp_addr::laws::addresses();
    ilp_addr::laws::timestamps();
}
