//! Another amount and another expiry in the Prepare in a buffer. Every other byte stays.

ghost use Rattle.std.specs.Prelude.{◌≡◌, ◌≤◌, IfOk, IsOk, length, take};
ghost use Rattle.std.specs.Int.{w64, to_be_bytes};
ghost use Rattle.ilp_addr.specs.Timestamp.{latest_expiry, timestamp_of};
ghost use Rattle.ilp_view.specs.Lent.{HasFields, with_fields};
ghost use Rattle.ilp_view.specs.Packet.{with_amount_and_expiry};
ghost use Rattle.ilp_view.specs.Reading.{prepare_at};

use ilp_addr::Stamp;
use ilp_view::PrepareMut;

// Another amount and another expiry in the Prepare of that length at the front of the buffer.
pub(crate) fn rewrite(room: &mut [u8], len: usize, amount: u64, expiry: u64)
    requires len { len ≤ length room.old }
    requires prepare { IsOk (prepare_at (take len room.old)) }
    requires expiry { expiry ≤ latest_expiry }
    ensures { IfOk (prepare_at (take len room.old)) (λ p.
        take len room.new ≡ with_amount_and_expiry p amount (timestamp_of expiry)) }
{
    overwrite(&mut room[..len], amount, expiry);
}

// Another amount and another expiry in a frame that is a Prepare.
fn overwrite(frame: &mut [u8], amount: u64, expiry: u64)
    requires prepare { IsOk (prepare_at frame.old) }
    requires expiry { expiry ≤ latest_expiry }
    ensures { IfOk (prepare_at frame.old) (λ p. frame.new ≡ with_amount_and_expiry p amount (timestamp_of expiry)) }
{
    let mut prepare = PrepareMut::of_known(frame);
    fill(&mut prepare, amount, expiry);
}

// That amount and that expiry in the place of the Prepare's own.
fn fill(prepare: &mut PrepareMut<'_>, amount: u64, expiry: u64)
    requires fields { HasFields prepare.old }
    requires expiry { expiry ≤ latest_expiry }
    ensures { prepare.new ≡ with_fields prepare.old (to_be_bytes w64 amount) (timestamp_of expiry) }
{
    let (amount_bytes, expiry_bytes) = prepare.lend();
    write_fields(amount_bytes, expiry_bytes, amount, expiry);
}

// The amount and the expiry as the bytes of their fields.
fn write_fields(amount_bytes: &mut [u8], expiry_bytes: &mut [u8], amount: u64, expiry: u64)
    requires amount_size { length amount_bytes.old ≡ 8 }
    requires expiry_size { length expiry_bytes.old ≡ 17 }
    requires expiry { expiry ≤ latest_expiry }
    ensures amount { amount_bytes.new ≡ to_be_bytes w64 amount }
    ensures expiry { expiry_bytes.new ≡ timestamp_of expiry }
{
    let mut text = [0; 17];
    Stamp::write(expiry, &mut text);
    amount_bytes.copy_from_slice(&amount.to_be_bytes());
    expiry_bytes.copy_from_slice(&text);
}
