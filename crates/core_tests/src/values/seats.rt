//! Counts through the seats of one thread.

ghost use Rattle.std.specs.Prelude.{◌≡◌, true};
ghost use Rattle.meters.specs.Seats.{empty_seat};

use meters::{Kind, MeterSeat, Meters, Spent, Totals};
use std::process::Abort;
use std::test::Fail;

// A count for the second of two tenants.
fn refuse(meters: &Meters, seat: &mut MeterSeat) -> Result<(), Spent>
    requires here { seat.old.meters ≡ meters.now.id }
    requires two { meters.now.tenants ≡ 2 }
    ensures same { seat.new.meters ≡ seat.old.meters }
    ensures first { seat.new.first ≡ seat.old.first }
{
    meters.count(seat, 1, Kind::ClientError)
}

fn count_in_two_seats(
    rt: &impl Abort,
    meters: &Meters,
    one: &mut MeterSeat,
    two: &mut MeterSeat,
) -> Result<(), Spent>
    requires one { one.old.meters ≡ meters.now.id }
    requires two { two.old.meters ≡ meters.now.id }
    requires tenants { meters.now.tenants ≡ 2 }
    ensures one { one.new.meters ≡ one.old.meters }
    ensures two { two.new.meters ≡ two.old.meters }
    ensures first { one.new.first ≡ one.old.first }
    ensures first_of_two { two.new.first ≡ two.old.first }
{
    refuse(meters, one)?;
    refuse(meters, two)?;
    refuse(meters, two)?;
    meters.count(two, 0, Kind::LinkFault)?;
    assert!(rt; meters.read(one, 1, Kind::ClientError) == 3);
    assert!(rt; meters.read(one, 0, Kind::LinkFault) == 1);
    Ok(())
}

fn count_together(rt: &impl Abort, meters: &Meters, first: &mut MeterSeat) -> Result<(), Spent>
    requires empty { first.old ≡ empty_seat meters.now.id true }
    requires two { meters.now.tenants ≡ 2 }
    ensures { first.new.meters ≡ first.old.meters }
{
    let mut one = meters.split(first);
    let mut two = meters.split(first);
    count_in_two_seats(rt, meters, &mut one, &mut two)?;
    meters.join(first, one);
    meters.join(first, two);
    refuse(meters, first)
}

fn expect_totals(rt: &impl Abort, totals: &Totals)
    requires { totals.now.tenants ≡ 2 }
{
    assert!(rt; totals.get(1, Kind::ClientError) == 4 && totals.get(0, Kind::LinkFault) == 1);
    for kind in [Kind::Answered, Kind::Unavailable] {
        assert!(rt; totals.get(0, kind) == 0 && totals.get(1, kind) == 0);
    }
}

#[test]
fn seats_count_together(rt: HostRuntime) -> Result<(), Fail> {
    let alloc = rt.alloc();
    let (meters, mut first) = Meters::new(alloc, 2)?;
    count_together(&rt, &meters, &mut first)?;
    expect_totals(&rt, &meters.close(first));
    let text = Spent.to_string(alloc)?;
    assert!(rt; text.as_str() == "this seat has counted 2^40 of them");
    Ok(())
}
