//! The words of the meters, counted through seats.

ghost use Rattle.std.specs.Prelude.{◌≡◌, ◌<◌, false};

use meters::{Kind, MeterSeat, Meters};
use std::test::Fail;
use std::thread;

// Counts so many answers for the first tenant.
fn counted(meters: &Meters, mut seat: MeterSeat, times: u32) -> MeterSeat
    requires here { seat.meters ≡ meters.now.id }
    requires plain { seat.first ≡ false }
    requires tenant { 0 < meters.now.tenants }
    ensures here { result.meters ≡ meters.now.id }
    ensures plain { result.first ≡ false }
{
    for _ in 0..times {
        let _ = meters.count(&mut seat, 0, Kind::Answered);
    }
    seat
}

#[test]
fn two_threads_count_one_word(rt: HostRuntime) -> Result<(), Fail> {
    let (meters, mut first) = Meters::new(rt.alloc(), 1)?;
    let one = meters.split(&mut first);
    let two = meters.split(&mut first);
    let (one, two) = thread::join(
        &rt,
        || counted(&meters, one, 3),
        || counted(&meters, two, 4),
    );
    meters.join(&mut first, one);
    meters.join(&mut first, two);
    assert!(rt; meters.close(first).get(0, Kind::Answered) == 7);
    Ok(())
}
