//! Buckets: which packets pass, worked out by hand.

ghost use Rattle.std.specs.Prelude.{◌≤◌};

use rate_bucket::Bucket;
use std::test::Fail;

fn passes(bucket: &mut Bucket, now: u64) -> bool
    requires { bucket.old.clock ≤ now }
    ensures { bucket.new.clock ≤ now }
{
    bucket.admit(now)
}

// Packets at one moment after another, and then with another burst and another rate.
#[test]
fn a_bucket_admits_what_it_holds_and_keeps_what_fits_a_change(rt: HostRuntime) -> Result<(), Fail> {
    let mut bucket = Bucket::new(2, 1, 0);
    assert!(rt; passes(&mut bucket, 0));
    assert!(rt; passes(&mut bucket, 0));
    assert!(rt; !passes(&mut bucket, 0));
    assert!(rt; !passes(&mut bucket, 999));
    assert!(rt; passes(&mut bucket, 1_000));
    bucket.change(1, 5, 2_000);
    assert!(rt; passes(&mut bucket, 2_000));
    assert!(rt; !passes(&mut bucket, 2_199));
    assert!(rt; passes(&mut bucket, 2_200));
    Ok(())
}

#[test]
fn a_bucket_never_overflows(rt: HostRuntime) -> Result<(), Fail> {
    let mut bucket = Bucket::new(1, 1_000_000, 0);
    assert!(rt; passes(&mut bucket, 0));
    assert!(rt; !passes(&mut bucket, 0));
    assert!(rt; passes(&mut bucket, 1));
    assert!(rt; passes(&mut bucket, 253_400_000_000_000));
    Ok(())
}
