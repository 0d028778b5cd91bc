//! Each check of a packet, through a replay.

use crate::rows::expect_rows;
use std::test::Fail;

// Caps, buckets, ceilings and credits.
static LIMITS: &str = "\
== over the next peer's cap
| bob|cap|1499
>> alice|{base}|{T}|reply {F08 1000 999}
== the next peer's cap is a price
| bob|cap|999
>> alice|{base}|{T}|reply {F08 1000 666}
== the next peer's cap is the price of one more
| bob|cap|1000
>> alice|{base}|{T}|reply {F08 1000 667}
== within the next peer's cap
| bob|cap|1499
>> alice|{base 999}|{T}|send bob 0 {sent 1498}
== at the next peer's cap
| bob|cap|1500
>> alice|{base}|{T}|send bob 0 {sent}
== over the sender's cap
| alice|cap|999
>> alice|{base}|{T}|reply {F08 1000 999}
== at the sender's cap
| alice|cap|1000
>> alice|{base}|{T}|send bob 0 {sent}
== the greatest amount
| alice|cap|4611686018427387904
>> alice|{base max}|{T}|reply {F08 max 2^62}
== a bucket of two packets and one a second
| alice|burst|2
| alice|per_second|1
>> alice|{other}|{T}|reply {F02}
>> alice|{other}|{T}|reply {F02}
>> alice|{other}|{T}|reply {T05}
>> alice|{other}|{T+999}|reply {T05}
>> alice|{other}|{T+1000}|reply {F02}
== a moment that goes back refills no bucket
| alice|burst|2
| alice|per_second|1
>> alice|{other}|{T+1000}|reply {F02}
>> alice|{other}|{T+1000}|reply {F02}
>> alice|{other}|{T}|reply {T05}
>> alice|{other}|{T+1000}|reply {T05}
>> alice|{other}|{T+2000}|reply {F02}
== each peer has a bucket of its own
| alice|burst|1
| alice|per_second|0
>> alice|{other}|{T}|reply {F02}
>> alice|{other}|{T}|reply {T05}
>> bob|{other}|{T}|reply {F02}
== over the sender's ceiling
| alice|ceiling|999
>> alice|{base}|{T}|reply {T04}
== at the sender's ceiling
| alice|ceiling|1000
>> alice|{base}|{T}|send bob 0 {sent}
== over the next peer's credit
| bob|credit|1499
>> alice|{base}|{T}|reply {T04}
== at the next peer's credit
| bob|credit|1500
>> alice|{base}|{T}|send bob 0 {sent}
== what the sender owes counts against its ceiling
| alice|ceiling|1000
| alice|balance|1
>> alice|{base}|{T}|reply {T04}
== what the sender is owed lets it send more
| alice|ceiling|999
| alice|balance|-1
>> alice|{base}|{T}|send bob 0 {sent}
== what the next peer is owed counts against its credit
| bob|credit|1500
| bob|balance|-1
>> alice|{base}|{T}|reply {T04}
== what the next peer owes lets it be sent more
| bob|credit|1499
| bob|balance|1
>> alice|{base}|{T}|send bob 0 {sent}
== a refused packet is not held
| alice|cap|1000
| alice|ceiling|1000
>> alice|{base max}|{T}|reply {F08 max 1000}
>> alice|{base}|{T}|send bob 0 {sent}
";

#[test]
fn limits_of_peers(rt: HostRuntime) -> Result<(), Fail> {
    expect_rows(&rt, rt.alloc(), LIMITS)
}

// Routes and rates.
static WAYS: &str = "\
== the longest prefix
| route before||[[tenant.route]]
| route after||[[tenant.route]]
>> alice|{base}|{T}|send bob 0 {sent}
== a prefix that ends within a segment
| route before||[[tenant.route]]
| route before|prefix|'g.acme.bo'
| route|prefix|'g.acme'
>> alice|{base}|{T}|send bob 0 {sent}
== a prefix of one dot more at its end
| route|prefix|'g.acme.bob.'
>> alice|{base}|{T}|send bob 0 {sent}
== a scheme as a prefix
| route|prefix|'g'
>> alice|{other}|{T}|send bob 0 {other sent}
== the empty prefix
| route|prefix|'*'
>> alice|{other}|{T}|send bob 0 {other sent}
== addresses of neighbours
| route|prefix|'*'
>> bob|{below config}|{T}|reply {F02}
>> bob|{beside config}|{T}|reply {F02}
>> alice|{neighbour}|{T}|reply {F02}
== the tenant's own address and one below it
| route|prefix|'*'
>> alice|{own}|{T}|reply {F02}
>> alice|{below own}|{T}|send bob 0 {below own sent}
== more segments win
| carol||[[tenant.peer]]
| route before||[[tenant.route]]
| route before|peer|'carol'
| rate before||[[tenant.rate]]
>> alice|{base}|{T}|send bob 0 {sent}
== a segment is matched whole
| carol||[[tenant.peer]]
| route before||[[tenant.route]]
| route before|peer|'carol'
| rate before||[[tenant.rate]]
>> alice|{bobby}|{T}|send carol 0 {bobby sent}
== the shorter prefix where the longer fails
| carol||[[tenant.peer]]
| route before||[[tenant.route]]
| route before|peer|'carol'
| rate before||[[tenant.rate]]
>> alice|{below own}|{T}|send carol 0 {below own to carol}
== the default where no other prefix matches
| carol||[[tenant.peer]]
| route before||[[tenant.route]]
| route before|peer|'carol'
| rate before||[[tenant.rate]]
| route before|prefix|'*'
>> alice|{other}|{T}|send carol 0 {other to carol}
== no rate for the pair
| route|prefix|'*'
| route|peer|'alice'
>> bob|{other}|{T}|reply {F02}
== no route
| route||-
>> alice|{base}|{T}|reply {F02}
== no rate
| rate||-
>> alice|{base}|{T}|reply {F02}
== of two rates for a pair the later
| rate back||[[tenant.rate]]
| rate after||[[tenant.rate]]
>> alice|{base}|{T}|send bob 0 {sent 500}
";

#[test]
fn ways_to_peers(rt: HostRuntime) -> Result<(), Fail> {
    expect_rows(&rt, rt.alloc(), WAYS)
}
