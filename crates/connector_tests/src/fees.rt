//! Fees of routes, through replays.

use crate::rows::expect_rows;
use std::test::Fail;

static FEES: &str = "\
== a fee is kept of the price
| |version|2
| route|fee|500
>> alice|{base}|{T}|send bob 0 {sent 1000}
> answer 0 {T} {fulfill}
acme reply {fulfill}
> do acme {T} balances
acme balance alice 1000 0 0
acme balance bob -1000 0 0
acme ok
== a fee as high as the price
| |version|2
| route|fee|1500
>> alice|{base}|{T}|send bob 0 {sent 0}
== a fee above the price
| |version|2
| route|fee|1501
>> alice|{base}|{T}|reply {R01}
>> alice|{base 1}|{T}|reply {R01}
> do acme {T} roll
acme balance alice 0 0 0
acme balance bob 0 0 0
acme rolled 0 3
== the next peer's cap is what goes on
| |version|2
| route|fee|500
| bob|cap|999
>> alice|{base}|{T}|reply {F08 1000 999}
>> alice|{base 999}|{T}|send bob 0 {sent 998}
== the greatest amount has a price below the fee itself
| |version|2
| rate|num|1000
| rate|den|1
| route|fee|999500
| bob|cap|400
>> alice|{base}|{T}|reply {F08 1000 999}
>> alice|{base 999}|{T}|reply {R01}
== in version 1 there is no such key
| route|fee|500
>> alice|{base}|{T}|send bob 0 {sent}
== in version 1 the key may have any value
| route|fee|'much'
>> alice|{base}|{T}|send bob 0 {sent}
== the greatest fee
| |version|2
| route|fee|4611686018427387904
>> alice|{base}|{T}|reply {R01}
== what is held stays as it was priced
| |version|2
| route|fee|500
>> alice|{base}|{T}|send bob 0 {sent 1000}
> do acme {T} route remove g.acme.bob
acme ok
> do acme {T} route add g.acme.bob bob 1500
acme ok
> answer 0 {T} {fulfill}
acme reply {fulfill}
>> alice|{base}|{T}|send bob 1 {sent 0}
> answer 0 {T} {fulfill}
acme reply {fulfill}
> do acme {T} route remove g.acme.bob
acme ok
> do acme {T} route add g.acme.bob bob
acme ok
>> alice|{base}|{T}|send bob 2 {sent}
> do acme {T} balances
acme balance alice 2000 1000 0
acme balance bob -1000 0 1500
acme ok
";

#[test]
fn fees(rt: HostRuntime) -> Result<(), Fail> {
    expect_rows(&rt, rt.alloc(), FEES)
}
