//! Children that ask for their configuration (RFC 0031), through replays.

use crate::rows::expect_rows;
use std::test::Fail;

static REQUESTS: &str = "\
== a child is told its configuration, and nothing is held
>> bob|{config}|{T}|reply {configuration of bob}
> do acme {T} roll
acme balance alice 0 0 0
acme balance bob 0 0 0
acme rolled 0 2
== an amount, and another condition
>> bob|{config with 1}|{T}|reply {F03}
>> bob|{config of another condition}|{T}|reply {F05}
== a peer that is no child
>> alice|{config}|{T}|reply {F00}
>> alice|{config with 1}|{T}|reply {F00}
== a stranger
>> none|{config}|{T}|stranger
== a child that was added, with a bucket of one packet
> do acme {T} peer add carol child tok-carol http://127.0.0.1:7803/ilp out-carol EUR 2 1000 1000 1000 1 0
acme ok
>> carol|{config}|{T}|reply {configuration of carol}
>> carol|{config}|{T}|reply {T05}
== a request that comes too late
> load 0 acme tok-bob 0c460000000000000000{until 0 s}{condition}{to config}00
> decide 0 {T}
acme loaded 0
acme reply {R02}
== a full journal
| acme|journal|2
>> alice|{base}|{T}|send bob 0 {sent}
> answer 0 {T} {fulfill}
acme reply {fulfill}
>> bob|{config}|{T}|reply {T03}
";

#[test]
fn children_are_told_their_configuration(rt: HostRuntime) -> Result<(), Fail> {
    expect_rows(&rt, rt.alloc(), REQUESTS)
}
