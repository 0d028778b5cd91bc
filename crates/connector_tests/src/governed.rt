//! Commands of operators, through replays.

use crate::rows::expect_rows;
use std::test::Fail;

static PEERS: &str = "\
== a peer is added and removed
> do acme {T} peer add carol child tok-carol http://127.0.0.1:7803/ilp out-carol EUR 2 1000 1000 1000 1 0
> do acme {T} peer add carol child tok-carol http://127.0.0.1:7803/ilp out-carol EUR 2 1000 1000 1000 1 0
> do acme {T} peer remove carol
> do acme {T} peer remove carol
> do acme {T} peer add carol child tok-carol http://127.0.0.1:7803/ilp out-carol EUR 2 1000 1000 1000 1 0
acme ok
acme refused present
acme ok
acme refused absent
acme ok
== a name or a token is taken
> do acme {T} peer add bob child tok-carol http://127.0.0.1:7803/ilp out-carol EUR 2 1000 1000 1000 1 0
> do acme {T} peer add carol child tok-bob http://127.0.0.1:7803/ilp out-carol EUR 2 1000 1000 1000 1 0
acme refused present
acme refused present
== the next peer's cap
> do acme {T} peer limits bob 1499 1000000 1000000
acme ok
>> alice|{base}|{T}|reply {F08 1000 999}
> do acme {T} peer limits bob 999 1000000 1000000
acme ok
>> alice|{base}|{T}|reply {F08 1000 666}
> do acme {T} peer limits bob 1000 1000000 1000000
acme ok
>> alice|{base}|{T}|reply {F08 1000 667}
== the greatest cap
> do acme {T} peer limits alice 4611686018427387904 1000000 1000000
acme ok
>> alice|{base max}|{T}|reply {F08 max 2^62}
== the sender's ceiling
> do acme {T} peer limits alice 1000000 999 1000000
acme ok
>> alice|{base}|{T}|reply {T04}
> do acme {T} peer limits alice 1000000 1000 1000000
acme ok
>> alice|{base}|{T}|send bob 0 {sent}
== the receiver's credit
> do acme {T} peer limits bob 1000000 1000000 1499
acme ok
>> alice|{base}|{T}|reply {T04}
> do acme {T} peer limits bob 1000000 1000000 1500
acme ok
>> alice|{base}|{T}|send bob 0 {sent}
== limits and buckets of nobody
> do acme {T} peer limits carol 1 1 1
> do acme {T} peer bucket carol 1 1
acme refused absent
acme refused absent
== a peer with a balance or a route stays, and rates go with a peer
> do acme {T} settle out alice 1
> do acme {T} peer remove alice
> do acme {T} settle in alice 1
> do acme {T} peer remove alice
> do acme {T} rate set alice bob 1 1
> do acme {T} peer remove bob
> do acme {T} route remove g.acme.bob
> do acme {T} peer remove bob
> do acme {T} peer remove bob
acme ok
acme refused in-use
acme ok
acme ok
acme refused absent
acme refused in-use
acme ok
acme ok
acme refused absent
== a peer that is added again has no rate
> do acme {T} peer remove alice
acme ok
> do acme {T} peer add alice peer tok-alice http://127.0.0.1:7801/ilp out-alice USD 2 1000000 1000000 1000000 100 100
acme ok
>> alice|{base}|{T}|reply {F02}
== a packet that awaits its answer keeps its peers
>> alice|{base}|{T}|send bob 0 {sent}
> do acme {T} roll
acme refused in-use
> do acme {T} peer remove bob
acme refused in-use
> load 0 acme tok-alice {base}
- busy
> do acme {T} route remove g.acme.bob
acme ok
> tick acme {T+9000}
acme ticked 1
> do acme {T+9000} peer remove bob
acme refused in-use
> answer 0 {T+9000} fault
acme reply {R00}
> do acme {T+9000} peer remove bob
acme ok
";

static ROUTES_AND_RATES: &str = "\
== a rate is set
> do acme {T} rate set alice bob 1 2
acme ok
>> alice|{base 1}|{T}|send bob 0 {sent 0}
== a rate of nobody
> do acme {T} rate set alice carol 1 1
> do acme {T} rate set carol bob 1 1
acme refused absent
acme refused absent
== routes are added and removed
> do acme {T} route add g.acme.bob alice
acme refused present
> do acme {T} route add g.acme.bob. alice
acme refused present
> do acme {T} route add g.acme.carol carol
acme refused absent
> do acme {T} route remove g.acme.carol
acme refused absent
> do acme {T} route remove g.acme.bob.
acme ok
>> alice|{base}|{T}|reply {F02}
> do acme {T} route add * bob
acme ok
>> alice|{base}|{T}|send bob 0 {sent}
== a route to a peer that was added
> do acme {T} peer add carol child tok-carol http://127.0.0.1:7803/ilp out-carol EUR 2 1000000 1000000 1000000 1 0
acme ok
> do acme {T} route add g.acme.bob.x carol
acme ok
> do acme {T} rate set alice carol 2 1
acme ok
>> alice|{base}|{T}|send carol 0 {sent to carol}
";

static MONEY: &str = "\
== what is held and what was paid
>> alice|{base}|{T}|send bob 0 {sent}
> do acme {T} balances
acme balance alice 0 1000 0
acme balance bob 0 0 1500
acme ok
> answer 0 {T} {fulfill}
acme reply {fulfill}
> do acme {T} balances
acme balance alice 1000 0 0
acme balance bob -1500 0 0
acme ok
> do acme {T} roll
acme balance alice 1000 0 0
acme balance bob -1500 0 0
acme rolled 0 3
== money is settled to the bounds
> do acme {T} settle in alice 4611686018427387904
> do acme {T} settle in alice 1
> do acme {T} settle out alice 4611686018427387904
> do acme {T} settle out alice 4611686018427387904
> do acme {T} settle out alice 1
> do acme {T} settle in carol 1
> do acme {T} balances
acme ok
acme refused limit
acme ok
acme ok
acme refused limit
acme refused absent
acme balance alice 4611686018427387904 0 0
acme balance bob 0 0 0
acme ok
== what is held counts at the bounds
>> alice|{base}|{T}|send bob 0 {sent}
> do acme {T} settle out alice 4611686018427386905
acme refused limit
> do acme {T} settle out alice 4611686018427386904
acme ok
> do acme {T} settle in bob 4611686018427386405
acme refused limit
> do acme {T} settle in bob 4611686018427386404
acme ok
";

static BUCKETS: &str = "\
== a bucket is changed
> do acme {T} peer bucket alice 2 1
acme ok
>> alice|{other}|{T}|reply {F02}
>> alice|{other}|{T}|reply {F02}
>> alice|{other}|{T}|reply {T05}
>> alice|{other}|{T+999}|reply {T05}
>> alice|{other}|{T+1000}|reply {F02}
== an empty bucket is empty after a roll
> do acme {T} peer bucket alice 2 1
acme ok
>> alice|{other}|{T}|reply {F02}
>> alice|{other}|{T}|reply {F02}
>> alice|{other}|{T}|reply {T05}
> do acme {T} roll
acme balance alice 0 0 0
acme balance bob 0 0 0
acme rolled 0 5
>> alice|{other}|{T}|reply {T05}
>> alice|{other}|{T+999}|reply {T05}
>> alice|{other}|{T+1000}|reply {F02}
== a smaller bucket and the old one again
> do acme {T} peer bucket alice 1 0
acme ok
> do acme {T} peer bucket alice 2 0
acme ok
>> alice|{other}|{T}|reply {F02}
>> alice|{other}|{T}|reply {T05}
== a moment that goes back fills no bucket
> do acme {T+1000} peer bucket alice 1 1
acme ok
>> alice|{other}|{T+1000}|reply {F02}
>> alice|{other}|{T}|reply {T05}
> do acme {T} peer bucket alice 1 1
acme ok
>> alice|{other}|{T+1000}|reply {T05}
>> alice|{other}|{T+2000}|reply {F02}
";

static PERIODS: &str = "\
== a journal of two places, closed and begun again
| acme|journal|2
>> alice|{base}|{T}|send bob 0 {sent}
> tick acme {T}
acme refused full
> do acme {T} roll
acme refused in-use
> answer 0 {T} {fulfill}
acme reply {fulfill}
> do acme {T} rate set alice bob 1 2
acme refused full
> do acme {T} roll
acme balance alice 1000 0 0
acme balance bob -1500 0 0
acme rolled 0 3
>> alice|{base}|{T}|send bob 1 {sent}
== a full journal takes balances and a roll
| acme|journal|2
> do acme {T} settle out alice 1
> do acme {T} settle in alice 1
> do acme {T} settle in alice 1
> do acme {T} peer remove carol
> do acme {T} balances
> do acme {T} roll
> do acme {T} settle in alice 1
acme ok
acme ok
acme refused full
acme refused full
acme balance alice 0 0 0
acme balance bob 0 0 0
acme ok
acme balance alice 0 0 0
acme balance bob 0 0 0
acme rolled 0 3
acme ok
== a stranger leaves no entry
>> none|{base}|{T}|stranger
> do acme {T} roll
acme balance alice 0 0 0
acme balance bob 0 0 0
acme rolled 0 1
== periods are numbered, and balances carried over
>> alice|{base}|{T}|send bob 0 {sent}
> answer 0 {T} {fulfill}
acme reply {fulfill}
> do acme {T} roll
acme balance alice 1000 0 0
acme balance bob -1500 0 0
acme rolled 0 3
> do acme {T} roll
acme balance alice 1000 0 0
acme balance bob -1500 0 0
acme rolled 1 1
> do acme {T} balances
acme balance alice 1000 0 0
acme balance bob -1500 0 0
acme ok
== the clock is carried over
> do acme {T+10000} roll
acme balance alice 0 0 0
acme balance bob 0 0 0
acme rolled 0 1
>> alice|{base}|{T}|reply {R02}
== balances and what is refused leave the clock
> do acme {T+10000} balances
acme balance alice 0 0 0
acme balance bob 0 0 0
acme ok
> do acme {T+10000} peer remove carol
acme refused absent
>> alice|{base}|{T}|send bob 0 {sent}
== a loaded call outlives a roll
> load 0 acme tok-alice {base}
> do acme {T} roll
> decide 0 {T}
acme loaded 0
acme balance alice 0 0 0
acme balance bob 0 0 0
acme rolled 0 1
acme send bob 0 {sent}
";

#[test]
fn operators_govern_while_packets_pass(rt: HostRuntime) -> Result<(), Fail> {
    let alloc = rt.alloc();
    expect_rows(&rt, alloc, PEERS)?;
    expect_rows(&rt, alloc, ROUTES_AND_RATES)?;
    expect_rows(&rt, alloc, MONEY)?;
    expect_rows(&rt, alloc, BUCKETS)?;
    expect_rows(&rt, alloc, PERIODS)?;
    Ok(())
}
