//! Frames, replies and moments, in hexadecimal digits and digits, by names in braces.

use std::alloc::{AllocError, Global};
use std::test::Fail;

// The values of names in braces: on each line a name, a colon and its value, which may contain other names. The values
// were worked out by hand from the formats of RFC 0027 and RFC 0030.
static NAMES: &str = "\
T: 1893456000000
T+999: 1893456000999
T+1000: 1893456001000
T+2000: 1893456002000
T+8999: 1893456008999
T+9000: 1893456009000
T+10000: 1893456010000
until 0 s: 3230333030313031303030303030303030
until 1 s: 3230333030313031303030303031303030
until 400 ms: 3230333030313031303030303030343030
until 1400 ms: 3230333030313031303030303031343030
until 8 s: 3230333030313031303030303038303030
until 9 s: 3230333030313031303030303039303030
until 10 s: 3230333030313031303030303130303030
month 13: 3230333031333031303030303130303030
condition: 66687aadf862bd776c8fc18b8e9f8e20089714856ee233b3902a591d0d5f2925
CONDITION: 66687AADF862BD776C8FC18B8E9F8E20089714856EE233B3902A591D0D5F2925
to bob: 0c672e61636d652e626f622e78
to bobby: 0e672e61636d652e626f6262792e78
to below: 08672e61636d652e78
to other: 07672e6f74686572
by acme: 06672e61636d65
by beta: 06672e62657461
too large: 10616d6f756e7420746f6f206c61726765
base: 0c4700000000000003e8{until 10 s}{condition}{to bob}00
base cut: 0c4700000000000003e8{until 10 s}{condition}{to bob}
base until 0 s: 0c4700000000000003e8{until 0 s}{condition}{to bob}00
base until 1 s: 0c4700000000000003e8{until 1 s}{condition}{to bob}00
base in month 13: 0c4700000000000003e8{month 13}{condition}{to bob}00
base until 1400 ms: 0c4700000000000003e8{until 1400 ms}{condition}{to bob}00
base 999: 0c4700000000000003e7{until 10 s}{condition}{to bob}00
base max: 0c47ffffffffffffffff{until 10 s}{condition}{to bob}00
BASE: 0C4700000000000003E8{until 10 s}{CONDITION}0C672E61636D652E626F622E7800
long: 0c82004800000000000003e8{until 10 s}{condition}{to bob}8100
long sent: 0c82004800000000000005dc{until 9 s}{condition}{to bob}8100
sent: 0c4700000000000005dc{until 9 s}{condition}{to bob}00
sent until 400 ms: 0c4700000000000005dc{until 400 ms}{condition}{to bob}00
sent until 8 s: 0c4700000000000005dc{until 8 s}{condition}{to bob}00
sent 1498: 0c4700000000000005da{until 9 s}{condition}{to bob}00
sent 1000: 0c4700000000000003e8{until 9 s}{condition}{to bob}00
sent 998: 0c4700000000000003e6{until 9 s}{condition}{to bob}00
sent 500: 0c4700000000000001f4{until 9 s}{condition}{to bob}00
bobby: 0c4900000000000003e8{until 10 s}{condition}{to bobby}00
bobby sent: 0c4900000000000007d0{until 9 s}{condition}{to bobby}00
other: 0c4200000000000003e8{until 10 s}{condition}{to other}00
other sent: 0c4200000000000005dc{until 9 s}{condition}{to other}00
other to carol: 0c4200000000000007d0{until 9 s}{condition}{to other}00
own: 0c4100000000000003e8{until 10 s}{condition}{by acme}00
below own: 0c4300000000000003e8{until 10 s}{condition}{to below}00
below own sent: 0c4300000000000005dc{until 9 s}{condition}{to below}00
below own to carol: 0c4300000000000007d0{until 9 s}{condition}{to below}00
to config: 0b706565722e636f6e666967
config: 0c460000000000000000{until 10 s}{condition}{to config}00
config with 1: 0c460000000000000001{until 10 s}{condition}{to config}00
config of another condition: 0c460000000000000000{until 10 s}{another condition}{to config}00
another condition: 66687aadf862bd776c8fc18b8e9f8e20089714856ee233b3902a591d0d5f2924
below config: 0c480000000000000000{until 10 s}{condition}0d706565722e636f6e6669672e7800
beside config: 0c470000000000000000{until 10 s}{condition}0c706565722e636f6e6669677300
configuration of bob: 0d31{31 zeros}00100a672e61636d652e626f620903585250
configuration of carol: 0d33{31 zeros}00120c672e61636d652e6361726f6c0203455552
F00: 0e17463030{by acme}0b626164207265717565737400
F03: 0e1a463033{by acme}0e696e76616c696420616d6f756e7400
base 1: 0c470000000000000001{until 10 s}{condition}{to bob}00
sent 0: 0c470000000000000000{until 9 s}{condition}{to bob}00
sent to carol: 0c4700000000000007d0{until 9 s}{condition}{to bob}00
wide: 0c81ab00000000000003e8{until 10 s}{condition}{to bob}64{100 times aa}
wide sent: 0c81ab00000000000005dc{until 9 s}{condition}{to bob}64{100 times aa}
100 times aa: aaaaaaaaaaaaaaaaaaaaaaaaaaaaaaaaaaaaaaaaaaaaaaaaaaaaaaaaaaaaaaaaaaaaaaaaaaaaaaaaaaaaaaaaaaaaaaaaaaaa\
            aaaaaaaaaaaaaaaaaaaaaaaaaaaaaaaaaaaaaaaaaaaaaaaaaaaaaaaaaaaaaaaaaaaaaaaaaaaaaaaaaaaaaaaaaaaaaaaaaaaa
to bob of beta: 0c672e626574612e626f622e78
for beta: 0c4700000000000003e8{until 10 s}{condition}{to bob of beta}00
for beta sent: 0c4700000000000005dc{until 9 s}{condition}{to bob of beta}00
neighbour: 0c4800000000000003e8{until 10 s}{condition}0d706565722e61636d652e626f6200
F02: 0e17463032{by acme}0b756e726561636861626c6500
F05: 0e1b463035{by acme}0f77726f6e6720636f6e646974696f6e00
T01: 0e1c543031{by acme}107065657220756e726561636861626c6500
T01 of beta: 0e1c543031{by beta}107065657220756e726561636861626c6500
T03: 0e1a543033{by acme}0e636f6e6e6563746f72206275737900
R00: 0e1e523030{by acme}127472616e736665722074696d6564206f757400
fulfill: 0d21{31 zeros}0000
fulfill of another condition: 0d21{31 zeros}0100
fulfill cut: 0d21{31 zeros}00
31 zeros: 00000000000000000000000000000000000000000000000000000000000000
R01: 0e26523031{by acme}1a696e73756666696369656e7420736f7572636520616d6f756e7400
R02: 0e20523032{by acme}14696e73756666696369656e742074696d656f757400
T04: 0e22543034{by acme}16696e73756666696369656e74206c697175696469747900
T05: 0e18543035{by acme}0c72617465206c696d6974656400
F08 1000 999: 0e2c463038{by acme}{too large}1000000000000003e800000000000003e7
F08 1000 666: 0e2c463038{by acme}{too large}1000000000000003e8000000000000029a
F08 1000 667: 0e2c463038{by acme}{too large}1000000000000003e8000000000000029b
F08 max 1000: 0e2c463038{by acme}{too large}10ffffffffffffffff00000000000003e8
F08 max 2^62: 0e2c463038{by acme}{too large}10ffffffffffffffff4000000000000000
";

fn value_of(names: &'static str, name: &str) -> Option<&'static str> {
    for line in names.lines() {
        let (known, value) = line.split_once(": ")?;
        if known == name {
            return Some(value);
        }
    }
    None
}

// That a text of a row has a name that has no value.
fn unknown(alloc: Global, row: &str, name: &str) -> Result<Fail, AllocError> {
    let mut said = String::from_str(alloc, row)?;
    said.push_str(": no value has the name ")?;
    said.push_str(name)?;
    Ok(Fail::new(said))
}

// The text with each name in braces replaced by its value.
fn with_values(alloc: Global, names: &'static str, row: &str, text: &str) -> Result<String, Fail> {
    let mut pieces = text.split('{');
    let mut filled = String::from_str(alloc, pieces.next().unwrap_or(""))?;
    for piece in pieces {
        let (name, rest) = piece.split_once('}').ok_or("a brace that ends")?;
        let Some(value) = value_of(names, name) else {
            return Err(unknown(alloc, row, name)?);
        };
        filled.push_str(value)?;
        filled.push_str(rest)?;
    }
    Ok(filled)
}

/// The text with the values of the names in braces. If a name has no value, the failure has the row's title and the
/// name.
pub fn filled_in(alloc: Global, row: &str, text: &str) -> Result<String, Fail> {
    let once = with_values(alloc, NAMES, row, text)?;
    with_values(alloc, NAMES, row, once.as_str())
}

/// The text with the values of the names in braces.
pub fn filled(alloc: Global, text: &str) -> Result<String, Fail> {
    filled_in(alloc, text, text)
}

/// The bytes of hexadecimal digits and names in braces.
pub fn frame(alloc: Global, text: &str) -> Result<Vec<u8>, Fail> {
    let digits = filled(alloc, text)?;
    Ok(hex::decode(alloc, digits.as_str())?)
}
