//! The keys of setups that nobody reads, in words for people.

use admin_text::ignored_keys;
use std::alloc::Global;
use std::process::Abort;
use std::test::Fail;

const KEYS: &str = "colour = \"red\"
[[tenant]]
name = \"acme\"
address = \"g.acme\"
admin = \"root-a\"
admin-old = \"s3cret\"
jurnal = 64
\"two words\" = true
[[tenant.peer]]
name = \"alice\"
role = \"peer\"
token = \"tok-alice\"
url = \"http://127.0.0.1:7801/ilp\"
out_token = \"out-alice\"
asset = \"USD\"
scale = 2
cap = 1
ceiling = 1
credit = 1
burst = 1
per_second = 1
balence = 5
Out_Token = \"s3cret\"
tokn = \"s3cret\"
[[tenant.peer]]
name = \"bob\"
role = \"child\"
token = \"tok-bob\"
url = \"http://127.0.0.1:7802/ilp\"
out_token = \"out-bob\"
asset = \"XRP\"
scale = 9
cap = 1
ceiling = 1
credit = 1
burst = 1
per_second = 1
balance = 0
[[tenant.route]]
prefix = \"*\"
peer = \"alice\"
fee = 5
[[tenant.route]]
prefix = \"g.acme.bob\"
peer = \"bob\"
[tenant.route.fees]
[[tenant.rate]]
from = \"alice\"
to = \"bob\"
num = 3
den = 2
Num = 1.5
[[tenant]]
name = \"beta\"
address = \"g.beta\"
admin = \"root-b\"
journal = 64
margin = 1000
hold = 30000
peers = []
0123456789012345678901234567890123456789012345678901234567890123 = 1
01234567890123456789012345678901234567890123456789012345678901234 = 1
";

const COLOUR: &str = "colour: an unknown key, ignored\n";

const IN_TENANTS: &str = "tenant 0 acme: admin-old: an unknown key, ignored
tenant 0 acme: jurnal = 64: an unknown key, ignored
tenant 0 acme: \"two words\" = true: an unknown key, ignored
tenant 0 acme: peer 1 alice: Out_Token: an unknown key, ignored
tenant 0 acme: peer 1 alice: balence = 5: an unknown key, ignored
tenant 0 acme: peer 1 alice: tokn: an unknown key, ignored
";

const BEHIND: &str = "tenant 0 acme: route 2 g.acme.bob: fees is a table: an unknown key, ignored
tenant 0 acme: rate 1 alice to bob: Num is a float: an unknown key, ignored
tenant 1 beta: 0123456789012345678901234567890123456789012345678901234567890123 = 1: an unknown key, ignored
tenant 1 beta: a key of 65 bytes = 1: an unknown key, ignored
tenant 1 beta: peers is an array: an unknown key, ignored
";

const FEE: &str = "tenant 0 acme: route 1 *: fee = 5: a key of version 2, ignored in version 1\n";

// What is said of a setup of that version, a line for each key.
fn said_of(alloc: Global, version: &str) -> Result<String, Fail> {
    let text = ["version = ", version, "\nstart = 0\n", KEYS].concat(alloc)?;
    let keys = ignored_keys(alloc, text.as_bytes())?;
    let mut said = String::new(alloc);
    for key in keys.as_slice() {
        said.push_str(key.words.as_str())?;
        said.push('\n')?;
    }
    Ok(said)
}

fn expect_said(rt: &impl Abort, alloc: Global, version: &str, wanted: &[&str]) -> Result<(), Fail> {
    let said = said_of(alloc, version)?;
    let wanted = wanted.concat(alloc)?;
    assert!(rt;
        said.as_str() == wanted.as_str(),
        "version {version}: {said}"
    );
    Ok(())
}

#[test]
fn keys_that_nobody_reads_are_said(rt: HostRuntime) -> Result<(), Fail> {
    let alloc = rt.alloc();
    expect_said(&rt, alloc, "2", &[COLOUR, IN_TENANTS, BEHIND])?;
    expect_said(&rt, alloc, "1", &[COLOUR, IN_TENANTS, FEE, BEHIND])?;
    expect_said(&rt, alloc, "3", &[])
}
