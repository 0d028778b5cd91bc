//! What is wrong with a setup, in words for people: a row for each rule.

use super::changes::{changed_setup, changes_and_said};
use admin_text::explain;
use std::alloc::Global;
use std::process::Abort;
use std::test::Fail;
use test_texts::setup_with;

// Changes of the usual setup, and the words for what they make wrong.
static CHANGES: &str = "\
acme|other|1 > good
|version|- > version is missing: 1 and 2 are the versions
|version|3 > version = 3: 1 and 2 are the versions
|version|'1' > version = \"1\": 1 and 2 are the versions
|start|-1, acme|hold|0 > start = -1: at least 0
|start|253400000000001 > start = 253400000000001: at most 253400000000000
|start|1893456000000.0 > start is a float: a whole number from 0 to 253400000000000
|start|2030-01-01 > start is a date or a time: a whole number from 0 to 253400000000000
acme|name|- > tenant 0: name is missing: a text of 1 to 32 of a-z 0-9 -
acme|name|'Acme' > tenant 0 Acme: name = \"Acme\": a text of 1 to 32 of a-z 0-9 -
acme|address|'peer.acme' > tenant 0 acme: address = \"peer.acme\": an address as \"g.acme\", of at most 900 bytes: \
    one of the schemes g private example self test test1 test2 test3 local, and segments of A-Z a-z 0-9 _ ~ -
acme|admin|'root a' > tenant 0 acme: admin: character 5 is none of A-Z a-z 0-9 - . _ ~ + / =
acme|admin|'' > tenant 0 acme: admin is an empty text: a text of 1 to 64 of A-Z a-z 0-9 - . _ ~ + / =
acme|admin|['root-a'] > tenant 0 acme: admin is an array: a text of 1 to 64 of A-Z a-z 0-9 - . _ ~ + / =
acme|journal|1 > tenant 0 acme: journal = 1: at least 2
acme|journal|16385 > tenant 0 acme: journal = 16385: at most 16384
acme|journal|'64' > tenant 0 acme: journal = \"64\": a whole number from 2 to 16384
acme|margin|60001 > tenant 0 acme: margin = 60001: at most 60000
acme|hold|600001 > tenant 0 acme: hold = 600001: at most 600000
alice|name|- > tenant 0 acme: peer 1: name is missing: a text of 1 to 32 of a-z 0-9 -
bob|name|'alice' > tenant 0 acme: peer 2 alice: name = \"alice\": peer 1 has that name too
bob|role|'parent' > tenant 0 acme: peer 2 bob: role = \"parent\": \"child\" or \"peer\"
bob|token|true > tenant 0 acme: peer 2 bob: token is a boolean: a text of 1 to 64 of A-Z a-z 0-9 - . _ ~ + / =
bob|token|'tok-alice' > tenant 0 acme: peer 2 bob: token: peer 1 has that token too
alice|token|'0123456789012345678901234567890123456789012345678901234567890123456789' > tenant 0 acme: peer 1 alice: \
    token has 70 characters: at most 64
alice|out_token|20301231 > tenant 0 acme: peer 1 alice: out_token is an integer: a text of 1 to 64 of \
    A-Z a-z 0-9 - . _ ~ + / =
bob|out_token|'out,bob' > tenant 0 acme: peer 2 bob: out_token: character 4 is none of A-Z a-z 0-9 - . _ ~ + / =
bob|out_token|'01234567890123456789012345678901234567890123456789012345678901234' > tenant 0 acme: peer 2 bob: \
    out_token has 65 characters: at most 64
bob|url|'https://127.0.0.1/ilp' > tenant 0 acme: peer 2 bob: url = \"https://127.0.0.1/ilp\": \"http://HOST/PATH\" or \
    \"http://HOST:PORT/PATH\", of at most 255 bytes, HOST being localhost, an IPv4 address, or an IPv6 address in \
    brackets
bob|out_token|- > tenant 0 acme: peer 2 bob: out_token is missing: a text of 1 to 64 of A-Z a-z 0-9 - . _ ~ + / =
bob|asset|'' > tenant 0 acme: peer 2 bob: asset = \"\": a text of 1 to 16 of A-Z a-z 0-9
bob|scale|256 > tenant 0 acme: peer 2 bob: scale = 256: at most 255
bob|cap|4611686018427387905 > tenant 0 acme: peer 2 bob: cap = 4611686018427387905: at most 4611686018427387904
bob|cap|- > tenant 0 acme: peer 2 bob: cap is missing: a whole number from 0 to 4611686018427387904
bob|ceiling|-1 > tenant 0 acme: peer 2 bob: ceiling = -1: at least 0
bob|credit|[] > tenant 0 acme: peer 2 bob: credit is an array: a whole number from 0 to 4611686018427387904
bob|burst|0 > tenant 0 acme: peer 2 bob: burst = 0: at least 1
alice|per_second|1000001 > tenant 0 acme: peer 1 alice: per_second = 1000001: at most 1000000
bob|balance|-4611686018427387904 > good
bob|balance|-4611686018427387905 > tenant 0 acme: peer 2 bob: balance = -4611686018427387905: at least \
    -4611686018427387904
bob|balance|4611686018427387905 > tenant 0 acme: peer 2 bob: balance = 4611686018427387905: at most 4611686018427387904
route||[tenant.route] > tenant 0 acme: route is a table: an array of tables, each begun by [[tenant.route]]
|version|2, route|fee|4611686018427387905 > tenant 0 acme: route 1 g.acme.bob: fee = 4611686018427387905: at most \
    4611686018427387904
|version|2, route|fee|'much' > tenant 0 acme: route 1 g.acme.bob: fee = \"much\": a whole number from 0 to \
    4611686018427387904
route|prefix|- > tenant 0 acme: route 1: prefix is missing: an address as \"g.acme.bob\", a scheme as \"g\", or \"*\" \
    for every destination
route|prefix|'g.acme..bob' > tenant 0 acme: route 1 g.acme..bob: prefix = \"g.acme..bob\": an address as \
    \"g.acme.bob\", a scheme as \"g\", or \"*\" for every destination
route|peer|'carol' > tenant 0 acme: route 1 g.acme.bob: peer = \"carol\": no peer of this tenant has that name
route|peer|'Bob' > tenant 0 acme: route 1 g.acme.bob: peer = \"Bob\": the name of a peer of this tenant
route after||[[tenant.route]], route after|prefix|'g.acme.bob.' > tenant 0 acme: route 2 g.acme.bob.: prefix = \
    \"g.acme.bob.\": route 1 has that prefix too
empty rate||[[tenant.rate]] > tenant 0 acme: rate 1 to: from is missing: the name of a peer of this tenant
rate|from|'carol' > tenant 0 acme: rate 1 carol to bob: from = \"carol\": no peer of this tenant has that name
rate|to|'carol' > tenant 0 acme: rate 1 alice to carol: to = \"carol\": no peer of this tenant has that name
rate|to|'alice' > tenant 0 acme: rate 1 alice to alice: to = \"alice\": another peer than from names
rate|num|0 > tenant 0 acme: rate 1 alice to bob: num = 0: at least 1
rate|den|1000000000001 > tenant 0 acme: rate 1 alice to bob: den = 1000000000001: at most 1000000000000
rate after||[[tenant.rate]] > good
second tenant||[[tenant]] > tenant 1: name is missing: a text of 1 to 32 of a-z 0-9 -
carol||[[tenant.peer]], carol|asset|'a\\tb' > tenant 0 acme: peer 3 carol: asset = \"a\\tb\": a text of 1 to 16 of \
    A-Z a-z 0-9
|start| > TOML parse error at line 2, column 9: invalid value, expected a string, number, boolean, date-time, array \
    or inline table
";

const HEAD: &str = "version = 1\nstart = 0\n";

const TENANT: &str = "[[tenant]]\nname = \"acme\"\naddress = \"g.acme\"\nadmin = \"root-a\"\n";

// The text after the version and the start, and the words for what is wrong.
static TEXTS: [(&str, &str); 9] = [
    (TENANT, "good"),
    (
        "",
        "tenant is missing: 1 to 64 tables, each begun by [[tenant]]",
    ),
    (
        "tenant = []",
        "tenant is an array: 1 to 64 tables, each begun by [[tenant]]",
    ),
    (
        "[tenant]",
        "tenant is a table: 1 to 64 tables, each begun by [[tenant]]",
    ),
    ("tenant = [7]", "tenant 0 = 7: a table, begun by [[tenant]]"),
    (
        "tenant = [{ name = \"acme\", address = \"g.acme\", admin = \"root-a\", peer = 1 }]",
        "tenant 0 acme: peer = 1: an array of tables, each begun by [[tenant.peer]]",
    ),
    (
        "tenant = [{ name = \"acme\", address = \"g.acme\", admin = \"root-a\", peer = [1] }]",
        "tenant 0 acme: peer 1 = 1: a table, begun by [[tenant.peer]]",
    ),
    (
        "tenant = [{ name = \"acme\", address = \"g.acme\", admin = \"root-a\", rate = [\"a\"] }]",
        "tenant 0 acme: rate 1 = \"a\": a table, begun by [[tenant.rate]]",
    ),
    (
        "tenant = [{ name = \"a b\", address = \"g.acme\", admin = \"root-a\" }]",
        "tenant 0: name = \"a b\": a text of 1 to 32 of a-z 0-9 -",
    ),
];

fn expect_words(rt: &impl Abort, alloc: Global, text: &[u8], words: &str) -> Result<(), Fail> {
    let found = explain(alloc, text)?;
    let told = match &found {
        Some(explained) => explained.words.as_str(),
        None => "good",
    };
    assert!(rt; told == words, "{told}, and not {words}");
    Ok(())
}

// Of a text of these parts.
fn expect_words_of(
    rt: &impl Abort,
    alloc: Global,
    parts: &[&str],
    words: &str,
) -> Result<(), Fail> {
    let text = parts.concat(alloc)?;
    expect_words(rt, alloc, text.as_bytes(), words)
}

fn expect_row(rt: &impl Abort, alloc: Global, row: &'static str) -> Result<(), Fail> {
    let (changes, words) = changes_and_said(row)?;
    let text = changed_setup(alloc, changes)?;
    expect_words(rt, alloc, text.as_bytes(), words)
}

#[test]
fn what_is_wrong_is_said(rt: HostRuntime) -> Result<(), Fail> {
    let usual = setup_with(rt.alloc(), &[])?;
    expect_words(&rt, rt.alloc(), usual.as_bytes(), "good")?;
    for row in CHANGES.lines() {
        expect_row(&rt, rt.alloc(), row)?;
    }
    Ok(())
}

#[test]
fn what_is_wrong_with_texts_is_said(rt: HostRuntime) -> Result<(), Fail> {
    for (tenants, words) in TEXTS {
        expect_words_of(&rt, rt.alloc(), &[HEAD, tenants, "\n"], words)?;
    }
    Ok(())
}

#[test]
fn names_of_tenants_differ(rt: HostRuntime) -> Result<(), Fail> {
    let words = "tenant 1 acme: name = \"acme\": tenant 0 has that name too";
    expect_words_of(&rt, rt.alloc(), &[HEAD, TENANT, TENANT, "\n"], words)
}

// What is said of a tenant whose name has so many bytes.
fn expect_words_of_name(
    rt: &impl Abort,
    alloc: Global,
    bytes: usize,
    said: &[&str],
) -> Result<(), Fail> {
    let name = "a".repeat(alloc, bytes)?;
    let words = said.join(alloc, name.as_str())?;
    expect_words_of(
        rt,
        alloc,
        &[HEAD, "[[tenant]]\nname = \"", name.as_str(), "\"\n"],
        words.as_str(),
    )
}

#[test]
fn long_texts_are_counted(rt: HostRuntime) -> Result<(), Fail> {
    let alloc = rt.alloc();
    let wanted = "\": a text of 1 to 32 of a-z 0-9 -";
    // A name of 64 bytes is shown with its tenant, and one of 100 as the value at its key.
    expect_words_of_name(&rt, alloc, 64, &["tenant 0 ", ": name = \"", wanted])?;
    expect_words_of_name(&rt, alloc, 65, &["tenant 0: name = \"", wanted])?;
    expect_words_of_name(&rt, alloc, 100, &["tenant 0: name = \"", wanted])?;
    let counted = "tenant 0: name is a text of 101 bytes: a text of 1 to 32 of a-z 0-9 -";
    expect_words_of_name(&rt, alloc, 101, &[counted])
}

#[test]
fn setups_are_utf_8(rt: HostRuntime) -> Result<(), Fail> {
    let words = "TOML parse error at line 1, column 15: invalid UTF-8";
    expect_words(&rt, rt.alloc(), b"version = 1 # \xff", words)
}

// Values of a key that nobody reads, and whether each is TOML. What version 1.1 added to 1.0 is.
static FORMS: [(&str, bool); 7] = [
    ("x = [1, 2.5, 2030-01-01]", true),
    ("x = { a = 1,\n b = 2, }", true),
    ("x = \"\\e[1m \\x41\"", true),
    ("x = 07:32", true),
    ("x = 1\nx = 2", false),
    ("x = 01", false),
    ("x = 9223372036854775808", false),
];

// How deep arrays nest, and whether they may.
static DEPTHS: [(usize, bool); 2] = [(80, true), (81, false)];

fn is_good(alloc: Global, parts: &[&str]) -> Result<bool, Fail> {
    let text = parts.concat(alloc)?;
    Ok(explain(alloc, text.as_bytes())?.is_none())
}

fn is_good_at_depth(alloc: Global, depth: usize) -> Result<bool, Fail> {
    let (begin, end) = ("[".repeat(alloc, depth)?, "]".repeat(alloc, depth)?);
    is_good(
        alloc,
        &[HEAD, "x = ", begin.as_str(), end.as_str(), "\n", TENANT],
    )
}

#[test]
fn setups_are_toml(rt: HostRuntime) -> Result<(), Fail> {
    let alloc = rt.alloc();
    for (form, is_toml) in FORMS {
        assert!(rt;
            is_good(alloc, &[HEAD, form, "\n", TENANT])? == is_toml,
            "{form}"
        );
    }
    for (depth, is_toml) in DEPTHS {
        assert!(rt; is_good_at_depth(alloc, depth)? == is_toml, "{depth}");
    }
    expect_words_of(&rt, alloc, &["\u{feff}", HEAD, TENANT], "good")
}

// The text once for each of the numbers, in the place of `#`.
fn many(alloc: Global, first: usize, last: usize, what: &str) -> Result<String, Fail> {
    let mut text = String::new(alloc);
    for number in first..=last {
        let digits = number.to_string(alloc)?;
        let one = what.replace(alloc, "#", digits.as_str())?;
        text.push_str(one.as_str())?;
    }
    Ok(text)
}

const MANY_TENANTS: &str = "[[tenant]]\nname = \"t#\"\naddress = \"g.acme\"\nadmin = \"root-a\"\n";

const MANY_PEERS: &str = "[[tenant.peer]]\nname = \"p#\"\nrole = \"peer\"\ntoken = \"t#\"\n\
    url = \"http://127.0.0.1/\"\nout_token = \"t\"\nasset = \"USD\"\nscale = 2\ncap = 1\nceiling = 1\n\
    credit = 1\nburst = 1\nper_second = 1\n";

const MANY_ROUTES: &str = "[[tenant.route]]\nprefix = \"g.a#\"\npeer = \"p1\"\n";

// From the peer whose number is in the place of `%`.
const RATES_FROM: &str = "[[tenant.rate]]\nfrom = \"p%\"\nto = \"p#\"\nnum = 1\nden = 1\n";

const ONE_RATE: &str = "[[tenant.rate]]\nfrom = \"p65\"\nto = \"p1\"\nnum = 1\nden = 1\n";

// The rates of one peer to 64 others.
fn rates_from(alloc: Global, from: usize) -> Result<String, Fail> {
    let digits = from.to_string(alloc)?;
    let what = RATES_FROM.replace(alloc, "%", digits.as_str())?;
    many(alloc, 65, 128, what.as_str())
}

#[test]
fn one_tenant_or_peer_too_many(rt: HostRuntime) -> Result<(), Fail> {
    let alloc = rt.alloc();
    let tenants = many(alloc, 0, 64, MANY_TENANTS)?;
    let words = "tenant 64: a setup has at most 64 tenants";
    expect_words_of(&rt, alloc, &[HEAD, tenants.as_str()], words)?;
    let peers = many(alloc, 1, 257, MANY_PEERS)?;
    let words = "tenant 0 acme: peer 257 p257: a tenant has at most 256 peers";
    expect_words_of(&rt, alloc, &[HEAD, TENANT, peers.as_str()], words)
}

#[test]
fn one_route_too_many(rt: HostRuntime) -> Result<(), Fail> {
    let alloc = rt.alloc();
    let peer = many(alloc, 1, 1, MANY_PEERS)?;
    let routes = many(alloc, 1, 4_097, MANY_ROUTES)?;
    let words = "tenant 0 acme: route 4097 g.a4097: a tenant has at most 4096 routes";
    expect_words_of(
        &rt,
        alloc,
        &[HEAD, TENANT, peer.as_str(), routes.as_str()],
        words,
    )
}

// A tenant with as many rates as there may be, and with some of them twice.
fn many_rates(alloc: Global) -> Result<String, Fail> {
    let peers = many(alloc, 1, 128, MANY_PEERS)?;
    let mut text = [HEAD, TENANT, peers.as_str()].concat(alloc)?;
    for from in 1..=64usize {
        text.push_str(rates_from(alloc, from)?.as_str())?;
    }
    text.push_str(rates_from(alloc, 1)?.as_str())?;
    Ok(text)
}

#[test]
fn one_rate_too_many(rt: HostRuntime) -> Result<(), Fail> {
    let alloc = rt.alloc();
    let text = many_rates(alloc)?;
    expect_words(&rt, alloc, text.as_bytes(), "good")?;
    let words = "tenant 0 acme: its rates are for more than 4096 ordered pairs of peers";
    expect_words_of(&rt, alloc, &[text.as_str(), ONE_RATE], words)
}
