//! The command line, and the program's main job.

use command_line::{CommandLine, HostWords, Task, arguments};
use replay_text::replay;
use statements::Chain;
use std::alloc::{AllocError, Global};
use std::process::Abort;
use std::test::Fail;
use std::time::Clock;
use subcommands::{
    Ending, Script, SystemClock, begin, check, exit_status, name_in, take, tell, token_of,
};

const SETUP: &str = "version = 1
start = 1893456000000
[[tenant]]
name = \"acme\"
address = \"g.acme\"
admin = \"root-a\"
";

// The words after the program's name, and what they ask for: the file of the setup, the number of workers, and the
// task. For a service come its connections, its rounds, what it reports, the host's address and token file, and the
// operators' address, whether commands come at that door only, and whether no peer rests. Or the words, and how the text begins
// that refuses them.
static LINES: &str = "\
replay s1.toml -> s1.toml 1 replay
replay s1.toml --workers 2 -> s1.toml 2 replay
replay --workers=64 s1.toml -> s1.toml 64 replay
check s1.toml -> s1.toml 1 check
check s1.toml a.script -> s1.toml 1 check
check s1.toml a.script --workers 2 -> s1.toml 2 check
check s1.toml a.script b.script -> error:
check -- -1.toml -> -1.toml 1 check
replay check -> check 1 replay
-> error:
replay -> error:
check -> error:
check s1.toml --workers 1 -> error:
replay s1.toml s2.toml -> error:
replay s1.toml --workers 0 -> error: invalid value '0' for '--workers <W>': 1 to 64
replay s1.toml --workers 65 -> error: invalid value '65' for '--workers <W>': 1 to 64
check s1.toml a.script --workers 65 -> error: invalid value '65' for '--workers <W>': 1 to 64
replay s1.toml --workers one -> error:
replay s1.toml --workers -> error:
serve s1.toml --workers 2 --rounds 3 -> s1.toml 2 serve 256 3
serve --rounds=1000000 --workers=64 s1.toml --listen=[::1]:80 -> s1.toml 64 serve 256 1000000
serve s1.toml -> error:
serve s1.toml --rounds 1 -> error:
serve s1.toml --workers 1 --connections 4096 --balances --audit -> s1.toml 1 serve 4096 - balances audit
serve s1.toml --workers 1 --balances -> s1.toml 1 serve 256 - balances
serve s1.toml --workers 1 --audit -> s1.toml 1 serve 256 - audit
serve s1.toml --workers 1 --host 127.0.0.1:7769 --host-token host.token -> s1.toml 1 serve 256 - at 127.0.0.1:7769 by host.token
serve s1.toml --workers 1 --host 127.0.0.1:7769 -> error:
serve s1.toml --workers 1 --host-token host.token -> error:
serve s1.toml --workers 1 --operators 127.0.0.1:7770 -> s1.toml 1 serve 256 - operators 127.0.0.1:7770
serve s1.toml --workers 1 --operators 127.0.0.1:7770 --host 127.0.0.1:7769 --host-token host.token -> s1.toml 1 serve 256 - at 127.0.0.1:7769 by host.token operators 127.0.0.1:7770
serve s1.toml --workers 1 --operators -> error:
serve s1.toml --workers 1 --operators 127.0.0.1:7770 --operators 127.0.0.1:7771 -> error:
replay s1.toml --operators 127.0.0.1:7770 -> error:
serve s1.toml --workers 1 --operators 127.0.0.1:7770 --no-admin -> s1.toml 1 serve 256 - operators 127.0.0.1:7770 no admin
serve s1.toml --workers 1 --no-admin -> error:
serve s1.toml --workers 65 -> error: invalid value '65' for '--workers <W>': 1 to 64
serve s1.toml --workers 1 --connections 0 -> error: invalid value '0' for '--connections <C>': 1 to 4096
serve s1.toml --workers 1 --connections 4097 -> error: invalid value '4097' for '--connections <C>': 1 to 4096
serve s1.toml --workers 1 --rounds 0 -> error: invalid value '0' for '--rounds <N>': 1 to 1000000
serve s1.toml --workers 1 --rounds 1000001 -> error: invalid value '1000001' for '--rounds <N>': 1 to 1000000
serve s1.toml --workers 1 --roll-at 80 -> s1.toml 1 serve 256 - rolls at 80
serve s1.toml --workers 1 --roll-at 0 -> error: invalid value '0' for '--roll-at <PERCENT>': 1 to 100
serve s1.toml --workers 1 --roll-at 101 -> error: invalid value '101' for '--roll-at <PERCENT>': 1 to 100
serve s1.toml --workers 1 --no-breaker -> s1.toml 1 serve 256 - no breaker
replay s1.toml --no-breaker -> error:
serve s1.toml --workers 1 --journal kept -> s1.toml 1 serve 256 -
serve s1.toml --workers 1 --journal -> error:
serve s1.toml --workers 1 --journal kept --audit -> error: the argument '--audit' cannot be used with '--journal <DIR>'
--help -> A connector
--version -> ilpd 0.1.0
-V -> ilpd 0.1.0
check --version -> error:
verify -> error:
verify --setup s1.toml -> error:
verify a.statement b.statement ->  1 verify
verify --help -> Says whether statements
verify --journal kept ->  1 verify
verify --journal kept a.statement -> error:
recover -> error:
recover kept ->  1 recover
recover kept --setup next.toml --statements closed ->  1 recover
recover --help -> Says with what the books
replay s1.toml --journal kept -> s1.toml 1 replay
check s1.toml --journal kept -> error:
help -> A connector
replay --help -> Runs the script
";

// The program's name and these words.
fn line_of(alloc: Global, words: &str) -> Result<Vec<String>, AllocError> {
    let mut line = Vec::new(alloc);
    line.push("ilpd".to_string(alloc)?)?;
    for word in words.split_whitespace() {
        line.push(word.to_string(alloc)?)?;
    }
    Ok(line)
}

fn rounds_told(alloc: Global, rounds: Option<u32>) -> Result<String, Fail> {
    match rounds {
        Some(rounds) => Ok(rounds.to_string(alloc)?),
        None => Ok(String::from_str(alloc, "-")?),
    }
}

fn word_where(is_said: bool, word: &'static str) -> &'static str {
    if is_said { word } else { "" }
}

fn task_told(alloc: Global, task: Task) -> Result<String, Fail> {
    match task {
        Task::Replay => Ok(String::from_str(alloc, "replay")?),
        Task::Check => Ok(String::from_str(alloc, "check")?),
        Task::Verify => Ok(String::from_str(alloc, "verify")?),
        Task::Recover => Ok(String::from_str(alloc, "recover")?),
        Task::Serve {
            connections,
            rounds,
            balances,
            audit,
        } => {
            let connections = connections.to_string(alloc)?;
            let rounds = rounds_told(alloc, rounds)?;
            let balances = word_where(balances, " balances");
            let audit = word_where(audit, " audit");
            Ok([
                "serve ",
                connections.as_str(),
                " ",
                rounds.as_str(),
                balances,
                audit,
            ]
            .concat(alloc)?)
        }
    }
}

fn host_told(alloc: Global, host: Option<HostWords<'_>>) -> Result<String, Fail> {
    match host {
        Some(host) => Ok([" at ", host.address, " by ", host.token_file].concat(alloc)?),
        None => Ok(String::new(alloc)),
    }
}

fn roll_at_told(alloc: Global, percent: Option<u8>) -> Result<String, Fail> {
    let Some(percent) = percent else {
        return Ok(String::new(alloc));
    };
    let percent = percent.to_string(alloc)?;
    Ok([" rolls at ", percent.as_str()].concat(alloc)?)
}

fn operators_told(alloc: Global, operators: Option<&str>) -> Result<String, Fail> {
    match operators {
        Some(address) => Ok([" operators ", address].concat(alloc)?),
        None => Ok(String::new(alloc)),
    }
}

// What the line goes without.
fn without_told(alloc: Global, line: &CommandLine<'_>) -> Result<String, Fail> {
    let admin = word_where(!line.admin, " no admin");
    let breakers = word_where(!line.breakers, " no breaker");
    Ok([admin, breakers].concat(alloc)?)
}

fn told(alloc: Global, line: &CommandLine<'_>) -> Result<String, Fail> {
    let workers = line.workers.to_string(alloc)?;
    let task = task_told(alloc, line.task)?;
    let host = host_told(alloc, line.host)?;
    let operators = operators_told(alloc, line.operators)?;
    let without = without_told(alloc, line)?;
    let roll_at = roll_at_told(alloc, line.roll_at)?;
    Ok([
        line.setup,
        " ",
        workers.as_str(),
        " ",
        task.as_str(),
        host.as_str(),
        operators.as_str(),
        without.as_str(),
        roll_at.as_str(),
    ]
    .concat(alloc)?)
}

fn is_read_as(alloc: Global, words: &[String], wanted: &str) -> Result<bool, Fail> {
    match arguments(alloc, words) {
        Ok(found) => Ok(told(alloc, &found)?.as_str() == wanted),
        Err(error) => Ok(error.to_string(alloc)?.as_str().starts_with(wanted)),
    }
}

fn expect_lines(rt: &impl Abort, alloc: Global, rows: &str) -> Result<(), Fail> {
    for row in rows.lines() {
        let (words, wanted) = row.split_once("-> ").ok_or("an arrow")?;
        let line = line_of(alloc, words)?;
        let is_read = is_read_as(alloc, line.as_slice(), wanted)?;
        assert!(rt; is_read, "{words}");
    }
    Ok(())
}

#[test]
fn command_lines(rt: HostRuntime) -> Result<(), Fail> {
    expect_lines(&rt, rt.alloc(), LINES)
}

// The text that these words are refused with.
fn refusal_of(alloc: Global, words: &str) -> Result<String, Fail> {
    let line = line_of(alloc, words)?;
    match arguments(alloc, line.as_slice()) {
        Ok(_) => Err(Fail::from("no words to be refused")),
        Err(error) => Ok(error.to_string(alloc)?),
    }
}

#[test]
fn the_version(rt: HostRuntime) -> Result<(), Fail> {
    let alloc = rt.alloc();
    assert!(rt; refusal_of(alloc, "--version")?.as_str() == "ilpd 0.1.0\n");
    assert!(rt; refusal_of(alloc, "-V")?.as_str() == "ilpd 0.1.0\n");
    Ok(())
}

const WORKERS_REFUSED: &str = "error: invalid value '65' for '--workers <W>': 1 to 64

Usage: ilpd replay SETUP [--workers W] [--statements DIR] [--journal DIR] < SCRIPT

For more information, try '--help'.
";

#[test]
fn what_is_said_of_too_many_workers(rt: HostRuntime) -> Result<(), Fail> {
    let said = refusal_of(rt.alloc(), "replay s1.toml --workers 65")?;
    assert!(rt; said.as_str() == WORKERS_REFUSED, "{said}");
    Ok(())
}

fn names_address(alloc: Global, words: &str, wanted: &str) -> Result<bool, Fail> {
    let line = line_of(alloc, words)?;
    let found = arguments(alloc, line.as_slice())?;
    Ok(found.address == wanted)
}

#[test]
fn addresses(rt: HostRuntime) -> Result<(), Fail> {
    let alloc = rt.alloc();
    let words = "serve s1.toml --workers 1 --rounds 1";
    assert!(rt; names_address(alloc, words, "127.0.0.1:7768")?);
    let words = "serve s1.toml --workers 1 --rounds 1 --listen [::1]:80";
    assert!(rt; names_address(alloc, words, "[::1]:80")?);
    Ok(())
}

fn names_script(alloc: Global, words: &str, wanted: Option<&str>) -> Result<bool, Fail> {
    let line = line_of(alloc, words)?;
    let found = arguments(alloc, line.as_slice())?;
    Ok(found.script == wanted)
}

#[test]
fn scripts_to_check(rt: HostRuntime) -> Result<(), Fail> {
    let alloc = rt.alloc();
    assert!(rt; names_script(alloc, "check s1.toml a.script", Some("a.script"))?);
    assert!(rt; names_script(alloc, "check s1.toml", None)?);
    Ok(())
}

// Whether the words name that journal, and that file for the setup of what is recovered.
fn names_journal(
    alloc: Global,
    words: &str,
    wanted: (Option<&str>, Option<&str>),
) -> Result<bool, Fail> {
    let line = line_of(alloc, words)?;
    let found = arguments(alloc, line.as_slice())?;
    Ok((found.journal, found.recovered) == wanted)
}

#[test]
fn journals(rt: HostRuntime) -> Result<(), Fail> {
    let alloc = rt.alloc();
    assert!(rt; names_journal(alloc, "replay s1.toml", (None, None))?);
    assert!(rt; names_journal(alloc, "replay s1.toml --journal kept", (Some("kept"), None))?);
    assert!(rt; names_journal(alloc, "verify --journal kept", (Some("kept"), None))?);
    assert!(rt; names_journal(alloc, "recover kept", (Some("kept"), None))?);
    let words = "serve s1.toml --workers 1 --journal kept";
    assert!(rt; names_journal(alloc, words, (Some("kept"), None))?);
    let words = "recover kept --setup next.toml";
    assert!(rt; names_journal(alloc, words, (Some("kept"), Some("next.toml")))?);
    Ok(())
}

// Whether the words name that setup to begin with.
fn names_first(alloc: Global, words: &str, wanted: Option<&str>) -> Result<bool, Fail> {
    let line = line_of(alloc, words)?;
    let found = arguments(alloc, line.as_slice())?;
    Ok(found.first == wanted)
}

// How many statements the words name.
fn count_of_statements(alloc: Global, words: &str) -> Result<usize, Fail> {
    let line = line_of(alloc, words)?;
    let found = arguments(alloc, line.as_slice())?;
    match &found.statements {
        Some(files) => Ok(files.len()),
        None => Ok(0),
    }
}

#[test]
fn statements_to_verify(rt: HostRuntime) -> Result<(), Fail> {
    let alloc = rt.alloc();
    assert!(rt; count_of_statements(alloc, "verify a.statement b.statement")? == 2);
    assert!(rt; names_first(alloc, "verify a.statement b.statement", None)?);
    let words = "verify --setup s1.toml a.statement";
    assert!(rt; count_of_statements(alloc, words)? == 1);
    assert!(rt; names_first(alloc, words, Some("s1.toml"))?);
    Ok(())
}

/// The first period of the tenant of `SETUP`, in which nothing happened but the roll.
pub const STATEMENT: &str = "statement 1
tenant 0 acme g.acme 1024 1000 30000
period 0 1893456000000 0 0
1893456000001 roll
ending
tenant 0 acme g.acme 1024 1000 30000
period 1 1893456000001 0 0
";

/// The period after it.
pub const NEXT: &str = "statement 1
tenant 0 acme g.acme 1024 1000 30000
period 1 1893456000001 0 0
1893456000001 tick = 0
1893456000002 roll
ending
tenant 0 acme g.acme 1024 1000 30000
period 2 1893456000002 0 0
";

// The statements in a.statement and b.statement, what is said of them, and the exit status.
static VERIFIED: [(&str, &str, &str, u8); 5] = [
    (STATEMENT, NEXT, "good 2 3\n", 0),
    (
        STATEMENT,
        STATEMENT,
        "b.statement: line 3: not what the statement before it ended with\nit says: period 0 1893456000000 0 0\nit has to say: period 1 1893456000001 0 0\n",
        4,
    ),
    (
        NEXT,
        NEXT,
        "a.statement: line 3: not what the setup leads to\nit says: period 1 1893456000001 0 0\nit has to say: period 0 1893456000000 0 0\n",
        4,
    ),
    (STATEMENT, "", "b.statement: no opening\n", 4),
    (
        STATEMENT,
        "statement 1\ntenant 0 acme g.acme 1024 1000 30000\nperiod 1 1893456000001 0 0\n1893456000001 tick = 1\n1893456000002 roll\nending\n",
        "b.statement: line 4: not what the rules lead to\nit says: 1893456000001 tick = 1\nit has to say: 1893456000001 tick = 0\n",
        4,
    ),
];

fn verify_both(
    alloc: Global,
    chain: &mut Chain,
    a: &str,
    b: &str,
    out: &mut Vec<u8>,
) -> Result<(), Ending> {
    let name = name_in(a.as_bytes());
    begin(alloc, chain, SETUP.as_bytes(), name, "a.toml", out)?;
    take(alloc, chain, "a.statement", a.as_bytes(), out)?;
    take(alloc, chain, "b.statement", b.as_bytes(), out)?;
    tell(alloc, chain, out)
}

fn verified(alloc: Global, a: &str, b: &str, out: &mut Vec<u8>) -> Result<(), Ending> {
    let mut chain = Chain::new(alloc);
    verify_both(alloc, &mut chain, a, b, out)
}

// The setup after the first statement, what is said then of the statement that it begins with again, and the exit status.
static BEGUN: [(&str, &str, &str, u8); 3] = [
    ("", STATEMENT, "good 2 2\n", 0),
    (
        "hold = 29000\n",
        STATEMENT,
        "b.toml: not what the statement before it ended with\nit says: tenant acme g.acme 1024 1000 29000\nit has to say: tenant acme g.acme 1024 1000 30000\n",
        4,
    ),
    (
        "",
        NEXT,
        "b.statement: line 3: not what the setup leads to\nit says: period 1 1893456000001 0 0\nit has to say: period 0 1893456000000 0 0\n",
        4,
    ),
];

fn begin_again(
    alloc: Global,
    chain: &mut Chain,
    setup: &str,
    b: &str,
    out: &mut Vec<u8>,
) -> Result<(), Ending> {
    take(alloc, chain, "a.statement", STATEMENT.as_bytes(), out)?;
    begin(alloc, chain, setup.as_bytes(), b"acme", "b.toml", out)?;
    take(alloc, chain, "b.statement", b.as_bytes(), out)?;
    tell(alloc, chain, out)
}

fn begun_again(alloc: Global, setup: &str, b: &str, out: &mut Vec<u8>) -> Result<(), Ending> {
    let mut chain = Chain::new(alloc);
    begin_again(alloc, &mut chain, setup, b, out)
}

/// That was said, and a run that ended so has that status.
pub fn expect_ended(
    rt: &impl Abort,
    out: &[u8],
    ended: &Result<(), Ending>,
    said: &str,
    status: u8,
) {
    assert!(rt; out == said.as_bytes(), "{said}");
    assert!(rt; exit_status(ended) == status);
}

type Row = (&'static str, &'static str, &'static str, u8);

fn expect_begun(rt: &impl Abort, alloc: Global, row: &Row) -> Result<(), Fail> {
    let (more, b, said, status) = row;
    let setup = [SETUP, *more].concat(alloc)?;
    let mut out = Vec::new(alloc);
    let ended = begun_again(alloc, setup.as_str(), b, &mut out);
    expect_ended(rt, out.as_slice(), &ended, said, *status);
    Ok(())
}

#[test]
fn what_verify_says_over_a_setup(rt: HostRuntime) -> Result<(), Fail> {
    for row in &BEGUN {
        expect_begun(&rt, rt.alloc(), row)?;
    }
    Ok(())
}

fn expect_verified(rt: &impl Abort, alloc: Global, row: &Row) {
    let (a, b, said, status) = row;
    let mut out = Vec::new(alloc);
    let ended = verified(alloc, a, b, &mut out);
    expect_ended(rt, out.as_slice(), &ended, said, *status);
}

#[test]
fn what_verify_says(rt: HostRuntime) -> Result<(), Fail> {
    for row in &VERIFIED {
        expect_verified(&rt, rt.alloc(), row);
    }
    Ok(())
}

// More lines of the setup, a script, what is said of them, and the exit status.
type Checked = (&'static str, Option<&'static str>, &'static str, u8);

static CHECKS: [Checked; 8] = [
    (
        "",
        None,
        "good\ntenant acme has no route: it sends no packet on\ntenant acme has no rate: it sends no packet on\n",
        0,
    ),
    (
        "jurnal = 64\n",
        None,
        "good\ntenant 0 acme: jurnal = 64: an unknown key, ignored\ntenant acme has no route: it sends no packet on\ntenant acme has no rate: it sends no packet on\n",
        0,
    ),
    (
        "hold = 0\n",
        Some("decide 0"),
        "tenant 0 acme: hold = 0: at least 1\n",
        3,
    ),
    (
        "",
        Some("tick acme 0\ndecide 1 0\n"),
        "good\ntenant acme has no route: it sends no packet on\ntenant acme has no rate: it sends no packet on\n",
        0,
    ),
    (
        "",
        Some("tick acme 0\r\ndecide 1 0\r\n"),
        "script: line 1: it ends in CR: the lines of a script end in LF alone\n",
        4,
    ),
    (
        "admim = 1\n[[tenant.peer]]\nname = \"alice\"\nrole = \"peer\"\ntoken = \"tok alice\"\n",
        None,
        "tenant 0 acme: peer 1 alice: token: character 4 is none of A-Z a-z 0-9 - . _ ~ + / =\n",
        3,
    ),
    (
        "jurnal = 64\n",
        Some("tick acme 0\ndecide 2 0\n"),
        "script: line 2: W = \"2\": at most 1\n",
        4,
    ),
    (
        "",
        Some("tick beta 0"),
        "script: line 1: TENANT = \"beta\": no tenant of the setup has that name\n",
        4,
    ),
];

fn expect_said(rt: &impl Abort, alloc: Global, row: &Checked) -> Result<(), Fail> {
    let (lines, script, said, status) = row;
    let setup = [SETUP, *lines].concat(alloc)?;
    let script = match script {
        Some(text) => Some(Script {
            text: text.as_bytes(),
            workers: 2,
        }),
        None => None,
    };
    let mut text = Vec::new(alloc);
    let ended = check(alloc, setup.as_bytes(), script, &mut text);
    expect_ended(rt, text.as_slice(), &ended, said, *status);
    Ok(())
}

#[test]
fn what_check_says(rt: HostRuntime) -> Result<(), Fail> {
    for row in &CHECKS {
        expect_said(&rt, rt.alloc(), row)?;
    }
    Ok(())
}

// The text of a token's file, and the token that it has, if it has one.
static TOKEN_FILES: [(&str, Option<&str>); 7] = [
    ("host-token", Some("host-token")),
    ("host-token\n", Some("host-token")),
    ("host-token\n\n", None),
    ("host\ntoken", None),
    ("\nhost-token", None),
    ("\n", None),
    ("", None),
];

#[test]
fn a_line_feed_may_end_a_tokens_file(rt: HostRuntime) -> Result<(), Fail> {
    for (text, wanted) in &TOKEN_FILES {
        let is_right = match (token_of(text.as_bytes()), wanted) {
            (Some(token), Some(wanted)) => token.as_bytes() == wanted.as_bytes(),
            (None, None) => true,
            _ => false,
        };
        assert!(rt; is_right, "{text:?}");
    }
    Ok(())
}

#[test]
fn an_idle_worker(rt: HostRuntime) -> Result<(), Fail> {
    let alloc = rt.alloc();
    let mut script = "decide 0 1893456000000\n".as_bytes();
    let mut text = Vec::new(alloc);
    replay(alloc, SETUP.as_bytes(), 1, &mut script, &mut text)?;
    assert!(rt; text.as_slice() == b"- idle\n".as_slice());
    Ok(())
}

#[test]
fn the_systems_clock(rt: HostRuntime) -> Result<(), Fail> {
    let before = rt.since_1970()?.as_millis();
    let now = workers::Clock::now(&SystemClock::new(&rt)).millis() as u128;
    let after = rt.since_1970()?.as_millis();
    assert!(rt; 0 < before && before <= now && now <= after);
    Ok(())
}
