//! What `verify --receipts` says.

use crate::commands::words::{NEXT, STATEMENT, expect_ended};
use std::alloc::Global;
use std::process::Abort;
use std::test::Fail;
use subcommands::{Ending, Statements, TextFile, memory_refused, tell_audit};

const BETA: &str = "statement 1
tenant 1 beta g.beta 1024 1000 30000
period 0 1893456000000 0 0
1893456000001 roll
ending
tenant 1 beta g.beta 1024 1000 30000
period 1 1893456000001 0 0
";

// The statement of a tenant whom the setup does not have.
const GAMMA: &str = "statement 1
tenant 2 gamma g.gamma 1024 1000 30000
period 0 1893456000000 0 0
1893456000001 roll
ending
tenant 2 gamma g.gamma 1024 1000 30000
period 1 1893456000001 0 0
";

const RECEIPTS: &str = "receipts 1
worker 2
0 0 0 1893456000001 roll
0 1 0 1893456000001 tick = 0
worker 2
1 0 0 1893456000001 roll
0 1 1 1893456000002 roll
";

const SETUP: &str = "version = 1
start = 1893456000000
[[tenant]]
name = \"acme\"
address = \"g.acme\"
admin = \"root-a\"
[[tenant]]
name = \"beta\"
address = \"g.beta\"
admin = \"root-b\"
";

// The statements, in their order, the receipts, what is said of them, and the exit status.
type Audited = (&'static [&'static str], &'static str, &'static str, u8);

static AUDITED: [Audited; 8] = [
    (&[STATEMENT, NEXT, BETA], RECEIPTS, "audit ok 4\n", 0),
    (&[BETA, STATEMENT, NEXT], RECEIPTS, "audit ok 4\n", 0),
    (&[STATEMENT, BETA], RECEIPTS, "audit no-period\n", 6),
    (
        &[STATEMENT, BETA, NEXT],
        "receipts 1\nworker 1\n0 0 0 1893456000001 roll\nworker 2\n0 1 0 1893456000001 tick = 0\n0 1 1 1893456000002 roll\n",
        "audit missing\n",
        6,
    ),
    (
        &[STATEMENT, BETA, STATEMENT],
        RECEIPTS,
        "c: line 3: not what the statement before it ended with\nit says: period 0 1893456000000 0 0\nit has to say: period 1 1893456000001 0 0\n",
        4,
    ),
    (&[STATEMENT, "", BETA], RECEIPTS, "b: no opening\n", 4),
    (
        &[STATEMENT, GAMMA],
        RECEIPTS,
        "setup.toml: no tenant is called gamma\n",
        4,
    ),
    (
        &[BETA],
        "receipts 1\nworker 1\n1 0 0 1893456000001 rolled\n",
        "receipts: line 3: tells no receipt and no worker\nit says: 1 0 0 1893456000001 rolled\n",
        4,
    ),
];

// The names of their files.
static FILES: [&str; 3] = ["a", "b", "c"];

fn audited(alloc: Global, texts: &[&str], receipts: &str, out: &mut Vec<u8>) -> Result<(), Ending> {
    let mut statements = Statements::new(alloc).map_err(memory_refused)?;
    for (file, text) in FILES.iter().zip(texts.iter()) {
        let setup = Some(TextFile {
            file: "setup.toml",
            text: SETUP.as_bytes(),
        });
        statements.take(alloc, setup, file, text.as_bytes(), out)?;
    }
    tell_audit(
        alloc,
        statements.periods(),
        "receipts",
        receipts.as_bytes(),
        out,
    )
}

fn expect_audited(rt: &impl Abort, alloc: Global, row: &Audited) {
    let (texts, receipts, said, status) = row;
    let mut out = Vec::new(alloc);
    let ended = audited(alloc, texts, receipts, &mut out);
    expect_ended(rt, out.as_slice(), &ended, said, *status);
}

#[test]
fn what_verify_says_of_receipts(rt: HostRuntime) -> Result<(), Fail> {
    for row in &AUDITED {
        expect_audited(&rt, rt.alloc(), row);
    }
    Ok(())
}
