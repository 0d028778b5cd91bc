//! The words of the command line, and what they ask for.

ghost use Rattle.std.specs.Prelude.{◌≡◌, ◌≤◌, IfOk, IfSome, IsNone, OnOk, true};
ghost use Rattle.books_shared.specs.Gathers.{max_workers};
ghost use Rattle.floor_core.specs.FloorView.{max_seats};
ghost use Rattle.command_line.specs.CommandLine.{IsBounded, audits};

use books_shared::MAX_WORKERS;
use clap::error::ErrorKind;
use clap::{Arg, ArgAction, ArgMatches, Command, Error, value_parser};
use floor_core::MAX_SEATS;
use std::alloc::{AllocError, Global};

/// What the program is to do.
#[derive(Clone, Copy, Debug, PartialEq, Eq)]
pub enum Task {
    /// To replay the script on standard input.
    Replay,
    /// To say whether it is good, and whether a script for it is.
    Check,
    /// To say whether statements are good and continue one another, and their sums; or whether a journal is good.
    Verify,
    /// To say with what the books of a journal go on after a crash.
    Recover,
    /// To serve so many connections at once, each on a thread of its own, and to end once as many were served for each worker,
    /// if it is to end. Then it may print what each peer owes, and audit receipts.
    Serve {
        connections: usize,
        rounds: Option<u32>,
        balances: bool,
        audit: bool,
    },
}

/// How many connections there are at once where the command line does not say.
const CONNECTIONS: usize = 256;

/// The most connections for each worker before a service ends.
const MAX_ROUNDS: u32 = 1_000_000;

/// All of the entries that a period has room for, in hundredths.
const WHOLE: u8 = 100;

/// The address of the host's door, and the file of the token that is shown there.
#[derive(Clone, Copy, Debug, PartialEq, Eq)]
pub struct HostWords<'a> {
    pub address: &'a str,
    pub token_file: &'a str,
}

/// What the command line asks for, the file of the setup, how many workers there are, the address that a service listens on,
/// and the host's door, if it has one.
#[derive(Drop)]
pub struct CommandLine<'a> {
    pub task: Task,
    pub setup: &'a str,
    /// The file of the script to check.
    pub script: Option<&'a str>,
    pub workers: usize,
    pub address: &'a str,
    pub host: Option<HostWords<'a>>,
    /// The address of the operators' door.
    pub operators: Option<&'a str>,
    /// Whether commands come where packets come, too.
    pub admin: bool,
    /// Whether peers that give no answer rest for a while.
    pub breakers: bool,
    /// The folder where the statements of closed periods are kept.
    pub folder: Option<&'a str>,
    /// The files of the statements to verify.
    pub statements: Option<Vec<&'a str>>,
    /// The file of the setup with which the first of them must begin.
    pub first: Option<&'a str>,
    /// The file of the receipts to audit by them.
    pub receipts: Option<&'a str>,
    /// At how many hundredths of its entries, 1 to 100, a service closes a tenant's period by itself, if it does.
    pub roll_at: Option<u8>,
    /// The folder of the journal that a replay or a service writes, or that is verified or recovered.
    pub journal: Option<&'a str>,
    /// The file that gets the setup with which recovered books go on.
    pub recovered: Option<&'a str>,
}

/// The address that a service listens on where the command line names none.
const ADDRESS: &str = "127.0.0.1:7768";

/// The version of the program. No revision and no date of its sources are known to it.
const VERSION: &str = "0.1.0";

const USAGE: &str =
    "ilpd replay SETUP [--workers W] [--statements DIR] [--journal DIR] < SCRIPT\n       ilpd check SETUP [SCRIPT [--workers W]]\n       \
ilpd verify [--setup SETUP] [--receipts FILE] FILE..\n       ilpd verify --journal DIR\n       \
ilpd recover DIR [--setup FILE] [--statements DIR]\n       \
ilpd serve SETUP --workers W [--connections C] [--rounds N] [--balances] [--audit | --journal DIR] [--listen ADDR]\n                  \
[--host ADDR --host-token FILE] [--operators ADDR [--no-admin]] [--statements DIR] [--roll-at PERCENT] [--no-breaker]";

const WHERE: &str =
    "docs/FORMATS.md describes setups, scripts and what is printed; examples/ has some of each";

/// The subcommands, as help lists them.
const SUBCOMMANDS: [&str; 5] = ["replay", "check", "verify", "recover", "serve"];

fn setup_of<'a>(alloc: Global) -> Arg<'a> {
    Arg::new(alloc, "SETUP")
        .help("The file of the setup, in TOML")
        .required(true)
        .action(ArgAction::Set)
}

// A word by that name, which has a value.
fn named<'a>(
    alloc: Global,
    name: &'static str,
    value: &'static str,
    help: &'static str,
) -> Arg<'a> {
    Arg::new(alloc, name)
        .long(name)
        .value_name(value)
        .help(help)
}

fn text_of<'a>(
    alloc: Global,
    name: &'static str,
    value: &'static str,
    help: &'static str,
) -> Arg<'a> {
    named(alloc, name, value, help).action(ArgAction::Set)
}

fn number_of<'a>(
    alloc: Global,
    name: &'static str,
    value: &'static str,
    help: &'static str,
) -> Arg<'a> {
    named(alloc, name, value, help).value_parser(value_parser!(u64))
}

// Puts an item at the end of a list.
fn put<T: Drop>(list: &mut Vec<T>, item: T) -> Result<(), AllocError> {
    list.push(item)?;
    Ok(())
}

// How many workers a script has.
fn script_workers<'a>(alloc: Global) -> Arg<'a> {
    let help = "How many workers the script has, 1 to 64";
    number_of(alloc, "workers", "W", help).default_value("1")
}

fn put_replay<'a>(alloc: Global, words: &mut Vec<Arg<'a>>) -> Result<(), AllocError> {
    put(words, setup_of(alloc))?;
    put(words, script_workers(alloc))?;
    put(words, script_folder(alloc))?;
    put(words, script_journal(alloc))
}

fn replay_of<'a>(alloc: Global) -> Result<Command<'a>, AllocError> {
    let mut words = Vec::new(alloc);
    put_replay(alloc, &mut words)?;
    Command::new(alloc, "replay")
        .about("Runs the script on standard input, and prints what each of its steps gives")
        .override_usage(
            "ilpd replay SETUP [--workers W] [--statements DIR] [--journal DIR] < SCRIPT",
        )
        .after_help("Example: ilpd replay examples/s1.toml < examples/forward.script")
        .args(words)
}

fn script_folder<'a>(alloc: Global) -> Arg<'a> {
    let help =
        "The folder that gets the statement of each period that the script closes, and has none of these tenants yet";
    text_of(alloc, "statements", "DIR", help)
}

fn script_journal<'a>(alloc: Global) -> Arg<'a> {
    let help = "The folder that gets the journal of what the script does, and has none yet";
    text_of(alloc, "journal", "DIR", help)
}

fn put_check<'a>(alloc: Global, words: &mut Vec<Arg<'a>>) -> Result<(), AllocError> {
    put(words, setup_of(alloc))?;
    put(words, script_of(alloc))?;
    put(words, script_workers(alloc).requires_arg("SCRIPT")?)
}

fn check_of<'a>(alloc: Global) -> Result<Command<'a>, AllocError> {
    let mut words = Vec::new(alloc);
    put_check(alloc, &mut words)?;
    Command::new(alloc, "check")
        .about("Says whether a setup is good, and a script for it, and else what is wrong")
        .override_usage("ilpd check SETUP [SCRIPT [--workers W]]")
        .after_help("Example: ilpd check examples/s1.toml examples/forward.script")
        .args(words)
}

fn script_of<'a>(alloc: Global) -> Arg<'a> {
    Arg::new(alloc, "SCRIPT")
        .help("The file of a script for the setup's tenants")
        .action(ArgAction::Set)
}

fn put_verify<'a>(alloc: Global, words: &mut Vec<Arg<'a>>) -> Result<(), AllocError> {
    put(words, first_setup(alloc))?;
    put(words, receipts_of(alloc))?;
    put(words, journal_of(alloc))?;
    put(words, statements_of(alloc)?)
}

fn verify_of<'a>(alloc: Global) -> Result<Command<'a>, AllocError> {
    let mut words = Vec::new(alloc);
    put_verify(alloc, &mut words)?;
    Command::new(alloc, "verify")
        .about(
            "Says whether statements are good and go on, and what they come to, or what is wrong",
        )
        .override_usage(
            "ilpd verify [--setup SETUP] [--receipts FILE] FILE..\n       ilpd verify --journal DIR",
        )
        .after_help(
            "Example: ilpd verify --setup examples/fees.toml examples/acme.0.statement examples/acme.1.statement",
        )
        .args(words)
}

fn receipts_of<'a>(alloc: Global) -> Arg<'a> {
    let help =
        "The file of the receipts of all workers that are to be audited: then each FILE is a statement of any tenant";
    text_of(alloc, "receipts", "FILE", help)
}

// The journal to verify, in the place of statements.
fn journal_of<'a>(alloc: Global) -> Arg<'a> {
    let help = "The folder of a journal that is to be verified, and no statements: it is only read";
    text_of(alloc, "journal", "DIR", help).exclusive(true)
}

fn first_setup<'a>(alloc: Global) -> Arg<'a> {
    let help = "The file of the setup that the first statement is to begin with";
    text_of(alloc, "setup", "SETUP", help)
}

fn statements_of<'a>(alloc: Global) -> Result<Arg<'a>, AllocError> {
    Arg::new(alloc, "FILE")
        .help(
            "The files of a tenant's statements, one period after another, and .toml files: the setups that the service started with again",
        )
        .num_args(1..)
        .action(ArgAction::Append)
        .required_unless_present("journal")
}

// The files of the statements that the words of `verify` name.
fn files_of<'a>(
    alloc: Global,
    matches: &ArgMatches<'a>,
) -> Result<Option<Vec<&'a str>>, AllocError> {
    let Some(("verify", words)) = matches.subcommand() else {
        return Ok(None);
    };
    match words.get_strs("FILE") {
        Some(files) => Ok(Some(Vec::from_slice(alloc, files)?)),
        None => Ok(None),
    }
}

fn crashed_journal<'a>(alloc: Global) -> Arg<'a> {
    Arg::new(alloc, "DIR")
        .help("The folder of the journal, which is only read")
        .required(true)
        .action(ArgAction::Set)
}

// What a recovery writes.
fn put_recovered<'a>(alloc: Global, words: &mut Vec<Arg<'a>>) -> Result<(), AllocError> {
    let setup = "The new file that gets the setup with which the books go on, in TOML";
    let statements = "The folder that gets the statement of each period that is closed";
    put(words, text_of(alloc, "setup", "FILE", setup))?;
    put(words, text_of(alloc, "statements", "DIR", statements))
}

fn put_recover<'a>(alloc: Global, words: &mut Vec<Arg<'a>>) -> Result<(), AllocError> {
    put(words, crashed_journal(alloc))?;
    put_recovered(alloc, words)
}

fn recover_of<'a>(alloc: Global) -> Result<Command<'a>, AllocError> {
    let mut words = Vec::new(alloc);
    put_recover(alloc, &mut words)?;
    Command::new(alloc, "recover")
        .about(
            "Says with what the books of a journal go on after a crash, and which packets were held then",
        )
        .override_usage("ilpd recover DIR [--setup FILE] [--statements DIR]")
        .after_help("Example: ilpd recover journal --setup next.toml --statements kept")
        .args(words)
}

fn service_workers<'a>(alloc: Global) -> Arg<'a> {
    let help = "How many packets may be on their way to next peers at once, 1 to 64";
    number_of(alloc, "workers", "W", help).required(true)
}

fn service_connections<'a>(alloc: Global) -> Arg<'a> {
    let help = "How many connections may be open at once, each on a thread of its own, 1 to 4096";
    number_of(alloc, "connections", "C", help).default_value("256")
}

fn service_rounds<'a>(alloc: Global) -> Arg<'a> {
    let help = "To end once W times N connections were served; N is 1 to 1000000";
    number_of(alloc, "rounds", "N", help)
}

fn flag_of<'a>(alloc: Global, name: &'static str, help: &'static str) -> Arg<'a> {
    Arg::new(alloc, name)
        .long(name)
        .help(help)
        .action(ArgAction::SetTrue)
}

fn listen_of<'a>(alloc: Global) -> Arg<'a> {
    let help = "The address to listen on: an IP address and a port";
    named(alloc, "listen", "ADDR", help).default_value(ADDRESS)
}

// How many there are of what a service has.
fn put_extent<'a>(alloc: Global, words: &mut Vec<Arg<'a>>) -> Result<(), AllocError> {
    put(words, setup_of(alloc))?;
    put(words, service_workers(alloc))?;
    put(words, service_connections(alloc))?;
    put(words, service_rounds(alloc))
}

// What a service prints at the end.
fn put_reports<'a>(alloc: Global, words: &mut Vec<Arg<'a>>) -> Result<(), AllocError> {
    let balances = "To print in the end what each peer owes, as the command balances does";
    let audit = "To keep a receipt of all that is done, and to audit the receipts in the end";
    put(words, flag_of(alloc, "balances", balances))?;
    put(words, flag_of(alloc, "audit", audit))
}

fn host_address<'a>(alloc: Global) -> Result<Arg<'a>, AllocError> {
    let help =
        "The address at which whoever runs the process asks for health, metrics and the present setup, and stops it";
    text_of(alloc, "host", "ADDR", help).requires_arg("host-token")
}

fn host_token<'a>(alloc: Global) -> Result<Arg<'a>, AllocError> {
    let help = "The file of the token that is shown there";
    text_of(alloc, "host-token", "FILE", help).requires_arg("host")
}

// The words of the host's door, each of which needs the other.
fn put_host<'a>(alloc: Global, words: &mut Vec<Arg<'a>>) -> Result<(), AllocError> {
    put(words, host_address(alloc)?)?;
    put(words, host_token(alloc)?)
}

fn operators_address<'a>(alloc: Global) -> Arg<'a> {
    let help =
        "The address at which each operator sends commands, and asks for its own setup, metrics and statements, and why a packet would be refused";
    text_of(alloc, "operators", "ADDR", help)
}

fn no_admin<'a>(alloc: Global) -> Result<Arg<'a>, AllocError> {
    let help = "To take no commands where packets come: /admin/NAME is then 404";
    flag_of(alloc, "no-admin", help).requires_arg("operators")
}

fn folder_of<'a>(alloc: Global) -> Arg<'a> {
    let help =
        "The folder that gets the statement of each period that is closed: one of its own for each start";
    text_of(alloc, "statements", "DIR", help)
}

fn roll_at<'a>(alloc: Global) -> Arg<'a> {
    let help =
        "To close a tenant's period, as the command roll does, once it is so full and no packet awaits its answer, 1 to 100";
    number_of(alloc, "roll-at", "PERCENT", help)
}

// The words of the operators' door.
fn put_operators<'a>(alloc: Global, words: &mut Vec<Arg<'a>>) -> Result<(), AllocError> {
    put(words, operators_address(alloc))?;
    put(words, no_admin(alloc)?)
}

fn service_journal<'a>(alloc: Global) -> Arg<'a> {
    let help =
        "The folder that gets the journal of what is done, before any answer leaves, and with which a later start goes on";
    text_of(alloc, "journal", "DIR", help)
}

// What happens to closed periods, where all records are kept, and when periods close.
fn put_periods<'a>(alloc: Global, words: &mut Vec<Arg<'a>>) -> Result<(), AllocError> {
    put(words, folder_of(alloc))?;
    put(words, service_journal(alloc))?;
    put(words, roll_at(alloc))
}

fn no_breaker<'a>(alloc: Global) -> Arg<'a> {
    let help = "To let each packet wait for its peer, however many in a row it gave no answer";
    flag_of(alloc, "no-breaker", help)
}

fn put_serve<'a>(alloc: Global, words: &mut Vec<Arg<'a>>) -> Result<(), AllocError> {
    put_extent(alloc, words)?;
    put_reports(alloc, words)?;
    put(words, listen_of(alloc))?;
    put_host(alloc, words)?;
    put_operators(alloc, words)?;
    put_periods(alloc, words)?;
    put(words, no_breaker(alloc))
}

fn serve_of<'a>(alloc: Global) -> Result<Command<'a>, AllocError> {
    let mut words = Vec::new(alloc);
    put_serve(alloc, &mut words)?;
    Command::new(alloc, "serve")
        .about(
            "Serves packets and commands over HTTP, and prints in the end how many were answered how",
        )
        .override_usage(
            "ilpd serve SETUP --workers W [--connections C] [--rounds N] [--balances] [--audit | --journal DIR] [--listen ADDR]\n                  [--host ADDR --host-token FILE] [--operators ADDR [--no-admin]] [--statements DIR] [--roll-at PERCENT] [--no-breaker]",
        )
        .after_help("Example: ilpd serve examples/serve.toml --workers 4")
        .args(words)
}

// The subcommand of one of these names.
fn subcommand_of<'a>(alloc: Global, name: &str) -> Result<Command<'a>, AllocError> {
    match name {
        "check" => check_of(alloc),
        "verify" => verify_of(alloc),
        "recover" => recover_of(alloc),
        "serve" => serve_of(alloc),
        _ => replay_of(alloc),
    }
}

// How many workers there are, 1 where nothing is said.
fn workers_of(words: &ArgMatches<'_>) -> usize
    ensures least { 1 ≤ result }
    ensures most { result ≤ max_seats }
{
    match words.get_one::<usize>("workers") {
        Some(workers) if 1 <= workers && workers <= MAX_SEATS => workers,
        _ => 1,
    }
}

// How many connections may be open at once.
fn connections_of(words: &ArgMatches<'_>) -> usize
    ensures least { 1 ≤ result }
    ensures most { result ≤ max_workers }
{
    match words.get_one::<usize>("connections") {
        Some(connections) if 1 <= connections && connections <= MAX_WORKERS => connections,
        _ => CONNECTIONS,
    }
}

// How many connections are served for each worker, where that is said.
fn rounds_of(words: &ArgMatches<'_>) -> Option<u32>
    ensures { IfSome result (λ rounds. (1 ≤ rounds) × (rounds ≤ MAX_ROUNDS)) }
{
    match words.get_one::<u32>("rounds") {
        Some(rounds) if 1 <= rounds && rounds <= MAX_ROUNDS => Some(rounds),
        _ => None,
    }
}

// At how many hundredths of its entries a period is closed, where that is said.
fn roll_at_of(words: &ArgMatches<'_>) -> Option<u8>
    ensures { IfSome result (λ percent. (1 ≤ percent) × (percent ≤ WHOLE)) }
{
    match words.get_one::<u8>("roll-at") {
        Some(percent) if 1 <= percent && percent <= WHOLE => Some(percent),
        _ => None,
    }
}

// The host's door, where both of its words are there.
fn host_of<'a>(words: &ArgMatches<'a>) -> Option<HostWords<'a>> {
    Some(HostWords {
        address: words.get_str("host")?,
        token_file: words.get_str("host-token")?,
    })
}

// A line with the setup that the words name.
fn line_of<'a>(
    task: Task,
    words: &ArgMatches<'a>,
    workers: usize,
    address: &'a str,
) -> CommandLine<'a>
    ensures task { result.task ≡ task }
    ensures workers { result.workers ≡ workers }
{
    CommandLine {
        task,
        setup: words.get_str("SETUP").unwrap_or(""),
        script: words.get_str("SCRIPT"),
        workers,
        address,
        host: None,
        operators: None,
        admin: true,
        breakers: true,
        folder: None,
        statements: None,
        first: words.get_str("setup"),
        receipts: words.get_str("receipts"),
        roll_at: None,
        journal: words.get_str("journal"),
        recovered: None,
    }
}

// What the words of a subcommand ask for.
fn line_in<'a>(matches: &ArgMatches<'a>) -> CommandLine<'a>
    ensures least { 1 ≤ result.workers }
    ensures most { result.workers ≤ max_seats }
    ensures bounded { IsBounded result.task }
{
    match matches.subcommand() {
        Some(("check", check)) => line_of(Task::Check, check, workers_of(check), ADDRESS),
        Some(("verify", verify)) => line_of(Task::Verify, verify, 1, ADDRESS),
        Some(("recover", recover)) => CommandLine {
            folder: recover.get_str("statements"),
            first: None,
            journal: recover.get_str("DIR"),
            recovered: recover.get_str("setup"),
            ..line_of(Task::Recover, recover, 1, ADDRESS)
        },
        Some(("serve", serve)) => {
            let task = Task::Serve {
                connections: connections_of(serve),
                rounds: rounds_of(serve),
                balances: serve.get_flag("balances"),
                audit: serve.get_flag("audit"),
            };
            let address = serve.get_str("listen").unwrap_or(ADDRESS);
            CommandLine {
                host: host_of(serve),
                operators: serve.get_str("operators"),
                admin: !serve.get_flag("no-admin"),
                breakers: !serve.get_flag("no-breaker"),
                folder: serve.get_str("statements"),
                roll_at: roll_at_of(serve),
                ..line_of(task, serve, workers_of(serve), address)
            }
        }
        Some((_, replay)) => CommandLine {
            folder: replay.get_str("statements"),
            ..line_of(Task::Replay, replay, workers_of(replay), ADDRESS)
        },
        None => line_of(Task::Replay, matches, 1, ADDRESS),
    }
}

// A number that must be from 1 to a greatest one.
#[derive(Clone, Copy)]
struct Limited {
    name: &'static str,
    shown: &'static str,
    most: u64,
}

const LIMITED: [Limited; 4] = [
    Limited {
        name: "workers",
        shown: "--workers <W>",
        most: MAX_SEATS as u64,
    },
    Limited {
        name: "connections",
        shown: "--connections <C>",
        most: MAX_WORKERS as u64,
    },
    Limited {
        name: "rounds",
        shown: "--rounds <N>",
        most: MAX_ROUNDS as u64,
    },
    Limited {
        name: "roll-at",
        shown: "--roll-at <PERCENT>",
        most: WHOLE as u64,
    },
];

impl Limited {
    // Whether the words have such a number that is not from 1 to the greatest one.
    fn is_passed(&self, words: &ArgMatches<'_>) -> bool {
        match words.get_one::<u64>(self.name) {
            Some(number) => number < 1 || number > self.most,
            None => false,
        }
    }

    // What is said of such a number.
    fn refusal(&self, alloc: Global, given: &str) -> Result<String, AllocError> {
        let most = self.most.to_string(alloc)?;
        let mut said = String::from_str(alloc, "invalid value '")?;
        said.push_str(given)?;
        said.push_str("' for '")?;
        said.push_str(self.shown)?;
        said.push_str("': 1 to ")?;
        said.push_str(most.as_str())?;
        Ok(said)
    }
}

// The error of a subcommand, of that kind and with this text.
fn error_of(alloc: Global, name: &str, kind: ErrorKind, said: &str) -> Result<Error, AllocError> {
    subcommand_of(alloc, name)?.error(kind, said)
}

// That each number which the words of a subcommand have is within its limits.
fn within_limits(alloc: Global, name: &str, words: &ArgMatches<'_>) -> Result<(), Error> {
    for limited in &LIMITED {
        if limited.is_passed(words) {
            let given = words.get_str(limited.name).unwrap_or("");
            let said = limited.refusal(alloc, given)?;
            return Err(error_of(alloc, name, ErrorKind::ValueValidation, said.as_str())?);
        }
    }
    Ok(())
}

// That each number is within its limits.
fn all_within_limits(alloc: Global, matches: &ArgMatches<'_>) -> Result<(), Error> {
    match matches.subcommand() {
        Some((name, words)) => within_limits(alloc, name, words),
        None => Ok(()),
    }
}

fn put_subcommands<'a>(
    alloc: Global,
    subcommands: &mut Vec<Command<'a>>,
) -> Result<(), AllocError> {
    for name in &SUBCOMMANDS {
        put(subcommands, subcommand_of(alloc, name)?)?;
    }
    Ok(())
}

// The command line, with all that may be in it.
fn program_of<'a>(alloc: Global) -> Result<Command<'a>, AllocError> {
    let mut subcommands = Vec::new(alloc);
    put_subcommands(alloc, &mut subcommands)?;
    Command::new(alloc, "ilpd")
        .version(VERSION)
        .about("A connector of the Interledger Protocol v4 for many operators")
        .override_usage(USAGE)
        .after_help(WHERE)
        .subcommand_required(true)
        .subcommands(subcommands)
}

// Whether that is a service that audits its receipts.
fn audits(task: Task) -> bool
    ensures { result ≡ audits task }
{
    matches!(task, Task::Serve { audit: true, .. })
}

/// What is said of an audit of a service with a journal: an audit needs each period from the first one on.
const AUDITED: &str = "the argument '--audit' cannot be used with '--journal <DIR>'";

// That no service with a journal audits its receipts.
fn without_audit(alloc: Global, line: &CommandLine<'_>) -> Result<(), Error>
    ensures { OnOk result (audits line.now.task ≡ true → IsNone line.now.journal) }
{
    if audits(line.task) && line.journal.is_some() {
        return Err(error_of(alloc, "serve", ErrorKind::ArgumentConflict, AUDITED)?);
    }
    Ok(())
}

// What the words say, each number within its limits.
fn checked_line<'a>(alloc: Global, matches: &ArgMatches<'a>) -> Result<CommandLine<'a>, Error>
    ensures least { IfOk result (λ line. 1 ≤ line.workers) }
    ensures most { IfOk result (λ line. line.workers ≤ max_seats) }
    ensures bounded { IfOk result (λ line. IsBounded line.task) }
    ensures audit { IfOk result (λ line. audits line.task ≡ true → IsNone line.journal) }
{
    all_within_limits(alloc, matches)?;
    let statements = files_of(alloc, matches)?;
    let mut line = line_in(matches);
    line.statements = statements;
    without_audit(alloc, &line)?;
    Ok(line)
}

/// Reads the words of `ilpd replay SETUP [--workers W] [--statements DIR] [--journal DIR]`,
/// `ilpd check SETUP [SCRIPT [--workers W]]`, `ilpd verify [--setup SETUP] [--receipts FILE] FILE..`,
/// `ilpd verify --journal DIR`, `ilpd recover DIR [--setup FILE] [--statements DIR]` or
/// `ilpd serve SETUP --workers W [--connections C] [--rounds N] [--balances] [--audit | --journal DIR] [--listen ADDR] [--host ADDR
/// --host-token FILE] [--operators ADDR [--no-admin]] [--statements DIR] [--roll-at PERCENT] [--no-breaker]`, the program's name first.
///
/// W is 1 to 64, and 1 for a script by default. C is 1 to 4,096, and 256 by default. N is 1 to 1,000,000. PERCENT is 1 to 100.
/// The ADDR to listen on is 127.0.0.1:7768 by default. There is a host's door only if both of its words are there. A service
/// with a journal audits nothing.
///
/// The error has the text for people, also for a request for help or the version, or it is out of memory.
pub fn arguments<'a>(alloc: Global, words: &'a [String]) -> Result<CommandLine<'a>, Error>
    ensures least { IfOk result (λ line. 1 ≤ line.workers) }
    ensures most { IfOk result (λ line. line.workers ≤ max_seats) }
    ensures bounded { IfOk result (λ line. IsBounded line.task) }
    ensures audit { IfOk result (λ line. audits line.task ≡ true → IsNone line.journal) }
{
    let matches = program_of(alloc)?.try_get_matches_from(words)?;
    checked_line(alloc, &matches)
}
