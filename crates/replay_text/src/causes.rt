//! What is wrong with a line of a script, in words for people.

use admin_text::TextFault;
use common_types::{MAX_TOKEN, is_token};
use std::{fmt, str};

/// What a line that is a step begins with.
#[derive(Clone, Copy, Debug, PartialEq, Eq)]
pub enum Verb {
    Load,
    Decide,
    Answer,
    Tick,
    Do,
}

/// A word after a verb.
#[derive(Clone, Copy, Debug, PartialEq, Eq)]
pub enum Operand {
    /// The number of a worker.
    Worker,
    /// The name of a tenant.
    Tenant,
    /// The token that a peer showed.
    Token,
    /// The bytes of a frame.
    Frame,
    /// A moment.
    Now,
    /// What came back: bytes, or `fault`.
    PeerAnswer,
    /// A command, of one word or more.
    Command,
}

impl Verb {
    /// The words after it, in order.
    pub(crate) fn operands(self) -> &'static [Operand] {
        match self {
            Verb::Load => &[
                Operand::Worker,
                Operand::Tenant,
                Operand::Token,
                Operand::Frame,
            ],
            Verb::Decide => &[Operand::Worker, Operand::Now],
            Verb::Answer => &[Operand::Worker, Operand::Now, Operand::PeerAnswer],
            Verb::Tick => &[Operand::Tenant, Operand::Now],
            Verb::Do => &[Operand::Tenant, Operand::Now, Operand::Command],
        }
    }

    // Such a line, as docs/FORMATS.md shows it.
    fn form(self) -> &'static str {
        match self {
            Verb::Load => "load W TENANT TOKEN HEX",
            Verb::Decide => "decide W NOW",
            Verb::Answer => "answer W NOW HEX, or answer W NOW fault",
            Verb::Tick => "tick TENANT NOW",
            Verb::Do => "do TENANT NOW COMMAND",
        }
    }
}

impl Operand {
    fn name(self) -> &'static str {
        match self {
            Operand::Worker => "W",
            Operand::Tenant => "TENANT",
            Operand::Token => "TOKEN",
            Operand::Frame | Operand::PeerAnswer => "HEX",
            Operand::Now => "NOW",
            Operand::Command => "COMMAND",
        }
    }

    // What is well formed.
    fn right(self) -> &'static str {
        match self {
            Operand::Worker | Operand::Now => "a number, 0 or digits without a 0 in front",
            Operand::Tenant => "the name of a tenant of the setup",
            Operand::Token => "1 to 64 of A-Z a-z 0-9 - . _ ~ + / =",
            Operand::Frame => "digits of 0-9 a-f A-F, or - for no bytes",
            Operand::PeerAnswer => "digits of 0-9 a-f A-F, - for no bytes, or fault",
            Operand::Command => "a command",
        }
    }
}

/// Why a line is not one of a script. A word is shown as it is in the line, unless it is in the place of a token.
#[derive(Clone, Copy)]
pub enum LineFault<'a> {
    /// Its last byte is a carriage return.
    EndsInReturn,
    /// It has more bytes than a line may have. This is the most.
    Long(usize),
    /// Some byte is not an ASCII character.
    NoAscii,
    /// Its first word is not a verb.
    NoVerb(&'a [u8]),
    /// That operand of the verb is missing, and so are those after it.
    Missing(Verb, Operand),
    /// There are more words than the verb has.
    TooMany(Verb),
    /// The word for the operand is malformed.
    Malformed(Operand, &'a [u8]),
    /// It is a number above that one, the greatest.
    Above(Operand, &'a [u8], u64),
    /// The setup has no tenant of that name.
    NoTenant(&'a [u8]),
    /// It is an odd count of hexadecimal digits.
    Odd(Operand, &'a [u8]),
    /// The words are not a command.
    Command(TextFault),
}

/// The most bytes of a word that is shown.
const MAX_SHOWN: usize = 100;

/// A word, as it is in a line.
#[derive(Clone, Copy)]
struct Shown<'a>(&'a [u8]);

impl fmt::Display for Shown<'_> {
    fn fmt<W: fmt::Write>(&self, f: &mut fmt::Formatter<W>) -> fmt::Result {
        let word = self.0;
        match str::from_utf8(word) {
            Ok(text) if word.len() <= MAX_SHOWN => write!(f, "= {text:?}"),
            _ => write!(f, "has {} bytes", word.len()),
        }
    }
}

const TOKEN_BYTES: &str = "A-Z a-z 0-9 - . _ ~ + / =";

// What is wrong with a word that is not a token. The word is not shown.
fn write_token_fault<W: fmt::Write>(f: &mut fmt::Formatter<W>, word: &[u8]) -> fmt::Result {
    if word.is_empty() {
        return write!(f, "TOKEN is empty: 1 to {MAX_TOKEN} of {TOKEN_BYTES}");
    }
    match word.iter().position(|b| !is_token(&[*b])) {
        Some(at) => {
            let number = at.saturating_add(1);
            write!(f, "TOKEN: character {number} is none of {TOKEN_BYTES}")
        }
        None => write!(
            f,
            "TOKEN has {} characters: at most {MAX_TOKEN}",
            word.len()
        ),
    }
}

fn write_command_fault<W: fmt::Write>(f: &mut fmt::Formatter<W>, fault: TextFault) -> fmt::Result {
    f.write_str(match fault {
        TextFault::Verb => "COMMAND: its first word or two name no command",
        TextFault::Argument => {
            "COMMAND: a word is missing, malformed or one too many, or both peers of a rate are the same"
        }
        TextFault::Range => "COMMAND: a number is outside its limits",
    })
}

impl fmt::Display for LineFault<'_> {
    fn fmt<W: fmt::Write>(&self, f: &mut fmt::Formatter<W>) -> fmt::Result {
        match *self {
            LineFault::EndsInReturn => {
                f.write_str("it ends in CR: the lines of a script end in LF alone")
            }
            LineFault::Long(most) => write!(f, "a line has at most {most} bytes"),
            LineFault::NoAscii => f.write_str("a line has ASCII characters alone"),
            LineFault::NoVerb(word) => {
                write!(
                    f,
                    "the first word {}: load, decide, answer, tick or do",
                    Shown(word)
                )
            }
            LineFault::Missing(verb, operand) => {
                write!(f, "{} is missing: {}", operand.name(), verb.form())
            }
            LineFault::TooMany(verb) => write!(f, "a word too many: {}", verb.form()),
            LineFault::Malformed(Operand::Token, word) => write_token_fault(f, word),
            LineFault::Malformed(operand, word) => {
                write!(f, "{} {}: {}", operand.name(), Shown(word), operand.right())
            }
            LineFault::Above(operand, word, most) => {
                write!(f, "{} {}: at most {most}", operand.name(), Shown(word))
            }
            LineFault::NoTenant(word) => {
                write!(
                    f,
                    "TENANT {}: no tenant of the setup has that name",
                    Shown(word)
                )
            }
            LineFault::Odd(operand, word) => {
                write!(
                    f,
                    "{} {}: an even count of digits",
                    operand.name(),
                    Shown(word)
                )
            }
            LineFault::Command(fault) => write_command_fault(f, fault),
        }
    }
}
