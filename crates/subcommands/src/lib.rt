//! What `ilpd` does and says for the words of its command line, and its exit statuses.
//!
//! - `program`: from the words to the exit status.
//! - `judging`, `replaying`, `serving`: what each subcommand does with its files, folders and sockets.
//! - `files`, `folder`: what the command line names, and what is said of it.
//! - `checking`: what `check` says of a setup and a script.
//! - `verifying`, `auditing`: what `verify` says of statements, and of receipts.
//! - `filing`, `journalling`: a replay that keeps statements, and one that keeps a journal.
//! - `recovering`: what `recover` and `verify` say of a journal.
//! - `beginning`, `continuing`: what a service begins with, and how it goes on with the journal of an earlier run.
//! - `ending`, `reasons`: how a run ends, and why a file or a socket failed.
//! - `clock`, `token`: what time it is; the token that a file holds.
#![tactic(auto)]

mod auditing;
mod beginning;
mod checking;
mod clock;
mod continuing;
mod ending;
mod files;
mod filing;
mod folder;
mod journalling;
mod judging;
mod program;
mod reasons;
mod recovering;
mod replaying;
mod serving;
mod token;
mod verifying;

pub use auditing::{Statements, tell_audit};
pub use beginning::{Beginning, openings_of_setup};
pub use checking::{Script, check, ending_of, printing};
pub use clock::SystemClock;
pub use continuing::{Following, follow};
pub use ending::{Ending, JournalEnding, asks_version, exit_status, words_refused};
pub use filing::{Filer, replay_filing};
pub use journalling::{Journalist, NoPeriods, replay_journalled, starts_of};
pub use program::run;
pub use reasons::reason_of;
pub use recovering::{end_period, reopened};
pub use token::token_of;
pub use verifying::{
    TextFile, begin, good_in, join, memory_refused, name_in, take, tell, tenant_of,
};
