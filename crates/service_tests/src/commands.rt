//! The command line, what the subcommands say, and exit statuses.

mod audits;
mod journals;
mod words;
