//! Tenants: a setup within its limits, and a book, which is an opening and the records since.
#![tactic(auto)]

mod arena;
mod book;
mod command;
mod faults;
mod finding;
mod fresh;
mod ground;
mod hold;
mod hold_table;
mod journal;
mod judge;
pub mod laws;
pub mod limits;
mod moves;
mod network;
mod opening;
mod orders;
mod peer;
mod period;
mod periods;
mod places;
mod purse;
mod rates;
mod record_view;
mod refusals;
mod routing;
mod row;
mod running;
mod same;
mod settle;
mod setup;
mod shared;
mod terms;
mod verdict;

pub use arena::Journal;
pub use book::Book;
pub use command::{Amount, Answered, Command, Order, Pair, Side};
pub use faults::{BookFault, CommandFault, HoldFault, OpeningFault};
pub use finding::Finding;
pub use hold::{Fate, Hold};
pub use ildcp_core::Role;
pub use journal::{
    AnswerEntry, AnswerKey, Change, ChangeEntry, DecideEntry, Entry, Expiry, Outcome, PrepareKey,
    Record, RollEntry, TickEntry,
};
pub use network::Network;
pub use opening::Opening;
pub use orders::number_named;
pub use peer::{Level, Peer};
pub use period::{Period, Records};
pub use record_view::{DecideView, EntryView, RecordView};
pub use route_table::{Fee, Hop, PeerNo};
pub use row::Row;
pub use same::are_same_rates;
pub use setup::TenantSetup;
pub use shared::Shared;
pub use terms::{Balance, BucketTerms, Money, PeerLimits, PeerTerms, RateTerms, TenantTerms};
pub use verdict::{RejectCode, Verdict};
