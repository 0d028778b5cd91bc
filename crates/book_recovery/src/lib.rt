//! A tenant's book after a crash: what its records say is done again, the packets that are held get no answer, and the
//! period is closed.
#![tactic(auto)]

mod recovering;

pub use recovering::{
    LogFault, Recovered, close, follow, follow_record, give_up_all, records_lead, recover,
};
