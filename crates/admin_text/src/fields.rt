//! What setups and commands say of tenants, a module for each part: its keys in a table, its words in a command, and how
//! both are read and written.

pub(crate) mod bucket;
pub(crate) mod limits;
pub(crate) mod names;
pub(crate) mod peer;
pub(crate) mod prefix;
pub(crate) mod rate;
pub(crate) mod role;
pub(crate) mod route;
pub(crate) mod target;
pub(crate) mod tenant;
pub(crate) mod top;
