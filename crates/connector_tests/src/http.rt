//! Requests that are served and packets that are posted over HTTP, by devices over memory.

mod books;
mod chunked;
mod connections;
mod devices;
mod host;
mod operators;
mod outcomes;
mod posted;
mod served;
mod tenants;
mod texts;
