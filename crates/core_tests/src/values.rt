//! Single values through public functions: lengths, addresses, targets, packets, configurations, prices, purses, buckets,
//! breakers, routes, counts and logs of lines.

mod addresses;
mod breakers;
mod buckets;
mod ildcp;
mod lengths;
mod logs;
mod packets;
mod prices;
mod purses;
mod routes;
mod rows;
mod seats;
mod targets;
