//! Commands of a hostile operator.

use std::alloc::{AllocError, Global};
use test_texts::Draws;

// In these a @ means the tenant's name.
static COMMANDS: [&str; 31] = [
    "peer add carol child tok-carol http://127.0.0.1:7803/ilp out-carol EUR 2 1000 1000 1000 1 0",
    "peer add carol peer tok-carol http://[::1]/ out-carol EUR 2 0 0 0 1 0",
    "peer add alice peer tok-dave http://127.0.0.1/ out EUR 2 1 1 1 1 1",
    "peer add dave peer tok-alice http://127.0.0.1/ out EUR 2 1 1 1 1 1",
    "peer remove alice",
    "peer remove bob",
    "peer remove carol",
    "peer remove nobody",
    "peer limits alice 0 0 0",
    "peer limits alice 1000000 2000 1000000",
    "peer limits alice 1000 4611686018427387904 1000000",
    "peer limits bob 1499 1000000 2000",
    "peer limits bob 1000000 1000000 1000000",
    "peer limits nobody 1 1 1",
    "peer bucket alice 1 0",
    "peer bucket alice 1000 1000",
    "peer bucket bob 4 3",
    "route add g.@.bob bob",
    "route add g.@.bob carol",
    "route add * alice",
    "route add g.x nobody",
    "route remove g.@.bob",
    "route remove *",
    "rate set alice bob 3 2",
    "rate set alice carol 1 1",
    "rate set carol bob 7 1",
    "rate set bob alice 2 1",
    "settle in alice 4611686018427387904",
    "settle out alice 4611686018427387904",
    "settle in bob 700",
    "settle out bob 1500",
];

// What lets packets pass again, and what does not.
static AMENDS: [&str; 11] = [
    "peer limits alice 1000000 1000000 1000000",
    "peer limits bob 1000000 1000000 1000000",
    "peer bucket alice 1000 1000",
    "route add g.@.bob bob",
    "rate set alice bob 3 2",
    "rate set bob alice 2 1",
    "route add * alice",
    "settle in bob 4611686018427387904",
    "settle out bob 4611686018427387904",
    "balances",
    "roll",
];

/// A command of the tenant of that name.
pub fn hostile_command(alloc: Global, draws: &mut Draws, name: &str) -> Result<String, AllocError> {
    let command = match draws.below(10) {
        0..=2 => "roll",
        3..=5 => draws.one_of(&AMENDS),
        _ => draws.one_of(&COMMANDS),
    };
    command.replace(alloc, "@", name)
}
