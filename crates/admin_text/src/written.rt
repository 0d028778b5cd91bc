//! The texts of commands.

ghost use Rattle.std.specs.Prelude.{◌≡◌, IfOk};
ghost use Rattle.common_types.specs.Words.{words_of};
ghost use Rattle.admin_text.specs.Commands.{command_words, IsWritten, IsCommandText};
ghost use Rattle.tenant_core.specs.declared.command.Command.TheVariants as spec;
ghost use Rattle.tenant_core.specs.declared.command.Order.TheVariants as order;
ghost use Rattle.tenant_core.specs.declared.command.Side.TheVariants.{In, Out};

use crate::fields::bucket::put_bucket;
use crate::fields::limits::put_limits;
use crate::fields::names::put_name;
use crate::fields::peer::put_peer_terms;
use crate::fields::prefix::put_prefix;
use crate::fields::rate::put_pair;
use crate::fields::route::put_fee;
use crate::words::{put_between, put_number};
use common_types::Name;
use ilp_addr::Prefix;
use money_core::Rate;
use std::alloc::{AllocError, Global};
use tenant_core::{Amount, BucketTerms, Command, Fee, Order, Pair, PeerLimits, PeerTerms, Side};

#[tactic(auto, unfolding(crate::specs::Commands::IsWritten))]
fn added_peer(alloc: Global, terms: &PeerTerms) -> Result<Vec<u8>, AllocError>
    ensures { IfOk result (λ text. IsWritten (spec.Order (order.AddPeer terms.now)) text.items) }
{
    let mut text = Vec::from_slice(alloc, b"peer add")?;
    put_peer_terms(alloc, &mut text, terms)?;
    Ok(text)
}

#[tactic(auto, unfolding(crate::specs::Commands::IsWritten))]
fn removed_peer(alloc: Global, peer: &Name) -> Result<Vec<u8>, AllocError>
    ensures { IfOk result (λ text. IsWritten (spec.Order (order.RemovePeer peer.now)) text.items) }
{
    let mut text = Vec::from_slice(alloc, b"peer remove")?;
    put_name(&mut text, peer)?;
    Ok(text)
}

#[tactic(auto, unfolding(crate::specs::Commands::IsWritten))]
fn limited_peer(alloc: Global, peer: &Name, limits: PeerLimits) -> Result<Vec<u8>, AllocError>
    ensures { IfOk result (λ text. IsWritten (spec.Order (order.SetLimits peer.now limits)) text.items) }
{
    let mut text = Vec::from_slice(alloc, b"peer limits")?;
    put_name(&mut text, peer)?;
    put_limits(alloc, &mut text, limits)?;
    Ok(text)
}

#[tactic(auto, unfolding(crate::specs::Commands::IsWritten))]
fn bucketed_peer(alloc: Global, peer: &Name, bucket: BucketTerms) -> Result<Vec<u8>, AllocError>
    ensures { IfOk result (λ text. IsWritten (spec.Order (order.SetBucket peer.now bucket)) text.items) }
{
    let mut text = Vec::from_slice(alloc, b"peer bucket")?;
    put_name(&mut text, peer)?;
    put_bucket(alloc, &mut text, bucket)?;
    Ok(text)
}

#[tactic(auto, unfolding(crate::specs::Commands::IsWritten))]
fn added_route(alloc: Global, prefix: &Prefix, peer: &Name, fee: Fee) -> Result<Vec<u8>, AllocError>
    ensures { IfOk result (λ text. IsWritten (spec.Order (order.AddRoute prefix.now peer.now fee)) text.items) }
{
    let mut text = Vec::from_slice(alloc, b"route add")?;
    put_prefix(&mut text, prefix)?;
    put_name(&mut text, peer)?;
    put_fee(alloc, &mut text, fee)?;
    Ok(text)
}

#[tactic(auto, unfolding(crate::specs::Commands::IsWritten))]
fn removed_route(alloc: Global, prefix: &Prefix) -> Result<Vec<u8>, AllocError>
    ensures { IfOk result (λ text. IsWritten (spec.Order (order.RemoveRoute prefix.now)) text.items) }
{
    let mut text = Vec::from_slice(alloc, b"route remove")?;
    put_prefix(&mut text, prefix)?;
    Ok(text)
}

#[tactic(auto, unfolding(crate::specs::Commands::IsWritten))]
fn set_rate(alloc: Global, pair: &Pair, rate: Rate) -> Result<Vec<u8>, AllocError>
    ensures { IfOk result (λ text. IsWritten (spec.Order (order.SetRate pair.now rate)) text.items) }
{
    let mut text = Vec::from_slice(alloc, b"rate set")?;
    put_pair(&mut text, pair)?;
    put_number(alloc, &mut text, rate.numerator())?;
    put_number(alloc, &mut text, rate.denominator())?;
    Ok(text)
}

#[tactic(auto, unfolding(crate::specs::Commands::IsWritten))]
fn settled_in(alloc: Global, peer: &Name, amount: Amount) -> Result<Vec<u8>, AllocError>
    ensures { IfOk result (λ text. IsWritten (spec.Order (order.Settle peer.now In amount)) text.items) }
{
    let mut text = Vec::from_slice(alloc, b"settle in")?;
    put_name(&mut text, peer)?;
    put_between(alloc, &mut text, amount)?;
    Ok(text)
}

#[tactic(auto, unfolding(crate::specs::Commands::IsWritten))]
fn settled_out(alloc: Global, peer: &Name, amount: Amount) -> Result<Vec<u8>, AllocError>
    ensures { IfOk result (λ text. IsWritten (spec.Order (order.Settle peer.now Out amount)) text.items) }
{
    let mut text = Vec::from_slice(alloc, b"settle out")?;
    put_name(&mut text, peer)?;
    put_between(alloc, &mut text, amount)?;
    Ok(text)
}

fn order_text(alloc: Global, order: &Order) -> Result<Vec<u8>, AllocError>
    ensures { IfOk result (λ text. IsWritten (spec.Order order.now) text.items) }
{
    match order {
        Order::AddPeer(terms) => added_peer(alloc, terms),
        Order::RemovePeer(peer) => removed_peer(alloc, peer),
        Order::SetLimits { peer, limits } => limited_peer(alloc, peer, *limits),
        Order::SetBucket { peer, bucket } => bucketed_peer(alloc, peer, *bucket),
        Order::AddRoute { prefix, peer, fee } => added_route(alloc, prefix, peer, *fee),
        Order::RemoveRoute(prefix) => removed_route(alloc, prefix),
        Order::SetRate { pair, rate } => set_rate(alloc, pair, *rate),
        Order::Settle { peer, side, amount } => match side {
            Side::In => settled_in(alloc, peer, *amount),
            Side::Out => settled_out(alloc, peer, *amount),
        },
    }
}

#[tactic(auto, unfolding(crate::specs::Commands::IsWritten))]
fn command_text(alloc: Global, command: &Command) -> Result<Vec<u8>, AllocError>
    ensures { IfOk result (λ text. IsWritten command.now text.items) }
{
    match command {
        Command::Order(order) => order_text(alloc, order),
        Command::Balances => Vec::from_slice(alloc, b"balances"),
        Command::Roll => Vec::from_slice(alloc, b"roll"),
    }
}

/// The text of a command, which [`parse_command`](crate::parse_command) reads as the same command: its prefix is
/// written without a dot at the end.
///
/// Fails only if it is out of memory.
pub fn write_command(alloc: Global, command: &Command) -> Result<Vec<u8>, AllocError>
    // Its words are the command's.
    ensures written { IfOk result (λ text. words_of text.items ≡ command_words command.now) }
    // They spell it.
    ensures spelled { IfOk result (λ text. IsCommandText text.items command.now) }
{
    ilp_addr::laws::prefix_words();
    let text = command_text(alloc, command)?;
    Ok(text)
}
