//! What a journal on disk begins with.

ghost use Rattle.std.specs.Prelude.{◌≡◌, ◌++◌, List, ℕ, IfOk, OnOk};
ghost use Rattle.std.specs.List.{All, flat_map};
ghost use Rattle.book_log.specs.Base.{AreStarts, IsBase, admin_line, base_version, secret_line, start_text};
ghost use Rattle.book_log.specs.OneBase.{IsStart};

use crate::kept::{is_start, routes_are_kept};
use crate::line::{Secrets, put_secrets, secrets_in};
use crate::sums::put_sum;
use crate::words::WordsLeft;
use common_types::{ReadError, Token, first_word};
use route_table::Route;
use sha2::{Digest, Sha256};
use statements::{Lines, first_difference, opening_in, put_number, put_opening, put_word};
use std::alloc::{AllocError, Global};
use tenant_core::limits::MAX_TENANTS;
use tenant_core::{CommandFault, Network, Opening, Peer, PeerNo, PeerTerms, RateTerms};
use thiserror::Error;

/// What the books of a tenant begin with: its opening, and the token of its operator's commands.
#[derive(Drop)]
pub struct TenantStart {
    pub opening: Opening,
    pub admin: Token,
}

/// What is wrong with the base of a journal.
#[derive(Clone, Copy, Debug, PartialEq, Eq, Error)]
pub enum BaseFault {
    /// Its first line is another one.
    #[error("no journal of version 1")]
    Version,
    /// What is said of the tenant of that number is no secrets and no opening.
    #[error("tenant {0}: no secrets and opening")]
    Tenant(usize),
    /// It is not word for word what would be written of its tenants, from that line on. Lines are counted from 1.
    #[error("line {0}: not as it would be written")]
    Differs(usize),
}

type Read<T> = Result<T, ReadError<BaseFault>>;

// ---- as it is written

#[tactic(auto, unfolding(crate::specs::Base::secret_line))]
fn put_secret(out: &mut Vec<u8>, peer: &Peer) -> Result<(), AllocError>
    ensures { OnOk result (out.new.items ≡ out.old.items ++ secret_line peer.now) }
{
    out.extend_from_slice(b"secret")?;
    put_number(out, peer.number as u64)?;
    put_secrets(out, &peer.terms)?;
    Ok(out.push(b'\n')?)
}

fn put_all_secrets(out: &mut Vec<u8>, peers: &[Peer]) -> Result<(), AllocError>
    ensures { OnOk result (out.new.items ≡ out.old.items ++ flat_map secret_line peers.now) }
{
    for peer in peers {
        put_secret(out, peer)?;
    }
    Ok(())
}

#[tactic(auto, unfolding(crate::specs::Base::admin_line))]
fn put_admin(out: &mut Vec<u8>, admin: &Token) -> Result<(), AllocError>
    ensures { OnOk result (out.new.items ≡ out.old.items ++ admin_line admin.now) }
{
    out.extend_from_slice(b"admin")?;
    put_word(out, admin.as_bytes())?;
    Ok(out.push(b'\n')?)
}

#[tactic(auto, unfolding(crate::specs::Base::start_text))]
fn put_start(out: &mut Vec<u8>, routes: &[Route], start: &TenantStart) -> Result<(), AllocError>
    ensures { OnOk result (out.new.items ≡ out.old.items ++ start_text routes.now start.now) }
{
    put_all_secrets(out, start.opening.network.peers())?;
    put_admin(out, &start.admin)?;
    put_opening(out, routes, &start.opening)
}

fn put_starts(alloc: Global, out: &mut Vec<u8>, starts: &[TenantStart]) -> Result<(), AllocError>
    ensures { OnOk result ((text : List ℕ) × (out.new.items ≡ out.old.items ++ text) × AreStarts text starts.now) }
{
    let [start, others @ ..] = starts else {
        return Ok(());
    };
    let routes = start.opening.network.routes().list(alloc)?;
    routes_are_kept(routes.as_slice());
    put_start(out, routes.as_slice(), start)?;
    put_starts(alloc, out, others)
}

#[tactic(auto, unfolding(crate::specs::Base::base_version))]
fn put_version(out: &mut Vec<u8>) -> Result<(), AllocError>
    ensures { OnOk result (out.new.items ≡ out.old.items ++ base_version) }
{
    out.extend_from_slice(b"journal 1\n")
}

/// The text of these tenants, and its sum, which is the one before the first line of the log. Fails only if it is out of memory.
pub fn write_base(alloc: Global, starts: &[TenantStart]) -> Result<(Vec<u8>, [u8; 32]), AllocError>
    ensures { IfOk result (λ base. IsBase base.0.items starts.now base.1) }
{
    let mut out = Vec::new(alloc);
    put_version(&mut out)?;
    put_starts(alloc, &mut out, starts)?;
    let sum = Sha256::digest(&out);
    put_sum(&mut out, &sum)?;
    Ok((out, sum))
}

// ---- as it is read

#[derive(Drop)]
struct Secret {
    number: PeerNo,
    secrets: Secrets,
}

fn secret_in(words: &[u8]) -> Option<Secret> {
    let mut words = WordsLeft::of(Some(words));
    let number = words.number::<65_535>()? as PeerNo;
    let secrets = secrets_in(&mut words)?;
    match words.text() {
        Some(_) => None,
        None => Some(Secret { number, secrets }),
    }
}

// The secrets that lines begin with. The line after them is left.
fn all_secrets_in(alloc: Global, lines: &mut Lines<'_>) -> Result<Option<Vec<Secret>>, AllocError> {
    let mut secrets = Vec::new(alloc);
    for _ in 0..=u16::MAX {
        let before = *lines;
        let Some(line) = lines.next() else {
            return Ok(None);
        };
        let (b"secret", Some(words)) = first_word(line) else {
            *lines = before;
            break;
        };
        let Some(secret) = secret_in(words) else {
            return Ok(None);
        };
        secrets.push(secret)?;
    }
    Ok(Some(secrets))
}

fn admin_in(line: &[u8]) -> Option<Token> {
    match first_word(line) {
        (b"admin", Some(word)) => Token::new(word),
        _ => None,
    }
}

// The terms with that secret.
fn with_secret(terms: &PeerTerms, secret: &Secret) -> PeerTerms {
    PeerTerms {
        name: terms.name.copy(),
        role: terms.role,
        token: secret.secrets.token.copy(),
        target: secret.secrets.target.copy(),
        asset: terms.asset.copy(),
        scale: terms.scale,
        limits: terms.limits,
        bucket: terms.bucket,
    }
}

fn add_peers(
    network: &mut Network,
    peers: &[Peer],
    secrets: &[Secret],
) -> Result<(), CommandFault> {
    for peer in peers {
        let mut secret = secrets.iter().filter(|secret| secret.number == peer.number);
        let secret = secret.next().ok_or(CommandFault::Absent)?;
        if !network.skip_to(peer.number) {
            return Err(CommandFault::Limit);
        }
        network.add_peer(with_secret(&peer.terms, secret), peer.balance, peer.bucket)?;
    }
    Ok(())
}

fn add_routes(network: &mut Network, routes: Vec<Route>) -> Result<(), CommandFault> {
    for Route { prefix, hop } in routes {
        if network.place_numbered(hop.peer).is_none() {
            return Err(CommandFault::Absent);
        }
        network.add_route(prefix, hop)?;
    }
    Ok(())
}

fn set_rates(network: &mut Network, rates: &[RateTerms]) -> Result<(), CommandFault> {
    for rate in rates {
        if rate.from == rate.to
            || network.place_numbered(rate.from).is_none()
            || network.place_numbered(rate.to).is_none()
        {
            return Err(CommandFault::Absent);
        }
        network.set_rate(rate)?;
    }
    Ok(())
}

// The network with these secrets, in the place of those that stand for them in a statement.
fn completed(alloc: Global, stated: &Network, secrets: &[Secret]) -> Result<Network, CommandFault> {
    let mut network = Network::new(alloc);
    add_peers(&mut network, stated.peers(), secrets)?;
    add_routes(&mut network, stated.routes().list(alloc)?)?;
    set_rates(&mut network, stated.rates())?;
    if network.skip_to(stated.next_peer()) {
        Ok(network)
    } else {
        Err(CommandFault::Limit)
    }
}

fn start_in(alloc: Global, tenant: usize, lines: &mut Lines<'_>) -> Read<TenantStart>
    ensures { IfOk result IsStart }
{
    let bad = ReadError::Fault(BaseFault::Tenant(tenant));
    let secrets = all_secrets_in(alloc, lines)?.ok_or(bad)?;
    // `opening_in` skips the line before the opening.
    let mut ahead = *lines;
    let admin = admin_in(ahead.next().ok_or(bad)?).ok_or(bad)?;
    let mut opening = match opening_in(alloc, lines) {
        Ok(opening) => opening,
        Err(ReadError::Memory) => return Err(ReadError::Memory),
        Err(ReadError::Fault(_)) => return Err(bad),
    };
    match completed(alloc, &opening.network, &secrets) {
        Ok(network) => opening.network = network,
        Err(CommandFault::Memory) => return Err(ReadError::Memory),
        Err(_) => return Err(bad),
    }
    if !is_start(&opening, &admin) {
        return Err(bad);
    }
    Ok(TenantStart { opening, admin })
}

fn starts_in(alloc: Global, text: &[u8]) -> Read<Vec<TenantStart>>
    ensures { IfOk result (λ starts. All IsStart starts.items) }
{
    let mut lines = Lines::of(text);
    if lines.next() != Some(b"journal 1".as_slice()) {
        return Err(ReadError::Fault(BaseFault::Version));
    }
    let mut starts = Vec::new(alloc);
    for tenant in 0..MAX_TENANTS {
        let mut ahead = lines;
        if ahead.next().is_none_or(|line| line.starts_with(b"sum ")) {
            break;
        }
        starts.push(start_in(alloc, tenant, &mut lines)?)?;
    }
    Ok(starts)
}

/// The tenants of a base, and its sum. The text is word for word what `write_base` gives of them. They are at the beginning of a
/// period, so no other such tenants have this text (`laws::one_base`).
pub fn read_base(
    alloc: Global,
    text: &[u8],
) -> Result<(Vec<TenantStart>, [u8; 32]), ReadError<BaseFault>>
    ensures based { IfOk result (λ base. IsBase text.now base.0.items base.1) }
    ensures begin { IfOk result (λ base. All IsStart base.0.items) }
{
    let starts = starts_in(alloc, text)?;
    let (written, sum) = write_base(alloc, &starts)?;
    if written.as_slice() == text {
        Ok((starts, sum))
    } else {
        Err(ReadError::Fault(BaseFault::Differs(first_difference(text, &written))))
    }
}
