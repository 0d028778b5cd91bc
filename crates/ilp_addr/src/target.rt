//! The URL at which a peer listens for packets, and the token for it (RFC 0035).

ghost use Rattle.std.specs.Prelude.{◌≡◌, ◌≢◌, ◌≤◌, ◌+◌, ◌∷◌, ◌++◌, ◌==◌, ℕ, List, [], length, slice_index, take, drop};
ghost use Rattle.std.specs.Prelude.{codes, IsTrue, ◌↔◌, MatchOption, option_copied};
ghost use Rattle.std.specs.List.{position, position_or_len};
ghost use Rattle.std.specs.Result.{result_ok};
ghost use Rattle.common_types.specs.Numerals.{number_in};
ghost use Rattle.ilp_addr.specs.Target.{Parts, IsTarget, Names, IsHost, up_to, from_first, authority_of, path_of};
ghost use Rattle.ilp_addr.specs.Target.{host_len, port_behind, are_visible, host_text, port_text};
ghost use Rattle.ilp_addr.specs.Target.{v4_in, v6_in, literal_in, host_in, endpoint_in, target_in};
ghost use Rattle.std.specs.Net.Grammar.{IsIpv4Text, IsIpv6Text};

use common_types::{MAX_TOKEN, Text, is_token, number_in};
use std::marker::Model;
use std::net::{Ipv4Addr, Ipv6Addr};

/// The most bytes of a URL.
pub const MAX_URL: usize = 255;

/// The host of a URL (RFC 3986, 3.2.2).
#[derive(Clone, Copy, Debug, PartialEq, Eq)]
pub enum Host {
    /// The name `localhost`.
    Localhost,
    /// An IPv4 literal.
    V4(Ipv4Addr),
    /// An IPv6 literal in brackets.
    V6(Ipv6Addr),
}

/// The URL at which a peer listens for packets, and the token for it: a URL `http://HOST/PATH` or
/// `http://HOST:PORT/PATH` (RFC 9110, 4.2.1) and a bearer token (RFC 6750, 2.1). Both are stored inline.
#[derive(Drop)]
pub struct Target {
    url: Text<MAX_URL>,
    token: Text<MAX_TOKEN>,
    host: Host,
    port: u16,
}

impl Model for Target {
    ghost Value = { Parts };

    ghost view = { λ t. record { url = t.url; token = t.token; host = t.host; port = t.port } };

    ghost invariant = { λ t. IsTarget t.url t.token
        (record { url = t.url; token = t.token; host = t.host; port = t.port }) };
}

impl Target {
    /// The target of a URL and a token, or `None` if one of them is malformed.
    ///
    /// The URL has at most 255 bytes of visible ASCII, with `http` and `localhost` in lower case. Its host is
    /// `localhost`, an IPv4 literal, or an IPv6 literal in brackets and without a zone. Its port is 1 to 65,535
    /// without a leading zero; without a port it is 80. Its path begins with a slash. The token is 1 to 64 letters,
    /// digits and `-._~+/=`.
    #[tactic(auto, unfolding(crate::specs::Target::target_in))]
    pub fn new(url: &[u8], token: &[u8]) -> Option<Target>
        ensures target { MatchOption result ((t : Parts) → ¬ (IsTarget url.now token.now t))
            (IsTarget url.now token.now) }
        ensures exact { result ≡ target_in url.now token.now }
    {
        if !is_token(token) {
            return None;
        }
        let Some((host, port)) = endpoint(url) else {
            return None;
        };
        let url = Text::from_bytes(url)?;
        let token = Text::from_bytes(token)?;
        Some(Target {
            url,
            token,
            host,
            port,
        })
    }

    /// A copy of the target.
    pub fn copy(&self) -> Target
        ensures { result ≡ self.now }
    {
        Target {
            url: self.url.copy(),
            token: self.token.copy(),
            host: self.host,
            port: self.port,
        }
    }

    /// Becomes a copy of the other.
    pub fn copy_from(&mut self, other: &Target)
        ensures { self.new ≡ other.now }
    {
        self.url.set(other.url.as_bytes());
        self.token.set(other.token.as_bytes());
        self.host = other.host;
        self.port = other.port;
    }

    /// The URL. At most 255 bytes.
    pub fn url(&self) -> &[u8]
        ensures value { result.now ≡ self.now.url }
        ensures target { IsTarget self.now.url self.now.token self.now }
    {
        self.url.as_bytes()
    }

    /// The text of the URL between `http://` and the next slash: the host, and the port if the URL has one. At most
    /// 255 bytes.
    pub fn host(&self) -> &[u8]
        ensures value { result.now ≡ authority_of self.now.url }
        ensures short { length result.now ≤ 255 }
    {
        let (authority, _) = split_before(behind_scheme(self.url.as_bytes()), b'/');
        authority
    }

    /// The text of the URL from that slash on. At most 255 bytes.
    pub fn path(&self) -> &[u8]
        ensures value { result.now ≡ path_of self.now.url }
        ensures short { length result.now ≤ 255 }
    {
        let (_, path) = split_before(behind_scheme(self.url.as_bytes()), b'/');
        path
    }

    /// The token for the peer. At most 64 bytes.
    pub fn token(&self) -> &[u8]
        ensures value { result.now ≡ self.now.token }
        ensures short { length result.now ≤ 64 }
    {
        self.token.as_bytes()
    }

    /// Whether the other is the same.
    pub fn is_same(&self, other: &Target) -> bool
        ensures { IsTrue result ↔ (self.now ≡ other.now) }
    {
        self.url() == other.url()
            && self.token() == other.token()
            && self.host == other.host
            && self.port == other.port
    }

    /// The host to connect to.
    pub fn address(&self) -> Host
        ensures { result ≡ self.now.host }
    {
        self.host
    }

    /// The port to connect to.
    pub fn port(&self) -> u16
        ensures { result ≡ self.now.port }
    {
        self.port
    }
}

// The bytes after the first seven.
fn behind_scheme(url: &[u8]) -> &[u8]
    ensures { result.now ≡ drop 7 url.now }
{
    if url.len() < 7 { &[] } else { &url[7..] }
}

fn place_of(stop: u8, bytes: &[u8]) -> Option<usize>
    ensures { result ≡ position (λ b. b == stop) bytes.now }
{
    bytes.iter().position(|b| *b == stop)
}

fn place_or_len(stop: u8, bytes: &[u8]) -> usize
    ensures value { result ≡ position_or_len (λ b. b == stop) bytes.now }
    ensures bound { result ≤ length bytes.now }
{
    place_of(stop, bytes).unwrap_or(bytes.len())
}

// The bytes up to the first that is `stop`, and those from it on.
fn split_before(bytes: &[u8], stop: u8) -> (&[u8], &[u8])
    ensures front { result.0.now ≡ up_to stop bytes.now }
    ensures back { result.1.now ≡ from_first stop bytes.now }
    ensures bound { length result.0.now + length result.1.now ≡ length bytes.now }
{
    bytes.split_at(place_or_len(stop, bytes))
}

fn has_scheme(url: &[u8]) -> bool
    ensures { IsTrue result ↔ (take 7 url.now ≡ codes "http://") }
{
    url.starts_with(b"http://")
}

// The host and the port that a URL names.
#[tactic(auto, unfolding(crate::specs::Target::endpoint_in))]
fn endpoint(url: &[u8]) -> Option<(Host, u16)>
    ensures names { MatchOption result ((host : Host) (port : ℕ) → ¬ (Names url.now host port))
        (λ e. Names url.now e.0 e.1) }
    ensures exact { result ≡ endpoint_in url.now }
{
    let (authority, path) = split_before(behind_scheme(url), b'/');
    if !has_scheme(url) || !are_visible(url) || !is_path(path) {
        return None;
    }
    let (host, port) = split_host(authority);
    match (read_host(host), port_behind(port)) {
        (Some(host), Some(port)) => Some((host, port)),
        _ => None,
    }
}

fn split_host(authority: &[u8]) -> (&[u8], &[u8])
    ensures host { result.0.now ≡ host_text authority.now }
    ensures port { result.1.now ≡ port_text authority.now }
{
    authority.split_at(host_len(authority))
}

fn is_path(path: &[u8]) -> bool
    ensures { IsTrue result ↔ (slice_index path.now 0 ≡ 47) }
{
    match path {
        [b'/', ..] => true,
        _ => false,
    }
}

fn are_visible(bytes: &[u8]) -> bool
    ensures { result ≡ are_visible bytes.now }
{
    bytes.iter().all(|b| 33 <= *b && *b <= 126)
}

fn host_len(authority: &[u8]) -> usize
    ensures value { take result authority.now ≡ take (host_len authority.now) authority.now }
    ensures rest { drop result authority.now ≡ drop (host_len authority.now) authority.now }
    ensures bound { result ≤ length authority.now }
{
    match authority {
        [b'[', ..] => authority.len().min(place_or_len(b']', authority) + 1),
        _ => place_or_len(b':', authority),
    }
}

fn is_localhost(text: &[u8]) -> bool
    ensures { IsTrue result ↔ (text.now ≡ codes "localhost") }
{
    text == b"localhost".as_slice()
}

#[tactic(auto, unfolding(crate::specs::Target::host_in))]
fn read_host(text: &[u8]) -> Option<Host>
    ensures host { MatchOption result ((host : Host) → ¬ (IsHost text.now host)) (IsHost text.now) }
    ensures exact { result ≡ host_in text.now }
{
    if is_localhost(text) {
        return Some(Host::Localhost);
    }
    if let Some(address) = v4_in(text) {
        return Some(Host::V4(address));
    }
    match v6_in(literal_in(text)?) {
        Some(address) => Some(Host::V6(address)),
        None => None,
    }
}

fn v4_in(text: &[u8]) -> Option<Ipv4Addr>
    ensures address { MatchOption result ((a : Ipv4Addr) → ¬ (IsIpv4Text text.now a)) (IsIpv4Text text.now) }
    ensures exact { result ≡ v4_in text.now }
{
    match Ipv4Addr::parse_ascii(text) {
        Ok(address) => Some(address),
        Err(_) => None,
    }
}

fn v6_in(text: &[u8]) -> Option<Ipv6Addr>
    ensures address { MatchOption result ((a : Ipv6Addr) → ¬ (IsIpv6Text text.now a)) (IsIpv6Text text.now) }
    ensures exact { result ≡ v6_in text.now }
{
    match Ipv6Addr::parse_ascii(text) {
        Ok(address) => Some(address),
        Err(_) => None,
    }
}

// The text between brackets.
fn literal_in(text: &[u8]) -> Option<&[u8]>
    ensures literal { MatchOption result ((literal : List ℕ) → text.now ≢ 91 ∷ literal ++ 93 ∷ [])
        (λ literal. text.now ≡ 91 ∷ literal.now ++ 93 ∷ []) }
    ensures exact { option_copied result ≡ literal_in text.now }
{
    match text {
        [b'[', literal @ .., b']'] => Some(literal),
        _ => None,
    }
}

fn port_behind(text: &[u8]) -> Option<u16>
    ensures { result ≡ port_behind text.now }
{
    match text {
        [] => Some(80),
        [b':', digits @ ..] => port_of(digits),
        _ => None,
    }
}

fn port_of(digits: &[u8]) -> Option<u16>
    ensures { result ≡ result_ok (number_in 1 65_535 digits.now) }
{
    match number_in::<1, 65_535>(digits) {
        Ok(port) => Some(port.get() as u16),
        Err(_) => None,
    }
}
