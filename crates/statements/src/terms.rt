//! What is agreed with peers, as it is taken off words.

ghost use Rattle.std.specs.Prelude.{◌≡◌, IfOk};
ghost use Rattle.std.specs.Fmt.{decimal};
ghost use Rattle.statements.specs.Reading.{IsReadOff, bucket_read, hop_read, limits_read, nowhere, prefix_spelled};
ghost use Rattle.statements.specs.Reading.{rate_read, role_spelled, terms_read};

use crate::words::LineWords;
use common_types::{AssetCode, Name, ReadError, Token};
use ilp_addr::{Prefix, Target};
use itoa::Buffer;
use money_core::Rate;
use std::alloc::{AllocError, Global};
use tenant_core::{BucketTerms, Hop, PeerLimits, PeerNo, PeerTerms, RateTerms, Role};

// A token for the peer of that number, which no other peer has: statements have no tokens.
fn token_for(number: PeerNo) -> Option<Token>
    ensures { result ≡ Some (decimal number) }
{
    common_types::laws::numerals();
    let mut digits = Buffer::new();
    Token::new(digits.format(number).as_bytes())
}

// A target that nobody is asked at: statements have no targets.
fn no_target() -> Option<Target>
    ensures { result ≡ Some nowhere }
{
    Target::new(b"http://127.0.0.1/", b"none")
}

fn role_in(word: &[u8]) -> Option<Role>
    ensures { result ≡ role_spelled word.now }
{
    if word == b"child".as_slice() {
        Some(Role::Child)
    } else if word == b"peer".as_slice() {
        Some(Role::Peer)
    } else {
        None
    }
}

#[tactic(auto, unfolding(crate::specs::Reading::limits_read))]
pub fn limits_in(words: &mut LineWords<'_>) -> Option<PeerLimits>
    ensures { IsReadOff result words.new (limits_read words.old) }
{
    Some(PeerLimits {
        cap: words.between()?,
        ceiling: words.between()?,
        credit: words.between()?,
    })
}

#[tactic(auto, unfolding(crate::specs::Reading::bucket_read))]
pub fn bucket_in(words: &mut LineWords<'_>) -> Option<BucketTerms>
    ensures { IsReadOff result words.new (bucket_read words.old) }
{
    Some(BucketTerms {
        burst: words.between()?,
        per_second: words.between()?,
    })
}

/// What is agreed with the peer of that number.
#[tactic(auto, unfolding(crate::specs::Reading::terms_read))]
pub fn terms_in(words: &mut LineWords<'_>, number: PeerNo) -> Option<PeerTerms>
    ensures { IsReadOff result words.new (terms_read number words.old) }
{
    Some(PeerTerms {
        name: Name::new(words.next()?)?,
        role: role_in(words.next()?)?,
        token: token_for(number)?,
        target: no_target()?,
        asset: AssetCode::new(words.next()?)?,
        scale: words.between::<0, 255>()?.get() as u8,
        limits: limits_in(words)?,
        bucket: bucket_in(words)?,
    })
}

/// The prefix that a word spells, if it spells one.
#[tactic(auto, unfolding(crate::specs::Reading::prefix_spelled))]
pub fn prefix_in(alloc: Global, word: &[u8]) -> Result<Option<Prefix>, AllocError>
    ensures { IfOk result (λ prefix. prefix ≡ prefix_spelled word.now) }
{
    let spelled: &[u8] = if word == b"*".as_slice() { &[] } else { word };
    match Prefix::parse(alloc, spelled) {
        Ok(prefix) => Ok(Some(prefix)),
        Err(ReadError::Fault(_)) => Ok(None),
        Err(ReadError::Memory) => Err(AllocError),
    }
}

#[tactic(auto, unfolding(crate::specs::Reading::hop_read))]
pub fn hop_in(words: &mut LineWords<'_>) -> Option<Hop>
    ensures { IsReadOff result words.new (hop_read words.old) }
{
    Some(Hop {
        peer: words.peer()?,
        fee: words.between()?,
    })
}

#[tactic(auto, unfolding(crate::specs::Reading::rate_read))]
pub fn rate_in(words: &mut LineWords<'_>) -> Option<RateTerms>
    ensures { IsReadOff result words.new (rate_read words.old) }
{
    Some(RateTerms {
        from: words.peer()?,
        to: words.peer()?,
        rate: Rate::new(words.number()?, words.number()?).ok()?,
    })
}
