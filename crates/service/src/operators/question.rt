//! An operator's question about a packet.

ghost use Rattle.std.specs.Prelude.{◌≡◌, ◌^◌, Ok, option_map};
ghost use Rattle.common_types.specs.Outcomes.{Gives};
ghost use Rattle.service.specs.Questions.{key_asked, question_at, question_in, values_in};
ghost use Rattle.tenant_core.specs.Key.{key_of};

use common_types::{is_name, number_in};
use http_link::parted;
use ilp_addr::Address;
use tenant_core::{Expiry, PrepareKey};

/// The packet of a question: the name of its sender, its amount in the sender's units, and its destination.
#[derive(Drop)]
pub struct Question<'a> {
    pub peer: &'a [u8],
    pub amount: u64,
    pub destination: Address<'a>,
}

/// Why words are not a question.
#[derive(Clone, Copy, Debug, PartialEq, Eq)]
pub enum QuestionFault {
    /// They are not `peer=PEER&amount=N&destination=ADDR`.
    Form,
    /// The peer is not a name.
    Peer,
    /// The amount is not a number below 2^64.
    Amount,
    /// The destination is not an address.
    Destination,
}

impl QuestionFault {
    ghost use Rattle.std.specs.Prelude.{◌≡◌};
    ghost use Rattle.service.specs.Questions.{fault_line};

    /// The line that says so.
    pub fn line(self) -> &'static [u8]
        ensures { result.now ≡ fault_line self }
    {
        match self {
            QuestionFault::Form => b"a question is peer=PEER&amount=N&destination=ADDRESS\n",
            QuestionFault::Peer => b"peer: 1 to 32 small letters, digits and -\n",
            QuestionFault::Amount => b"amount: a whole number up to 18446744073709551615\n",
            QuestionFault::Destination => b"destination: an ILP address\n",
        }
    }
}

// The three values of a question.
fn values_in(words: &[u8]) -> Option<(&[u8], &[u8], &[u8])>
    ensures { option_map (λ v. (v.0.now, v.1.now, v.2.now)) result ≡ values_in words.now }
{
    let (peer, words) = parted(words, b'&')?;
    let (amount, destination) = parted(words, b'&')?;
    Some((
        peer.strip_prefix(b"peer=".as_slice())?,
        amount.strip_prefix(b"amount=".as_slice())?,
        destination.strip_prefix(b"destination=".as_slice())?,
    ))
}

/// The question in these words, or their first fault.
pub fn question_in(words: &[u8]) -> Result<Question<'_>, QuestionFault>
    ensures { Gives question_at result (question_in words.now) }
{
    let Some((peer, amount, destination)) = values_in(words) else {
        return Err(QuestionFault::Form);
    };
    if !is_name(peer) {
        return Err(QuestionFault::Peer);
    }
    let Ok(amount) = number_in::<0, { u64::MAX }>(amount) else {
        return Err(QuestionFault::Amount);
    };
    let Ok(destination) = Address::parse(destination) else {
        return Err(QuestionFault::Destination);
    };
    Ok(Question {
        peer,
        amount: amount.get(),
        destination,
    })
}

/// The greatest expiry, in milliseconds since 1970-01-01.
const LAST_EXPIRY: u64 = 253_402_128_000_000;

/// The SHA-256 of 32 zero bytes, which is also the condition of a request for the configuration.
const CONDITION: [u8; 32] = [
    0x66, 0x68, 0x7a, 0xad, 0xf8, 0x62, 0xbd, 0x77, 0x6c, 0x8f, 0xc1, 0x8b, 0x8e, 0x9f, 0x8e, 0x20,
    0x08, 0x97, 0x14, 0x85, 0x6e, 0xe2, 0x33, 0xb3, 0x90, 0x2a, 0x59, 0x1d, 0x0d, 0x5f, 0x29, 0x25,
];

impl Question<'_> {
    /// The packet of the question: it expires as late as a packet may, and 32 zero bytes fulfill its condition.
    #[tactic(auto, using(crate::proofs::Zeros::digest_of_zeros))]
    pub fn key(&self) -> PrepareKey<'_>
        ensures { key_of result ≡ key_asked (question_at self.now) }
    {
        PrepareKey {
            amount: self.amount,
            expiry: Expiry::new(LAST_EXPIRY).unwrap(),
            condition: &CONDITION,
            destination: &self.destination,
        }
    }
}
