//! The parts of an address between its dots (RFC 0015).

ghost use Rattle.std.specs.Prelude.{◌≡◌, ◌==◌, ◌∷◌, [], MatchOption, if◌then◌else◌};
ghost use Rattle.std.specs.List.{list_all};
ghost use Rattle.std.specs.Iterator.{item_count};
ghost use Rattle.ilp_addr.specs.Address as spec;
ghost use Rattle.ilp_addr.specs.Address.{segments, prefix_segments, begins_with, is_segment_byte};

/// The parts of an address or of a prefix between its dots, the scheme first.
#[derive(Debug, Drop)]
pub struct Segments<'a> {
    rest: Option<&'a [u8]>,
}

impl<'a> Segments<'a> {
    ghost use Rattle.ilp_addr.specs.Segments.{segments_left};

    pub(crate) fn new(bytes: &'a [u8]) -> Segments<'a>
        ensures { segments_left result ≡ segments bytes.now }
    {
        Segments { rest: Some(bytes) }
    }

    pub(crate) fn of_prefix(bytes: &'a [u8]) -> Segments<'a>
        ensures { segments_left result ≡ prefix_segments bytes.now }
    {
        let rest = if bytes.is_empty() { None } else { Some(bytes) };
        Segments { rest }
    }
}

impl<'a> Iterator for Segments<'a> {
    ghost use Rattle.ilp_addr.specs.Segments.{segments_left, GivesFirstSegment};

    type Item = &'a [u8];

    ghost next_gives = { GivesFirstSegment };

    ghost remaining = { item_count segments_left };

    fn next(&mut self) -> Option<&'a [u8]> {
        let bytes = self.rest?;
        let Some((first, rest)) = split_at_dot(bytes) else {
            self.rest = None;
            return Some(bytes);
        };
        self.rest = Some(rest);
        Some(first)
    }
}

/// Whether the segments of the prefix are the first segments of the bytes.
pub(crate) fn segments_begin(bytes: &[u8], prefix: &[u8]) -> bool
    ensures { result ≡ begins_with (prefix_segments prefix.now) (segments bytes.now) }
{
    prefix.is_empty() || begins_at_dot(bytes, prefix)
}

fn begins_at_dot(bytes: &[u8], prefix: &[u8]) -> bool
    ensures { result ≡ begins_with (segments prefix.now) (segments bytes.now) }
{
    let Some(rest) = bytes.strip_prefix(prefix) else {
        return false;
    };
    rest.is_empty() || rest[0] == b'.'
}

// The bytes before the first dot, and the bytes after it.
pub(crate) fn split_at_dot(bytes: &[u8]) -> Option<(&[u8], &[u8])>
    ensures { MatchOption result (segments bytes.now ≡ bytes.now ∷ [])
        (λ r. segments bytes.now ≡ r.0.now ∷ segments r.1.now) }
{
    for (i, byte) in bytes.iter().enumerate() {
        if *byte == b'.' {
            return Some((&bytes[..i], &bytes[i + 1..]));
        }
    }
    None
}

// At the index of a byte that a segment may have is `0`, at that of a dot `1`, and at any other `2`.
static KINDS: [u8; 256] = *b"\
    22222222222222222222222222222222\
    22222222222220120000000000222222\
    20000000000000000000000000022220\
    20000000000000000000000000022202\
    22222222222222222222222222222222\
    22222222222222222222222222222222\
    22222222222222222222222222222222\
    22222222222222222222222222222222";

/// The kind of a dot.
const DOT: u8 = b'1';

/// The kind of a byte that no address has.
const NEITHER: u8 = b'2';

fn kind_of(byte: u8) -> u8
    ensures { result ≡ (if is_segment_byte byte then 48 else (if byte == 46 then 49 else 50)) }
{
    KINDS[byte as usize]
}

// One pass, without a branch for each byte. Bit 0 says that a dot came first or after a dot, bit 1 that some byte is neither a dot
// nor one of a segment.
pub(crate) fn are_segments(bytes: &[u8]) -> bool
    ensures { result ≡ list_all spec.is_segment (segments bytes.now) }
{
    let mut wrong: u8 = 0;
    let mut before = DOT;
    for byte in bytes {
        let kind = kind_of(*byte);
        wrong |= kind & (before | NEITHER);
        before = kind;
    }
    (wrong % 4 == 0) & (before != DOT)
}

#[tactic(auto, unfolding(crate::specs::Address::is_scheme))]
pub(crate) fn is_scheme(text: &[u8]) -> bool
    ensures { result ≡ spec.is_scheme text.now }
{
    text == b"g".as_slice()
        || text == b"private".as_slice()
        || text == b"example".as_slice()
        || text == b"peer".as_slice()
        || text == b"self".as_slice()
        || text == b"test".as_slice()
        || text == b"test1".as_slice()
        || text == b"test2".as_slice()
        || text == b"test3".as_slice()
        || text == b"local".as_slice()
}
