//! The whole lines of a file that a crash may have left.

ghost use Rattle.std.specs.Prelude.{◌≡◌, ◌≤◌, ◌↔◌, IsTrue, length, replicate, take};
ghost use Rattle.line_log.specs.Log.{end_of_lines, lines, recovered, IsLines};

/// The beginning of the bytes up to the end of the last whole line before the first byte 0.
///
/// This is what a log in a file that a crash left has: what is after its last whole line is not a record.
pub fn whole_lines(bytes: &[u8]) -> &[u8]
    ensures lines { result.now ≡ lines (recovered bytes.now) }
    ensures front { result.now ≡ take (length result.now) bytes.now }
    ensures whole { IsLines result.now }
    ensures records { recovered result.now ≡ recovered bytes.now }
{
    &bytes[..end_of_lines(bytes)]
}

// The end of the last whole line.
pub(crate) fn end_of_lines(bytes: &[u8]) -> usize
    ensures end { result ≡ end_of_lines bytes.now }
    ensures within { result ≤ length bytes.now }
{
    let mut at = 0;
    let mut end = 0;
    let mut rest = bytes;
    while let [byte, after @ ..] = rest {
        if *byte == 0 {
            return end;
        }
        at += 1;
        if *byte == b'\n' {
            end = at;
        }
        rest = after;
    }
    end
}

// Whether each byte is 0.
pub(crate) fn is_blank(bytes: &[u8]) -> bool
    ensures { IsTrue result ↔ (bytes.now ≡ replicate (length bytes.now) 0) }
{
    bytes.iter().all(|byte| *byte == 0)
}
