//! Questions on the field lines of a head.

ghost use Rattle.std.specs.Prelude.{◌≡◌, ◌++◌, ◌∷◌, [], List, min, codes};
ghost use Rattle.std.specs.List.{list_all, list_any};
ghost use Rattle.std.specs.Str.{str_eq_ignore_ascii_case};
ghost use Rattle.httparse.specs.Grammar.{is_ows, skip_ows};
ghost use Rattle.httparse.specs.Spans.{span_bytes};
ghost use Rattle.common_types.specs.Numbers.{is_between};
ghost use Rattle.http_link.specs.Fields.{Line, values_of, occurrence, is_element, has_element};
ghost use Rattle.common_types.specs.Numerals.{value_of};
ghost use Rattle.http_link.specs.Fields.{is_chunked, is_length, skip_spaces};
ghost use Rattle.http_link.specs.Lines.{AreFieldsOf, lines_at, occurrence_at};

use httparse::spans::{HeaderSpan, Span};

/// How often a name occurs among the lines of a head.
#[derive(Clone, Copy)]
pub(crate) enum FieldValue<'b> {
    /// No line has it.
    Missing,
    /// One line has it, with this value.
    Once(&'b [u8]),
    /// Two lines or more have it.
    Repeated,
}

/// What the field lines of a request say that decides how it is served.
#[derive(Clone, Copy)]
pub(crate) struct KnownFields<'b> {
    /// How its body is coded. (RFC 9112, 6.1)
    pub(crate) coding: FieldValue<'b>,
    /// How long its body is. (RFC 9110, 8.6)
    pub(crate) length: FieldValue<'b>,
    /// What shows who sends it. (RFC 9110, 11.6.2)
    pub(crate) credentials: FieldValue<'b>,
    /// Whether a line asks for `100 Continue`. (RFC 9110, 10.1.1)
    pub(crate) waits: bool,
    /// Whether a line asks that the connection be closed. (RFC 9112, 9.6)
    pub(crate) closes: bool,
}

/// The field lines of a head, which lie in its text.
#[derive(Clone, Copy)]
pub(crate) struct Lines<'b> {
    pub(crate) text: &'b [u8],
    pub(crate) spans: &'b [HeaderSpan],
}

// The bytes that a span covers, as far as the text has them.
fn bytes_at<'b>(text: &'b [u8], span: Span) -> &'b [u8]
    ensures { result.now ≡ span_bytes text.now span }
{
    let end = span.end.min(text.len());
    if span.start < end {
        &text[span.start..end]
    } else {
        &[]
    }
}

pub(crate) fn is_same(a: &[u8], b: &[u8]) -> bool
    ensures { result ≡ str_eq_ignore_ascii_case a.now b.now }
{
    a == b || a.eq_ignore_ascii_case(b)
}

impl<'b> FieldValue<'b> {
    // How often a name occurs, once one more line has come.
    fn counted(self, wanted: &[u8], name: &[u8], value: &'b [u8]) -> FieldValue<'b>
        ensures { (lines : List Line) → occurrence_at self.entry ≡ occurrence wanted.now lines
            → occurrence_at result ≡ occurrence wanted.now (lines ++ (name.now, value.now) ∷ []) }
    {
        if !is_same(name, wanted) {
            return self;
        }
        match self {
            FieldValue::Missing => FieldValue::Once(value),
            _ => FieldValue::Repeated,
        }
    }
}

impl<'b> KnownFields<'b> {
    // Takes in one more line.
    fn take_in(&mut self, name: &[u8], value: &'b [u8])
        ensures { (lines : List Line) → AreFieldsOf self.old lines → AreFieldsOf self.new (lines ++ (name.now, value.now) ∷ []) }
    {
        self.coding = self.coding.counted(b"Transfer-Encoding", name, value);
        self.length = self.length.counted(b"Content-Length", name, value);
        self.credentials = self.credentials.counted(b"Authorization", name, value);
        self.waits |= is_same(name, b"Expect") && is_same(value, b"100-continue");
        self.closes |= is_same(name, b"Connection") && has_element(b"close", value);
    }
}

impl<'b> Lines<'b> {
    /// How often a name occurs among the lines. (RFC 9110, 5.1)
    pub(crate) fn find(&self, name: &[u8]) -> FieldValue<'b>
        ensures { occurrence_at result ≡ occurrence name.now (lines_at self.now) }
    {
        let mut found = FieldValue::Missing;
        for line in self.spans {
            let value = bytes_at(self.text, line.value);
            found = found.counted(name, bytes_at(self.text, line.name), value);
        }
        found
    }

    /// What they say that decides how a request is served.
    pub(crate) fn known_fields(&self) -> KnownFields<'b>
        ensures { AreFieldsOf result (lines_at self.now) }
    {
        let mut fields = KnownFields {
            coding: FieldValue::Missing,
            length: FieldValue::Missing,
            credentials: FieldValue::Missing,
            waits: false,
            closes: false,
        };
        for line in self.spans {
            let name = bytes_at(self.text, line.name);
            fields.take_in(name, bytes_at(self.text, line.value));
        }
        fields
    }

    /// Whether a line of a name has that value, in any case.
    pub(crate) fn says(&self, name: &[u8], value: &[u8]) -> bool
        ensures { result
            ≡ list_any (λ v. str_eq_ignore_ascii_case v value.now) (values_of name.now (lines_at self.now)) }
    {
        let mut said = false;
        for line in self.spans {
            if is_same(bytes_at(self.text, line.name), name) {
                said = said || is_same(bytes_at(self.text, line.value), value);
            }
        }
        said
    }
}

fn has_element(word: &[u8], value: &[u8]) -> bool
    ensures { result ≡ has_element word.now value.now }
{
    value
        .split(|b| *b == b',')
        .any(|part| is_element(word, part))
}

fn is_element(word: &[u8], part: &[u8]) -> bool
    ensures { result ≡ is_element word.now part.now }
{
    let rest = without_white_space(part);
    let (front, behind) = rest.split_at(word.len().min(rest.len()));
    is_same(front, word) && is_white_space(behind)
}

fn without_white_space(bytes: &[u8]) -> &[u8]
    ensures { result.now ≡ skip_ows bytes.now }
{
    let mut rest = bytes;
    while let [b' ' | b'\t', behind @ ..] = rest {
        rest = behind;
    }
    rest
}

fn is_white_space(bytes: &[u8]) -> bool
    ensures { result ≡ list_all is_ows bytes.now }
{
    bytes.iter().all(|b| *b == b' ' || *b == b'\t')
}

/// The bytes after the leading spaces.
pub(crate) fn without_spaces(bytes: &[u8]) -> &[u8]
    ensures { result.now ≡ skip_spaces bytes.now }
{
    let mut rest = bytes;
    while let [b' ', behind @ ..] = rest {
        rest = behind;
    }
    rest
}

fn are_digits(text: &[u8]) -> bool
    ensures { result ≡ list_all (is_between 48 57) text.now }
{
    text.iter().all(|b| 48 <= *b && *b <= 57)
}

/// Whether the text is a length, of 1 to 10 digits. (RFC 9110, 8.6)
pub(crate) fn is_length(text: &[u8]) -> bool
    ensures { result ≡ is_length text.now }
{
    1 <= text.len() && text.len() <= 10 && are_digits(text)
}

/// Whether a coding is `chunked`. (RFC 9112, 7.1)
pub(crate) fn is_chunked(coding: &[u8]) -> bool
    ensures { result ≡ is_chunked coding.now }
{
    is_same(coding, b"chunked")
}

/// The value of a length, or the bound if it is at least that.
pub(crate) fn value_up_to(digits: &[u8], bound: u64) -> u64
    ensures { result ≡ min (value_of digits.now) bound }
{
    let mut value: u64 = 0;
    for digit in digits {
        let more = value as u128 * 10 + digit.saturating_sub(b'0') as u128;
        value = more.min(bound as u128) as u64;
    }
    value
}
