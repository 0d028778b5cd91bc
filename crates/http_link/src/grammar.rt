//! The grammars of heads: of requests, and of answers.

ghost use Rattle.std.specs.Prelude.{◌≡◌, length};
ghost use Rattle.http_link.specs.GrammarLaws.{replies_are, requests_are};
ghost use Rattle.http_link.specs.Grammars.{Grammar, IsGrammar, answer_heads, requests};
ghost use Rattle.http_link.specs.Reading.{Decides};

use httparse::Status;
use httparse::spans::{HeaderSpan, RequestSpans, ResponseSpans, parse_request, parse_response};

/// What is known of the head at the front of a text.
#[derive(Drop)]
pub(crate) enum Offered<S> {
    /// It is whole.
    Whole(S),
    /// It may go on.
    Partial,
    /// It is not a head, or goes over the limits.
    Malformed,
}

/// The places of a head's parts in a text that begins with it.
pub(crate) trait HeadSpans: Copy {
    /// Which texts are heads, and what these spans are of one.
    ghost grammar: { Grammar Self };

    /// Parses a text, and writes its field lines to the front of those there are.
    fn parse(text: &[u8], lines: &mut [HeaderSpan]) -> Offered<Self>
        ensures lines { length lines.new ≡ length lines.old }
        ensures decides { Decides grammar text.now (length lines.old) lines.new result };

    /// How many bytes the head has.
    fn len(self) -> usize
        ensures { result ≡ grammar.len self };

    /// What holds of all its heads, and of each that was parsed.
    ghost laws: { IsGrammar grammar };
}

impl HeadSpans for RequestSpans {
    ghost grammar = { requests };

    ghost laws = { requests_are };

    fn parse(text: &[u8], lines: &mut [HeaderSpan]) -> Offered<RequestSpans> {
        match parse_request(text, lines) {
            Ok(Status::Complete(spans)) => Offered::Whole(spans),
            Ok(Status::Partial) => Offered::Partial,
            Err(_) => Offered::Malformed,
        }
    }

    fn len(self) -> usize {
        self.len
    }
}

impl HeadSpans for ResponseSpans {
    ghost grammar = { answer_heads };

    ghost laws = { replies_are };

    fn parse(text: &[u8], lines: &mut [HeaderSpan]) -> Offered<ResponseSpans> {
        match parse_response(text, lines) {
            Ok(Status::Complete(spans)) => Offered::Whole(spans),
            Ok(Status::Partial) => Offered::Partial,
            Err(_) => Offered::Malformed,
        }
    }

    fn len(self) -> usize {
        self.len
    }
}
