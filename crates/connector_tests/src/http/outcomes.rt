//! Requests that are served and packets that are posted over memory, and their outcomes.

use super::devices::{Pieces, Taken};
use super::served::Desk;
use http_link::{Inbox, LinkFault, PostFault, RequestKind, Served, post, serve_next, serve_one};
use ilp_addr::Target;
use std::alloc::Global;
use std::test::Fail;

/// What came of a request: the result, how often the service was asked, whether that was the question that it waits
/// for, and the text.
#[derive(Drop)]
pub(crate) struct Outcome {
    pub(crate) served: Result<Served, LinkFault>,
    pub(crate) questions: u32,
    pub(crate) is_right: bool,
    pub(crate) text: Vec<u8>,
}

impl Outcome {
    /// Whether the service was asked the question that it waits for, and that text was written.
    pub(crate) fn is_answered(&self, served: Served, text: &[u8]) -> bool {
        self.is_right && self.is_asked(served, text)
    }

    /// Whether the service was asked once, whatever it was, and that text was written.
    pub(crate) fn is_asked(&self, served: Served, text: &[u8]) -> bool {
        self.served == Ok(served) && self.questions == 1 && self.text.as_slice() == text
    }

    /// Whether the service was not asked, and that text was written.
    pub(crate) fn is_unasked(&self, served: Result<Served, LinkFault>, text: &[u8]) -> bool {
        self.served == served && self.questions == 0 && self.text.as_slice() == text
    }
}

/// Serves one request.
pub(crate) fn serve(
    alloc: Global,
    reader: &mut Pieces,
    mut writer: Taken,
    mut desk: Desk,
) -> Result<Outcome, Fail> {
    let mut room = vec![in alloc; 0; 34_000]?;
    let served = serve_one(reader, &mut writer, &mut desk, &mut room);
    Ok(Outcome {
        served,
        questions: desk.questions,
        is_right: desk.was_asked(),
        text: writer.bytes,
    })
}

/// Serves one request to a desk that waits for a packet for acme.
pub(crate) fn serve_packet(alloc: Global, reader: &mut Pieces) -> Result<Outcome, Fail> {
    serve(
        alloc,
        reader,
        Taken::whole(alloc),
        Desk::new(RequestKind::Ilp, 0),
    )
}

/// Serves the next request of a connection to a desk that waits for a packet for acme.
pub(crate) fn serve_next_packet(alloc: Global, reader: &mut Pieces, inbox: &mut Inbox) -> Outcome {
    let mut writer = Taken::whole(alloc);
    let mut desk = Desk::new(RequestKind::Ilp, 0);
    let served = serve_next(reader, &mut writer, &mut desk, inbox);
    Outcome {
        served,
        questions: desk.questions,
        is_right: desk.was_asked(),
        text: writer.bytes,
    }
}

/// What came of a frame that was posted: the result, the room for the answer, and the text.
#[derive(Drop)]
pub(crate) struct Posted {
    pub(crate) found: Result<usize, PostFault>,
    pub(crate) room: Vec<u8>,
    pub(crate) text: Vec<u8>,
}

/// Posts a frame to bob.
pub(crate) fn post_to_bob(
    alloc: Global,
    reader: &mut Pieces,
    mut writer: Taken,
    frame: &[u8],
) -> Result<Posted, Fail> {
    let bob = Target::new(b"http://127.0.0.1:7802/ilp", b"out-bob").ok_or("a target")?;
    let mut room = vec![in alloc; 0; 34_000]?;
    let found = post(reader, &mut writer, &bob, frame, &mut room);
    Ok(Posted {
        found,
        room,
        text: writer.bytes,
    })
}
