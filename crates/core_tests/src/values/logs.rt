//! Logs over a file in memory that fails, and over what a crash may leave of it.

use line_log::{Batch, BatchFault, Log, LogError, Memory, next_sum, whole_lines};
use std::alloc::{AllocError, Global};
use std::test::Fail;

// What a crash may leave of the lines below, after those that were acknowledged.
const FRONTS: [&[u8]; 4] = [b"one\n", b"one\na\n", b"one\na\nbc\n", b"one\na\nbc\nd\n"];

const OLD: [u8; 16] = *b"one\n\0\0\0\0\0\0\0\0\0\0\0\0";

const NEW: [u8; 16] = *b"one\na\nbc\nd\n\0\0\0\0\0";

// The second of three records that were being written lost its line feed.
const TORN: [u8; 16] = *b"one\ntwo\0three\n\0\0";

// Pseudo-random choices.
#[derive(Drop)]
struct Choices {
    state: u64,
}

impl Choices {
    // From 0 to 15.
    fn next(&mut self) -> u64 {
        self.state ^= self.state << 13;
        self.state ^= self.state >> 7;
        self.state ^= self.state << 17;
        self.state >> 60
    }

    // Each byte is the new one if the choice is below that, and the old one otherwise.
    fn mixture(
        &mut self,
        alloc: Global,
        old: &[u8],
        new: &[u8],
        below: u64,
    ) -> Result<Vec<u8>, AllocError> {
        let mut mixture = Vec::new(alloc);
        for (old, new) in old.iter().zip(new) {
            mixture.push(if self.next() < below { *new } else { *old })?;
        }
        Ok(mixture)
    }
}

fn batch(alloc: Global, records: &[&[u8]]) -> Result<Batch, BatchFault> {
    let mut batch = Batch::new(alloc);
    for record in records {
        batch.push(record)?;
    }
    Ok(batch)
}

// What became of a log in a file of which so many calls succeed, and the file.
fn begun(
    alloc: Global,
    bytes: &[u8],
    calls: usize,
) -> Result<(Result<Log<Memory>, LogError>, Vec<u8>), AllocError> {
    let file = Memory::new(alloc, bytes.to_vec(alloc)?, calls);
    match Log::begin(file, bytes) {
        Ok(log) => {
            let left = log.file().bytes().to_vec(alloc)?;
            Ok((Ok(log), left))
        }
        Err(not) => Ok((Err(not.error), not.file.bytes().to_vec(alloc)?)),
    }
}

// The place of these lines among the fronts, and 4 if they are none of them.
fn place_of(lines: &[u8]) -> usize {
    for place in 0..4 {
        if FRONTS[place] == lines {
            return place;
        }
    }
    4
}

// Whether a log begins with these lines in what a crash left, with zeros after them. Begun once more, it asks nothing
// of the file.
fn begins_with(alloc: Global, left: &[u8], lines: &[u8]) -> Result<bool, Fail> {
    let mut wanted = lines.to_vec(alloc)?;
    wanted.resize(left.len(), 0)?;
    let (log, bytes) = begun(alloc, left, 2)?;
    let (again, same) = begun(alloc, &bytes, 0)?;
    let ends = log?.end() == lines.len() && again?.end() == lines.len();
    Ok(whole_lines(left) == lines && ends && bytes == wanted && same == wanted)
}

#[test]
fn each_cut_leaves_the_first_lines(rt: HostRuntime) -> Result<(), Fail> {
    // By how many bytes were written, which of the fronts is left.
    const LEFT: [usize; 17] = [0, 0, 0, 0, 0, 0, 1, 1, 1, 2, 2, 3, 3, 3, 3, 3, 3];
    let alloc = rt.alloc();
    for cut in 0..17 {
        let mut left = NEW[..cut].to_vec(alloc)?;
        left.extend_from_slice(&OLD[cut..])?;
        assert!(rt; begins_with(alloc, &left, FRONTS[LEFT[cut]])?);
    }
    Ok(())
}

#[test]
fn each_mixture_leaves_the_first_lines(rt: HostRuntime) -> Result<(), Fail> {
    let alloc = rt.alloc();
    let mut choices = Choices {
        state: 0x9e37_79b9_7f4a_7c15,
    };
    let mut left = [false; 4];
    for below in 8..17 {
        for _ in 0..500 {
            let mixture = choices.mixture(alloc, &OLD, &NEW, below)?;
            let place = place_of(whole_lines(&mixture));
            assert!(rt; place < left.len());
            assert!(rt; begins_with(alloc, &mixture, FRONTS[place])?);
            left[place] = true;
        }
    }
    // Each of the fronts has been left.
    assert_eq!(rt; left, [true; 4]);
    Ok(())
}

#[test]
fn recovery_may_crash_too(rt: HostRuntime) -> Result<(), Fail> {
    let alloc = rt.alloc();
    assert!(rt; begins_with(alloc, &TORN, FRONTS[0])?);
    let mut choices = Choices { state: 1 };
    for below in 0..17 {
        for _ in 0..100 {
            let mixture = choices.mixture(alloc, &TORN, &OLD, below)?;
            assert!(rt; begins_with(alloc, &mixture, FRONTS[0])?);
        }
    }
    Ok(())
}

#[test]
fn lines_are_appended(rt: HostRuntime) -> Result<(), Fail> {
    let alloc = rt.alloc();
    let mut log = begun(alloc, &OLD, 2)?.0?;
    log.append(b"a\nbc\nd\n")?;
    assert_eq!(rt; log.file().bytes(), NEW.as_slice());
    assert_eq!(rt; (log.end(), log.size(), log.room()), (11, 16, 4));
    // Five bytes and a zero have no room.
    assert_eq!(rt; log.append(b"four\n"), Err(LogError::Full));
    assert_eq!(rt; log.file().bytes(), NEW.as_slice());
    Ok(())
}

// What became of batches that were appended to a log in a file of which so many calls succeed, and the file.
fn appended(
    alloc: Global,
    bytes: &[u8],
    calls: usize,
    batches: &[&[&[u8]]],
) -> Result<(Result<(), LogError>, Vec<u8>), Fail> {
    let mut log = begun(alloc, bytes, calls)?.0?;
    let mut all = Vec::new(alloc);
    for records in batches {
        all.push(batch(alloc, records)?)?;
    }
    let outcome = log.append_all(&all);
    Ok((outcome, log.file().bytes().to_vec(alloc)?))
}

#[test]
fn batches_are_appended_in_turn(rt: HostRuntime) -> Result<(), Fail> {
    let alloc = rt.alloc();
    let batches: &[&[&[u8]]] = &[&[b"a", b"bc"], &[b"d"]];
    let (outcome, left) = appended(alloc, &OLD, 4, batches)?;
    assert_eq!(rt; outcome, Ok(()));
    assert_eq!(rt; left.as_slice(), NEW.as_slice());
    // The second batch has no room in 11 bytes.
    let (outcome, left) = appended(alloc, b"one\n\0\0\0\0\0\0\0", 4, batches)?;
    assert_eq!(rt; outcome, Err(LogError::Full));
    assert_eq!(rt; left.as_slice(), b"one\na\nbc\n\0\0".as_slice());
    // Its write fails, and its sync.
    for (calls, place) in [(2, 2), (3, 3)] {
        let (outcome, left) = appended(alloc, &OLD, calls, batches)?;
        assert_eq!(rt; outcome, Err(LogError::Failed));
        assert_eq!(rt; place_of(whole_lines(&left)), place);
    }
    Ok(())
}

#[test]
fn a_failed_call_is_the_last_one(rt: HostRuntime) -> Result<(), Fail> {
    // The write fails, and the sync.
    for calls in 0..2 {
        let mut log = begun(rt.alloc(), &OLD, calls)?.0?;
        assert_eq!(rt; log.append(b"a\n"), Err(LogError::Failed));
        assert!(rt; log.is_broken());
        assert_eq!(rt; log.append(b"a\n"), Err(LogError::Broken));
        assert_eq!(rt; log.append_all(&[]), Err(LogError::Broken));
    }
    Ok(())
}

#[test]
fn a_log_may_not_begin(rt: HostRuntime) -> Result<(), Fail> {
    let alloc = rt.alloc();
    for calls in 0..2 {
        assert_eq!(rt; begun(alloc, &TORN, calls)?.0.err(), Some(LogError::Failed));
    }
    // No byte is left for a zero.
    assert_eq!(rt; begun(alloc, b"one\n", 2)?.0.err(), Some(LogError::Full));
    Ok(())
}

#[test]
fn a_record_has_no_zero_and_no_line_feed(rt: HostRuntime) -> Result<(), Fail> {
    let mut batch = Batch::new(rt.alloc());
    assert_eq!(rt; batch.push(b"a\0"), Err(BatchFault::Byte));
    assert_eq!(rt; batch.push(b"a\n"), Err(BatchFault::Byte));
    batch.push(b"")?;
    batch.push(b"\x01\xff\r")?;
    assert_eq!(rt; batch.as_bytes(), b"\n\x01\xff\r\n".as_slice());
    Ok(())
}

#[test]
fn a_sum_covers_all_before_it(rt: HostRuntime) {
    // The SHA-256 of 32 zeros and "one\n", and that of this and "a\nbc\n".
    const SUM: [u8; 32] = [
        0xcf, 0x6b, 0x5e, 0xbb, 0x38, 0x23, 0xd8, 0x8a, 0xdc, 0x0b, 0x15, 0xf6, 0x91, 0x8b, 0x19,
        0x8b, 0x42, 0x1c, 0x8e, 0x82, 0x57, 0x50, 0xc2, 0x0c, 0xcd, 0xcf, 0x5c, 0x41, 0xa2, 0x88,
        0xc4, 0x75,
    ];
    let sum = next_sum(&next_sum(&[0; 32], b"one\n"), b"a\nbc\n");
    assert_eq!(rt; sum, SUM);
}

#[test]
fn errors_have_texts(rt: HostRuntime) -> Result<(), Fail> {
    let alloc = rt.alloc();
    let text = format!(in alloc; "{}; {}", LogError::Full, BatchFault::Byte)?;
    assert_eq!(rt;
        text.as_str(),
        "the log has no room for the records; a record has no byte 0 and no line feed"
    );
    Ok(())
}
