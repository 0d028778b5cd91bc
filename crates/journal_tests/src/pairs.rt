//! Pairs of files: made, written by a log, read back, recovered and removed.

ghost use Rattle.std.specs.Prelude.{◌≡◌, replicate, IfOk};

use crate::{is_there, new_folder, path_in, put};
use line_log::{Log, whole_lines};
use log_folder::{FolderFault, LogFolder};
use std::alloc::{AllocError, Global};
use std::fs;
use std::os::unix::fs::{FileExt, PermissionsExt};
use std::test::Fail;

// More than is written at once, and no multiple of it.
const SIZE: usize = 70_000;

fn zeros(alloc: Global, size: usize) -> Result<Vec<u8>, AllocError>
    ensures { IfOk result (λ zeros. zeros.items ≡ replicate size 0) }
{
    Vec::from_elem(alloc, 0, size)
}

// Makes a pair, and begins its log with these lines. It is zeros, so it is not read.
fn begin_new(
    rt: &HostRuntime,
    path: &str,
    number: u64,
    lines: &[u8],
    size: usize,
) -> Result<(), Fail> {
    let mut folder = LogFolder::open(rt, rt.alloc(), path)?;
    let file = folder.create(number, b"base", size)?;
    let zeros = zeros(rt.alloc(), size)?;
    let Ok(mut log) = Log::begin(file, &zeros) else {
        return Err("no log begins".into());
    };
    Ok(log.append(whole_lines(lines))?)
}

// Appends lines to the log of a pair that is read, and returns where its records end then.
fn appended(rt: &HostRuntime, path: &str, number: u64, lines: &[u8]) -> Result<usize, Fail> {
    let folder = LogFolder::open(rt, rt.alloc(), path)?;
    let segment = folder.read(number)?;
    let Ok(mut log) = Log::begin(segment.file, &segment.log) else {
        return Err("no log begins".into());
    };
    log.append(whole_lines(lines))?;
    Ok(log.end())
}

// The bytes of the log of a pair.
fn log_of(rt: &HostRuntime, path: &str, number: u64) -> Result<Vec<u8>, Fail> {
    let folder = LogFolder::open(rt, rt.alloc(), path)?;
    Ok(folder.read(number)?.log)
}

#[test]
fn a_new_pair_is_read_back(rt: HostRuntime) -> Result<(), Fail> {
    let path = new_folder(&rt, "new")?;
    begin_new(&rt, path.as_str(), 0, b"", SIZE)?;
    let folder = LogFolder::open(&rt, rt.alloc(), path.as_str())?;
    assert_eq!(rt; folder.newest(), Some(0));
    let segment = folder.read(0)?;
    assert_eq!(rt; segment.base.as_slice(), b"base".as_slice());
    assert_eq!(rt; segment.log.len(), SIZE);
    assert!(rt; segment.log.iter().all(|byte| *byte == 0));
    for name in ["0.base", "0.log", "lock"] {
        let file = path_in(&rt, path.as_str(), name)?;
        assert_eq!(rt;
            fs::metadata(&rt, file.as_str())?.permissions().mode() & 0o777,
            0o600
        );
    }
    fs::remove_dir_all(&rt, path.as_str())?;
    Ok(())
}

#[test]
fn lines_are_appended_and_found(rt: HostRuntime) -> Result<(), Fail> {
    let path = new_folder(&rt, "lines")?;
    begin_new(&rt, path.as_str(), 7, b"one\n", SIZE)?;
    assert_eq!(rt; appended(&rt, path.as_str(), 7, b"two\n")?, 8);
    assert_eq!(rt; appended(&rt, path.as_str(), 7, b"three\n")?, 14);
    let log = log_of(&rt, path.as_str(), 7)?;
    assert_eq!(rt; whole_lines(&log), b"one\ntwo\nthree\n".as_slice());
    assert_eq!(rt; log.len(), SIZE);
    // A crash tore the line after them.
    let name = path_in(&rt, path.as_str(), "7.log")?;
    let torn = fs::OpenOptions::new().write(true).open(&rt, name.as_str())?;
    torn.write_all_at(b"fo\0r\n", 14)?;
    assert_eq!(rt; appended(&rt, path.as_str(), 7, b"4\n")?, 16);
    let log = log_of(&rt, path.as_str(), 7)?;
    assert_eq!(rt; whole_lines(&log), b"one\ntwo\nthree\n4\n".as_slice());
    assert!(rt; log[16..].iter().all(|byte| *byte == 0));
    fs::remove_dir_all(&rt, path.as_str())?;
    Ok(())
}

#[test]
fn what_was_left_unfinished_is_overwritten(rt: HostRuntime) -> Result<(), Fail> {
    let path = new_folder(&rt, "left")?;
    for name in ["0.log.part", "0.base.part", "0.log"] {
        put(&rt, path.as_str(), name, b"left")?;
    }
    begin_new(&rt, path.as_str(), 0, b"", SIZE)?;
    let log = log_of(&rt, path.as_str(), 0)?;
    assert_eq!(rt; log.len(), SIZE);
    assert!(rt; log.iter().all(|byte| *byte == 0));
    assert!(rt; !is_there(&rt, path.as_str(), "0.log.part")?);
    assert!(rt; !is_there(&rt, path.as_str(), "0.base.part")?);
    fs::remove_dir_all(&rt, path.as_str())?;
    Ok(())
}

#[test]
fn the_newest_pair_is_whole(rt: HostRuntime) -> Result<(), Fail> {
    let path = new_folder(&rt, "newest")?;
    for number in [9, 10, u64::MAX] {
        begin_new(&rt, path.as_str(), number, b"", SIZE)?;
    }
    // A base without its log, a log without its base, and numbers that are written in another way.
    let name = path_in(&rt, path.as_str(), "18446744073709551615.log")?;
    fs::remove_file(&rt, name.as_str())?;
    for name in [
        "12.log", "011.base", "011.log", "+13.base", "+13.log", ".base", "a.base",
    ] {
        put(&rt, path.as_str(), name, b"")?;
    }
    let mut folder = LogFolder::open(&rt, rt.alloc(), path.as_str())?;
    assert_eq!(rt; folder.newest(), Some(10));
    assert_eq!(rt; folder.numbers().len(), 2);
    assert!(rt; matches!(folder.create(9, b"", 1), Err(FolderFault::Taken(9))));
    folder.remove(10)?;
    assert_eq!(rt; folder.newest(), Some(9));
    assert!(rt; !is_there(&rt, path.as_str(), "10.base")?);
    assert!(rt; !is_there(&rt, path.as_str(), "10.log")?);
    folder.remove(9)?;
    assert_eq!(rt; folder.newest(), None);
    fs::remove_dir_all(&rt, path.as_str())?;
    Ok(())
}
