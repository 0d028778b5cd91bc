//! Folders that are in use, and folders that are only read.

use crate::{is_there, new_folder, path_in};
use log_folder::{FolderFault, LogFolder, ReadOnlyFolder};
use std::fs;
use std::os::unix::fs::PermissionsExt;
use std::test::Fail;

// Whether no folder can be written, since another one holds the lock.
fn is_in_use_to_write(rt: &HostRuntime, path: &str) -> bool {
    LogFolder::open(rt, rt.alloc(), path).err() == Some(FolderFault::InUse)
}

// Whether it can't be read either.
fn is_in_use(rt: &HostRuntime, path: &str) -> bool {
    let reader = ReadOnlyFolder::open(rt, rt.alloc(), path).err();
    is_in_use_to_write(rt, path) && reader == Some(FolderFault::InUse)
}

// What may go to another thread: that a log's file may is proved here.
fn sent<T: Send>(value: T) -> T {
    value
}

#[test]
fn one_process_uses_a_folder(rt: HostRuntime) -> Result<(), Fail> {
    let path = new_folder(&rt, "use")?;
    let mut folder = LogFolder::open(&rt, rt.alloc(), path.as_str())?;
    assert!(rt; is_in_use(&rt, path.as_str()));
    let file = sent(folder.create(0, b"", 1)?);
    drop(folder);
    // A file that it gave holds the lock, too.
    assert!(rt; is_in_use(&rt, path.as_str()));
    drop(file);
    let reader = ReadOnlyFolder::open(&rt, rt.alloc(), path.as_str())?;
    let second = ReadOnlyFolder::open(&rt, rt.alloc(), path.as_str())?;
    assert!(rt; reader.is_locked() && second.is_locked());
    assert!(rt; is_in_use_to_write(&rt, path.as_str()));
    drop((reader, second));
    drop(LogFolder::open(&rt, rt.alloc(), path.as_str())?);
    fs::remove_dir_all(&rt, path.as_str())?;
    Ok(())
}

// That the pair 3 is read, and that nothing is changed by it.
fn expect_read(rt: &HostRuntime, path: &str, is_locked: bool) -> Result<bool, Fail> {
    let folder = ReadOnlyFolder::open(rt, rt.alloc(), path)?;
    let texts = folder.read(3)?;
    let is_same = texts.base.as_slice() == b"base".as_slice()
        && texts.log.as_slice() == [0; 10].as_slice();
    Ok(folder.newest() == Some(3) && folder.is_locked() == is_locked && is_same)
}

#[test]
fn a_folder_is_only_read(rt: HostRuntime) -> Result<(), Fail> {
    let path = new_folder(&rt, "read")?;
    let mut folder = LogFolder::open(&rt, rt.alloc(), path.as_str())?;
    drop(folder.create(3, b"base", 10)?);
    drop(folder);
    fs::set_permissions(&rt, path.as_str(), fs::Permissions::from_mode(0o500))?;
    assert!(rt; expect_read(&rt, path.as_str(), true)?);
    fs::set_permissions(&rt, path.as_str(), fs::Permissions::from_mode(0o700))?;
    let lock = path_in(&rt, path.as_str(), "lock")?;
    fs::remove_file(&rt, lock.as_str())?;
    fs::set_permissions(&rt, path.as_str(), fs::Permissions::from_mode(0o500))?;
    assert!(rt; expect_read(&rt, path.as_str(), false)?);
    assert!(rt; !is_there(&rt, path.as_str(), "lock")?);
    fs::set_permissions(&rt, path.as_str(), fs::Permissions::from_mode(0o700))?;
    fs::remove_dir_all(&rt, path.as_str())?;
    Ok(())
}
