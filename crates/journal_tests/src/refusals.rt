//! Folders and files that are refused, and what is said of them.

use crate::{new_folder, path_in, put};
use log_folder::{FolderFault, JournalFile, LogFolder, MAX_SIZE, ReadOnlyFolder};
use std::alloc::Global;
use std::fs;
use std::io::ErrorKind;
use std::os::unix::fs::symlink;
use std::test::Fail;

// Whether a folder can't be used for that reason.
fn refuses(rt: &HostRuntime, path: &str, fault: FolderFault) -> bool {
    LogFolder::open(rt, rt.alloc(), path).err() == Some(fault)
}

// Whether the folder is refused where a symbolic link, or a folder, is in the place of that file. It is gone then.
fn refuses_others(rt: &HostRuntime, path: &str, file: JournalFile) -> Result<bool, Fail> {
    let name = format!(in rt.alloc(); "{path}/{file}")?;
    let fault = FolderFault::NotRegular(file);
    symlink(rt, "other", name.as_str())?;
    let refuses_link = refuses(rt, path, fault);
    fs::remove_file(rt, name.as_str())?;
    fs::create_dir(rt, name.as_str())?;
    let refuses_folder = refuses(rt, path, fault);
    fs::remove_dir(rt, name.as_str())?;
    Ok(refuses_link && refuses_folder)
}

#[test]
fn other_kinds_of_files_are_refused(rt: HostRuntime) -> Result<(), Fail> {
    let path = new_folder(&rt, "kinds")?;
    let log = JournalFile::Log(0);
    put(&rt, path.as_str(), "other", b"text")?;
    assert!(rt; refuses_others(&rt, path.as_str(), JournalFile::Lock)?);
    assert!(rt; refuses_others(&rt, path.as_str(), JournalFile::Base(0))?);
    put(&rt, path.as_str(), "0.base", b"text")?;
    assert!(rt; refuses_others(&rt, path.as_str(), log)?);
    let folder = LogFolder::open(&rt, rt.alloc(), path.as_str())?;
    assert_eq!(rt;
        folder.read(0).err(),
        Some(FolderFault::Unread(log, ErrorKind::NotFound))
    );
    let name = path_in(&rt, path.as_str(), "0.log")?;
    symlink(&rt, "other", name.as_str())?;
    assert_eq!(rt; folder.read(0).err(), Some(FolderFault::NotRegular(log)));
    fs::remove_dir_all(&rt, path.as_str())?;
    Ok(())
}

#[test]
fn other_folders_are_refused(rt: HostRuntime) -> Result<(), Fail> {
    let path = new_folder(&rt, "folders")?;
    put(&rt, path.as_str(), "file", b"")?;
    let none = path_in(&rt, path.as_str(), "none")?;
    let file = path_in(&rt, path.as_str(), "file")?;
    assert!(rt; refuses(&rt, none.as_str(), FolderFault::NoFolder));
    assert!(rt; refuses(&rt, file.as_str(), FolderFault::NotAFolder));
    let reader = ReadOnlyFolder::open(&rt, rt.alloc(), none.as_str());
    assert_eq!(rt; reader.err(), Some(FolderFault::NoFolder));
    fs::remove_dir_all(&rt, path.as_str())?;
    Ok(())
}

#[test]
fn large_files_are_refused(rt: HostRuntime) -> Result<(), Fail> {
    let path = new_folder(&rt, "large")?;
    let mut folder = LogFolder::open(&rt, rt.alloc(), path.as_str())?;
    let size = MAX_SIZE as usize + 1;
    let log = JournalFile::Log(0);
    assert_eq!(rt;
        folder.create(0, b"", size).err(),
        Some(FolderFault::TooLarge(log))
    );
    drop(folder.create(0, b"", 1)?);
    // It has no bytes on the disk, but that length.
    let name = path_in(&rt, path.as_str(), "0.log")?;
    let file = fs::OpenOptions::new().write(true).open(&rt, name.as_str())?;
    file.set_len(MAX_SIZE + 1)?;
    assert_eq!(rt; folder.read(0).err(), Some(FolderFault::TooLarge(log)));
    fs::remove_dir_all(&rt, path.as_str())?;
    Ok(())
}

// That a fault has this text.
fn says(alloc: Global, fault: FolderFault, text: &str) -> Result<bool, Fail> {
    Ok(format!(in alloc; "{fault}")?.as_str() == text)
}

#[test]
fn faults_have_texts(rt: HostRuntime) -> Result<(), Fail> {
    let texts = [
        (
            FolderFault::NotRegular(JournalFile::LogPart(3)),
            "3.log.part is not a regular file: the file itself must be there, and no link to it",
        ),
        (
            FolderFault::Taken(12),
            "12.base and 12.log are there already: a new pair needs a new number",
        ),
        (
            FolderFault::Unread(JournalFile::Lock, ErrorKind::PermissionDenied),
            "cannot read lock: permission denied: this process must be able to read it, from a disk without faults",
        ),
        (
            FolderFault::Unsynced(JournalFile::Folder, ErrorKind::StorageFull),
            "cannot sync the folder: no storage space: the disk must be without faults",
        ),
    ];
    for (fault, text) in texts {
        assert!(rt; says(rt.alloc(), fault, text)?, "{text}");
    }
    Ok(())
}
