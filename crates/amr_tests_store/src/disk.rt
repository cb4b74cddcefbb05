//! The file.
use amr_disk::{Disk, DiskFault, FileDisk};
use std::alloc::Global;
use std::fs;
use std::os::unix::fs::symlink;
use std::process::Abort;
use std::test::Fail;

// What a disk reads, up to its first sixteen bytes.
fn read_all<D: Disk>(alloc: Global, disk: &mut D) -> Result<Vec<u8>, Fail> {
    let mut bytes = [0u8; 16];
    let n = disk.read_at(0, &mut bytes)?;
    Ok(bytes[..n.min(16)].to_vec(alloc)?)
}

/// A file that is absent has no bytes, and is made by the first write that has some.
fn absent_file(rt: &impl Abort, files: &HostRuntime) -> Result<(), Fail> {
    let mut absent = FileDisk::make(files.clone()?);
    assert_eq!(rt; read_all(files.alloc(), &mut absent)?.len(), 0);
    assert_eq!(rt; absent.sync(), Ok(()));
    assert_eq!(rt; absent.write_at(2, &[]), Ok(()));
    assert!(rt;
        fs::metadata(files, "mesh.store").is_err(),
        "an empty write makes no file"
    );
    assert_eq!(rt; absent.write_at(2, &[7]), Ok(()));
    assert_eq!(rt; absent.sync(), Ok(()));
    Ok(())
}

/// A name that can't be opened is a fault, and no absent file.
fn unopened_file(rt: &impl Abort, files: &HostRuntime) -> Result<(), Fail> {
    fs::create_dir(files, "mesh.store")?;
    let mut unopened = FileDisk::make(files.clone()?);
    assert_eq!(rt; unopened.read_at(0, &mut [0]), Err(DiskFault), "read");
    assert_eq!(rt; unopened.write_at(0, &[1]), Err(DiskFault), "write");
    assert_eq!(rt; unopened.sync(), Err(DiskFault), "sync");
    fs::remove_dir(files, "mesh.store")?;
    Ok(())
}

/// A sync reaches the file: a device behind its name takes each write and can't be synced.
fn unsynced_file(rt: &impl Abort, files: &HostRuntime) -> Result<(), Fail> {
    symlink(files, "/dev/null", "mesh.store")?;
    let mut unsynced = FileDisk::make(files.clone()?);
    assert_eq!(rt; unsynced.write_at(0, &[1]), Ok(()));
    assert_eq!(rt; unsynced.sync(), Err(DiskFault));
    fs::remove_file(files, "mesh.store")?;
    Ok(())
}

#[test]
fn file_keeps_what_was_written(rt: HostRuntime) -> Result<(), Fail> {
    let _ = fs::remove_file(&rt, "mesh.store");
    let _ = fs::remove_dir(&rt, "mesh.store");
    absent_file(&rt, &rt)?;
    let mut again = FileDisk::make(rt.clone()?);
    let bytes = read_all(rt.alloc(), &mut again)?;
    assert_eq!(rt; bytes.as_slice(), [0, 0, 7].as_slice());
    fs::remove_file(&rt, "mesh.store")?;
    unopened_file(&rt, &rt)?;
    unsynced_file(&rt, &rt)
}
