//! A real file as a disk.
use file_disk::FileDisk;
use rp_base::{Disk, Failed};
use std::fs;
use std::test::Fail;

const FOLDER: &str = "file_disk_tests_folder";

const PATH: &str = "file_disk_tests_folder/journal";

// Writes 1, 2, 7, 8 in two pieces.
fn write_four(disk: &mut FileDisk<'_, HostRuntime>) -> Result<(), Failed> {
    disk.write_at(0, &[1, 2, 3])?;
    disk.write_at(2, &[7, 8])?;
    disk.sync()
}

// The three bytes after the first, and the length.
fn behind_first(disk: &mut FileDisk<'_, HostRuntime>) -> Result<([u8; 3], u64), Failed> {
    let mut into = [0; 3];
    disk.read_at(1, &mut into)?;
    let length = disk.len()?;
    Ok((into, length))
}

#[test]
fn a_file_is_written_closed_and_read_again(rt: HostRuntime) -> Result<(), Fail> {
    let _ = fs::remove_dir_all(&rt, FOLDER);
    fs::create_dir(&rt, FOLDER)?;
    let mut disk = FileDisk::new(&rt, PATH);
    assert!(rt; !fs::exists(&rt, PATH)? && disk.len() == Ok(0));
    assert!(rt; write_four(&mut disk) == Ok(()));
    drop(disk);
    let mut again = FileDisk::new(&rt, PATH);
    assert!(rt; behind_first(&mut again) == Ok(([2, 7, 8], 4)));
    assert!(rt; again.write_at(0, &[9]) == Ok(()));
    drop(again);
    assert!(rt; fs::read(&rt, PATH)?.as_slice() == [9, 2, 7, 8].as_slice());
    fs::remove_dir_all(&rt, FOLDER)?;
    Ok(())
}

#[test]
fn a_read_past_the_end_fails(rt: HostRuntime) -> Result<(), Fail> {
    let path = "file_disk_tests_short";
    fs::write(&rt, path, [1u8, 2, 3].as_slice())?;
    let mut disk = FileDisk::new(&rt, path);
    let mut into = [0; 2];
    assert!(rt; disk.read_at(2, &mut into) == Err(Failed));
    assert!(rt; disk.read_at(1, &mut into) == Ok(()));
    assert!(rt; into == [2, 3]);
    assert!(rt; disk.read_at(1 << 63, &mut into) == Err(Failed));
    fs::remove_file(&rt, path)?;
    Ok(())
}

#[test]
fn what_is_no_file_is_not_opened(rt: HostRuntime) -> Result<(), Fail> {
    let mut into = [0; 1];
    for path in ["", ".", "/", "/dev/null", "file_disk_tests_absent/journal"] {
        let mut disk = FileDisk::new(&rt, path);
        assert!(rt; disk.len() == Err(Failed));
        assert!(rt; disk.read_at(0, &mut into) == Err(Failed));
        assert!(rt; disk.write_at(0, &[1]) == Err(Failed));
        assert!(rt; disk.sync() == Err(Failed));
    }
    Ok(())
}
