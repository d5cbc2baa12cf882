//! What files in memory and those of the file system answer in earnest.

use dsu_io::FileFault::{Failed, TooLong};
use dsu_io::{FileFault, Files, MemoryFiles, StdFiles};
use std::alloc::{AllocError, Global};
use std::fs;

/// A read: a name, a limit, and the answer.
type Read = (&'static str, usize, Result<(), FileFault>);

/// Whether a read into a buffer ends as listed, and leaves some bytes there where it doesn't fail.
fn ends_as_listed<F: Files>(
    files: &mut F,
    buffer: &mut Vec<u8>,
    read: &Read,
    bytes: Option<&[u8]>,
) -> bool {
    let (name, limit, want) = *read;
    let answer = files.read(name, buffer, limit);
    answer == want && (answer == Err(Failed) || bytes == Some(buffer.as_slice()))
}

static HELD: [(&str, &str); 4] = [
    ("first", "four"),
    ("second", "2"),
    ("first", "later"),
    ("empty", ""),
];

/// A folder of four files in memory, of which the fifth read fails.
fn folder(alloc: Global) -> Result<MemoryFiles, AllocError> {
    let mut held = Vec::new(alloc);
    for (name, content) in &HELD {
        let name = String::from_str(alloc, name)?;
        held.push((name, content.as_bytes().to_vec(alloc)?))?;
    }
    Ok(MemoryFiles::of(alloc, held, [5u64].to_vec(alloc)?))
}

/// Reads in a row from that folder into one buffer, the bytes that are there then, and the faults so far.
static READS: [(Read, &str, u64); 9] = [
    (("first", 9, Ok(())), "four", 0),
    (("first", 4, Ok(())), "four", 0),
    (("first", 3, Err(TooLong)), "four", 0),
    (("first", 1, Err(TooLong)), "fo", 0),
    (("first", 9, Err(Failed)), "", 1),
    (("empty", 0, Ok(())), "", 1),
    (("second", 9, Ok(())), "2", 1),
    (("fir", 9, Err(Failed)), "", 2),
    (("first", 5, Ok(())), "four", 2),
];

#[test]
fn memory_files_are_read_by_name(rt: HostRuntime) {
    let mut files = folder(rt.alloc()).expect(&rt, "memory");
    let mut buffer = b"left over".to_vec(rt.alloc()).expect(&rt, "memory");
    for (read, bytes, faults) in &READS {
        let ends = ends_as_listed(&mut files, &mut buffer, read, Some(bytes.as_bytes()));
        assert!(rt; ends && files.faults() == *faults, "{} {}", read.0, read.1);
    }
}

const FOLDER: &str = "dsu_io_test_folder";

const FILE: &str = "dsu_io_test_folder/file";

const MISSING: &str = "dsu_io_test_folder/missing";

/// Reads in a row from that folder, how many of the file's bytes are in the buffer then, and the faults so far.
static PATHS: [(Read, usize, u64); 5] = [
    ((FILE, 40_000, Ok(())), 40_000, 0),
    ((FILE, 39_999, Err(TooLong)), 40_000, 0),
    ((FILE, 0, Err(TooLong)), 1, 0),
    ((MISSING, 9, Err(Failed)), 0, 1),
    ((FOLDER, 9, Err(Failed)), 0, 2),
];

fn long_content(alloc: Global) -> Result<Vec<u8>, AllocError> {
    let mut content = Vec::new(alloc);
    for place in 0..40_000u32 {
        content.push((place % 251) as u8)?;
    }
    Ok(content)
}

#[test]
fn std_files_are_read_whole(rt: HostRuntime) {
    let content = long_content(rt.alloc()).expect(&rt, "memory");
    let mut buffer = b"left over".to_vec(rt.alloc()).expect(&rt, "memory");
    let _ = fs::remove_dir_all(&rt, FOLDER);
    assert!(rt; fs::create_dir(&rt, FOLDER).is_ok());
    assert!(rt; fs::write(&rt, FILE, content.as_slice()).is_ok());
    let mut files = StdFiles::new(&rt, rt.alloc());
    for (read, count, faults) in &PATHS {
        let ends = ends_as_listed(&mut files, &mut buffer, read, content.get(..*count));
        assert!(rt; ends && files.faults() == *faults, "{} {}", read.0, read.1);
    }
    assert!(rt; fs::remove_dir_all(&rt, FOLDER).is_ok());
}
