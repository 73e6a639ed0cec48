// Files that are read: in memory, of the system, and one that breaks.
use outer_world::{DiskFiles, FileFault, Files, MemFile, MemFiles, read_within};
use std::alloc::Global;
use std::io::{self, ErrorKind, Read};
use std::process::Abort;
use std::{fs, rt};

fn file(rt: &impl Abort, alloc: Global, name: &str, bytes: &[u8]) -> MemFile {
    let name = String::from_str(alloc, name).expect(rt, "no memory");
    let bytes = bytes.to_vec(alloc).expect(rt, "no memory");
    MemFile::new(name, bytes)
}

// Files named a, a and b, whose calls of these numbers fail.
fn three_files(rt: &impl Abort, alloc: Global, failing: &[u32]) -> MemFiles {
    let held: [(&str, &[u8]); 3] = [("a", b"abc"), ("a", b"other"), ("b", b"")];
    let mut files = Vec::new(alloc);
    for (name, bytes) in held {
        assert!(rt; files.push(file(rt, alloc, name, bytes)).is_ok());
    }
    MemFiles::new(files, failing.to_vec(alloc).expect(rt, "no memory"))
}

// A file of this name, read up to this limit, gives this answer and leaves these bytes.
fn assert_read(
    rt: &impl Abort,
    alloc: Global,
    files: &mut MemFiles,
    (name, limit): (&str, u32),
    (answer, bytes): (Result<(), FileFault>, &[u8]),
) {
    let mut into = Vec::new(alloc);
    let got = files.read_all(alloc, name, limit, &mut into);
    assert_eq!(rt; got, answer, "at {name} {limit}");
    assert_eq!(rt; into.as_slice(), bytes, "at {name} {limit}");
}

// The first file of a name is read whole, up to the limit, and a name without a file fails.
#[test]
fn files_in_memory(rt: HostRuntime) {
    let mut files = three_files(&rt, rt.alloc(), &[]);
    let cases: [(&str, u32, Result<(), FileFault>, &[u8]); 5] = [
        ("a", 3, Ok(()), b"abc"),
        ("a", 2, Err(FileFault::TooLong), b""),
        ("b", 0, Ok(()), b""),
        ("c", 9, Err(FileFault::Failed), b""),
        ("a", 9, Ok(()), b"abc"),
    ];
    for (name, limit, answer, bytes) in cases {
        assert_read(&rt, rt.alloc(), &mut files, (name, limit), (answer, bytes));
    }
}

// The readings whose numbers are listed fail, and the others don't.
#[test]
fn listed_readings_fail(rt: HostRuntime) {
    let mut files = three_files(&rt, rt.alloc(), &[3, 1]);
    let calls: [(Result<(), FileFault>, &[u8]); 4] = [
        (Err(FileFault::Failed), b""),
        (Ok(()), b"abc"),
        (Err(FileFault::Failed), b""),
        (Ok(()), b"abc"),
    ];
    for end in calls {
        assert_read(&rt, rt.alloc(), &mut files, ("a", 9), end);
    }
}

// A file of the system, read up to this limit, gives this answer, and 5,000 times the byte 7 where it is read whole.
fn assert_read_from_disk<R: rt::Files>(
    rt: &impl Abort,
    alloc: Global,
    files: &mut DiskFiles<R>,
    (name, limit): (&str, u32),
    answer: Result<(), FileFault>,
) {
    let mut into = Vec::new(alloc);
    let got = files.read_all(alloc, name, limit, &mut into);
    assert_eq!(rt; got, answer, "at {limit}");
    if got.is_ok() {
        assert_eq!(rt; into.as_slice(), [7u8; 5000].as_slice());
    }
}

// A file of more than one piece is read whole, up to the limit, and fails once it is gone.
#[test]
fn files_of_the_system(rt: HostRuntime) {
    let name = "memory_tests_file.txt";
    assert!(rt; fs::write(&rt, name, [7u8; 5000].as_slice()).is_ok());
    let mut files = DiskFiles::new(&rt);
    for (limit, answer) in [
        (5000, Ok(())),
        (4999, Err(FileFault::TooLong)),
        (0, Err(FileFault::TooLong)),
        (1 << 20, Ok(())),
    ] {
        assert_read_from_disk(&rt, rt.alloc(), &mut files, (name, limit), answer);
    }
    assert!(rt; fs::remove_file(&rt, name).is_ok());
    let gone = Err(FileFault::Failed);
    assert_read_from_disk(&rt, rt.alloc(), &mut files, (name, 9), gone);
}

// Gives two bytes a call, and fails at its second call.
#[derive(Drop)]
struct Breaking {
    calls: u8,
}

impl Read for Breaking {
    fn read(&mut self, buf: &mut [u8]) -> io::Result<usize> {
        self.calls = self.calls.saturating_add(1);
        if self.calls == 2 {
            return Err(io::Error::from(ErrorKind::Other));
        }
        Ok(buf.len().min(2))
    }
}

// A reading that breaks has failed, and the bytes that came before are counted.
#[test]
fn a_reading_breaks(rt: HostRuntime) {
    let mut into = Vec::new(rt.alloc());
    let mut taken = 40;
    let got = read_within(&mut Breaking { calls: 0 }, 100, &mut into, &mut taken);
    assert_eq!(rt; got, Err(FileFault::Failed));
    assert_eq!(rt; taken, 42);
    assert_eq!(rt; into.as_slice(), [0, 0].as_slice());
}
