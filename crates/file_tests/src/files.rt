// What no clause says: which calls fail, what a fault of the system becomes, and that calls succeed.
use mix_io::{
    Files, MemFile, MemFiles, MemSink, OsFiles, ReadAtFault, ReadWhole, Sink, SinkFault, StdSink,
    read_whole,
};
use std::alloc::{AllocError, Global};
use std::io::Write;
use std::os::fd::AsRawFd;
use std::test::Fail;
use std::{fs, io};

// A file of a path and a text.
fn file(alloc: Global, path: &str, text: &str) -> Result<MemFile, AllocError> {
    Ok(MemFile {
        path: String::from_str(alloc, path)?,
        bytes: text.as_bytes().to_vec(alloc)?,
    })
}

// Files in memory of which two have one path and one is empty; the reads of these numbers fail.
fn two_files(alloc: Global, failing: Vec<u64>) -> Result<MemFiles, AllocError> {
    let files = vec![in alloc;
        file(alloc, "a", "abcdef")?,
        file(alloc, "b", "")?,
        file(alloc, "a", "behind the first")?,
    ]?;
    MemFiles::new(alloc, files, failing)
}

// What one read into room for four bytes gives.
fn read_four<F: Files>(alloc: Global, files: &mut F, path: &str, from: u64) -> Option<Vec<u8>> {
    let mut room = [0; 4];
    let count = files.read_at(alloc, path, from, &mut room).ok()?;
    room[..count].to_vec(alloc).ok()
}

#[test]
fn reads_fail_where_named_and_without_a_file(rt: HostRuntime) -> Result<(), Fail> {
    let alloc = rt.alloc();
    let mut files = two_files(alloc, vec![in alloc; 5, 2, 5]?)?;
    for (path, from, want) in [
        ("a", 0, Some("abcd")),
        ("a", 0, None),
        ("a", 4, Some("ef")),
        ("c", 0, None),
        ("b", 0, None),
        ("b", 0, Some("")),
        ("a", 9, Some("")),
    ] {
        let read = read_four(alloc, &mut files, path, from);
        assert_eq!(rt;
            read.as_deref(),
            want.map(str::as_bytes),
            "{path} from {from}"
        );
    }
    Ok(())
}

#[test]
fn reads_whole_files(rt: HostRuntime) -> Result<(), Fail> {
    let alloc = rt.alloc();
    let mut files = two_files(alloc, vec![in alloc; 4]?)?;
    assert_eq!(rt;
        read_whole(alloc, &mut files, "a").ok().as_deref(),
        Some(b"abcdef".as_slice())
    );
    assert!(rt; read_whole(alloc, &mut files, "a") == Err(ReadWhole::Failed));
    assert!(rt; read_whole(alloc, &mut files, "c") == Err(ReadWhole::Failed));
    Ok(())
}

#[test]
fn a_failing_write_takes_half(rt: HostRuntime) -> Result<(), Fail> {
    let alloc = rt.alloc();
    let mut sink = MemSink::new(alloc, vec![in alloc; 2]?);
    assert!(rt; sink.write(alloc, b"ab") == Ok(()));
    assert!(rt; sink.write(alloc, b"cde") == Err(SinkFault::Failed));
    assert!(rt; sink.write(alloc, b"f") == Ok(()));
    assert_eq!(rt; sink.bytes(), b"abcf".as_slice());
    Ok(())
}

#[test]
fn reads_and_writes_the_system(rt: HostRuntime) -> Result<(), Fail> {
    let alloc = rt.alloc();
    let mut files = OsFiles::new(rt);
    for (path, from, want) in [
        ("/dev/null", 0, Ok(0)),
        ("/dev/null", u64::MAX - 3, Err(ReadAtFault::Failed)),
        ("/dev/zero", 7, Ok(4)),
        ("/", 0, Err(ReadAtFault::Failed)),
        ("/dev/no such file", 0, Err(ReadAtFault::Failed)),
    ] {
        let mut room = [1; 4];
        let read = files.read_at(alloc, path, from, &mut room);
        assert!(rt; read == want, "{path} from {from}");
    }
    assert!(rt; read_whole(alloc, &mut files, "/dev/zero") == Err(ReadWhole::TooLong));
    assert!(rt; StdSink::new(rt).write(alloc, b"written\n") == Ok(()));
    Ok(())
}

#[test]
fn a_pipe_is_read_from_its_beginning_on(rt: HostRuntime) -> Result<(), Fail> {
    let alloc = rt.alloc();
    let (reader, mut writer) = io::pipe(&rt)?;
    writer.write_all(b"abcdef")?;
    drop(writer);
    let path = format!(in alloc; "/dev/fd/{}", reader.as_raw_fd())?;
    let mut files = OsFiles::new(rt);
    for (from, want) in [
        (1, None),
        (0, Some(b"abcd".as_slice())),
        (4, Some(b"ef".as_slice())),
        (6, Some(b"".as_slice())),
        (4, None),
    ] {
        let read = read_four(alloc, &mut files, &path, from);
        assert!(rt; read.as_deref() == want, "from {from}");
    }
    Ok(())
}

#[test]
fn two_files_that_are_read_in_turn_go_on_each_where_it_was(rt: HostRuntime) -> Result<(), Fail> {
    let alloc = rt.alloc();
    fs::write(&rt, "read_in_turn_a", b"abcdefg".as_slice())?;
    fs::write(&rt, "read_in_turn_b", b"1234567".as_slice())?;
    let mut files = OsFiles::new(rt);
    for (path, from, want) in [
        ("read_in_turn_a", 0, "abcd"),
        ("read_in_turn_b", 0, "1234"),
        ("read_in_turn_a", 4, "efg"),
        ("read_in_turn_b", 4, "567"),
        ("read_in_turn_a", 7, ""),
        ("read_in_turn_b", 7, ""),
    ] {
        let read = read_four(alloc, &mut files, path, from);
        assert!(rt;
            read.as_deref() == Some(want.as_bytes()),
            "{path} from {from}"
        );
    }
    fs::remove_file(&rt, "read_in_turn_a")?;
    fs::remove_file(&rt, "read_in_turn_b")?;
    Ok(())
}
