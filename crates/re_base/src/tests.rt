//! What no contract says: that calls succeed while there is memory, and what the system does.
use crate::{
    FileFault, Files, HostFiles, HostOut, MemFiles, MemSink, Never, Sink, SinkFailed, StopAt,
    Watch, put_all,
};
use std::alloc::{AllocError, Global};
use std::io::{ErrorKind, Write};
use std::test::Fail;
use std::{fs, io};

// Room, most bytes a call, numbers of the calls that fail, the text, whether all of it is put, and
// what is held.
const PUT_ALL: [(usize, usize, &[u32], &str, bool, &str); 9] = [
    (5, 9, &[], "hello", true, "hello"),
    (9, 1, &[], "hello", true, "hello"),
    (9, 3, &[2], "hello", true, "hello"),
    (3, 9, &[], "hello", false, "hel"),
    (4, 1, &[], "hello", false, "hell"),
    (0, 1, &[], "hello", false, ""),
    (9, 2, &[7, 1], "hello", false, "he"),
    (9, 9, &[0], "hello", false, ""),
    (0, 1, &[0], "", true, ""),
];

#[test]
fn put_all_puts_all_or_a_front(rt: HostRuntime) -> Result<(), Fail> {
    for (room, most, fail, text, all, held) in PUT_ALL {
        assert!(rt; 0 < most);
        let mut sink = MemSink::new(rt.alloc(), room, most, fail.to_vec(rt.alloc())?)?;
        let put = put_all(&mut sink, text.as_bytes());
        assert_eq!(rt; put.is_ok(), all, "{text} into {room} by {most}");
        assert_eq!(rt;
            sink.bytes(),
            held.as_bytes(),
            "{text} into {room} by {most}"
        );
    }
    Ok(())
}

// The piece of each call in turn, and its answer, at room for 5 bytes of which a call takes 3,
// where call 2 fails.
const PUTS: [(&str, Result<usize, SinkFailed>); 6] = [
    ("abcd", Ok(3)),
    ("", Ok(0)),
    ("xy", Err(SinkFailed)),
    ("xyz", Ok(2)),
    ("z", Err(SinkFailed)),
    ("", Ok(0)),
];

#[test]
fn a_sink_goes_on_after_a_fault(rt: HostRuntime) -> Result<(), Fail> {
    let mut sink = MemSink::new(rt.alloc(), 5, 3, [2].to_vec(rt.alloc())?)?;
    for (piece, answer) in PUTS {
        assert_eq!(rt; sink.put(piece.as_bytes()), answer, "{piece}");
    }
    assert_eq!(rt; sink.bytes(), b"abcxy".as_slice());
    Ok(())
}

fn named(alloc: Global, name: &str, length: usize) -> Result<(String, Vec<u8>), AllocError> {
    Ok((String::from_str(alloc, name)?, vec![in alloc; 7; length]?))
}

// The name of each read in turn, and the length of the text or the fault, where reads 1 and 4 fail.
const READS: [(&str, Result<usize, FileFault>); 9] = [
    ("short", Ok(3)),
    ("short", Err(FileFault::Failed)),
    ("short", Ok(3)),
    ("none", Err(FileFault::Failed)),
    ("long", Err(FileFault::Failed)),
    ("long", Err(FileFault::TooLong)),
    ("full", Ok(65_536)),
    ("empty", Ok(0)),
    ("shor", Err(FileFault::Failed)),
];

#[test]
fn files_in_memory_are_read_by_name(rt: HostRuntime) -> Result<(), Fail> {
    let alloc = rt.alloc();
    let files = vec![in alloc;
        named(alloc, "short", 3)?,
        named(alloc, "empty", 0)?,
        named(alloc, "short", 4)?,
        named(alloc, "full", 65_536)?,
        named(alloc, "long", 65_537)?,
    ]?;
    let mut files = MemFiles::new(files, [1, 4].to_vec(alloc)?);
    for (name, length) in READS {
        let answer = files.read(alloc, name).map(|bytes| bytes.len());
        assert_eq!(rt; answer, length, "{name}");
    }
    Ok(())
}

// The length of a file of the system, and what a read of it gives.
const LENGTHS: [(usize, Result<usize, FileFault>); 4] = [
    (0, Ok(0)),
    (5, Ok(5)),
    (65_536, Ok(65_536)),
    (65_537, Err(FileFault::TooLong)),
];

#[test]
fn files_of_the_system_are_read(rt: HostRuntime) -> Result<(), Fail> {
    let alloc = rt.alloc();
    let mut files = HostFiles::new(&rt);
    for (length, answer) in LENGTHS {
        let text = vec![in alloc; b'x'; length]?;
        fs::write(&rt, "re_base_test.txt", text.as_slice())?;
        let read = files.read(alloc, "re_base_test.txt");
        fs::remove_file(&rt, "re_base_test.txt")?;
        let count = read.map(|bytes| bytes.iter().filter(|byte| **byte == b'x').count());
        assert_eq!(rt; count, answer, "{length}");
    }
    for name in ["re_base_test.txt", ".", ""] {
        let read = files.read(alloc, name).map(|bytes| bytes.len());
        assert_eq!(rt; read, Err(FileFault::Failed), "{name}");
    }
    Ok(())
}

// A writer that takes three bytes a call, but the first time is interrupted and the second takes
// nothing.
#[derive(Drop)]
struct Stubborn {
    held: Vec<u8>,
    turn: u8,
}

impl Write for Stubborn {
    fn write(&mut self, buf: &[u8]) -> io::Result<usize> {
        self.turn = self.turn.saturating_add(1);
        match self.turn {
            1 => Err(io::Error::from(ErrorKind::Interrupted)),
            2 => Ok(0),
            _ => {
                let count = buf.len().min(3);
                self.held.write(&buf[..count])
            }
        }
    }

    fn flush(&mut self) -> io::Result<()> {
        Ok(())
    }
}

#[test]
fn a_writer_of_the_system_is_a_sink(rt: HostRuntime) -> Result<(), Fail> {
    let mut held = Vec::with_capacity(rt.alloc(), 5)?;
    assert!(rt; put_all(&mut HostOut::new(&mut held), b"hello").is_ok());
    assert_eq!(rt; held.as_slice(), b"hello".as_slice());

    let mut writer = Stubborn {
        held: Vec::with_capacity(rt.alloc(), 10)?,
        turn: 0,
    };
    let mut out = HostOut::new(&mut writer);
    for answer in [Err(SinkFailed), Err(SinkFailed), Ok(3)] {
        assert_eq!(rt; out.put(b"hello"), answer);
    }
    assert!(rt; put_all(&mut out, b", world").is_ok());
    assert_eq!(rt; writer.held.as_slice(), b"hel, world".as_slice());
    Ok(())
}

#[test]
fn a_watch_says_stop_from_its_question_on(rt: HostRuntime) -> Result<(), Fail> {
    let mut watch = StopAt::new(2);
    for want in [false, false, true, true] {
        assert_eq!(rt; watch.stop(), want);
    }
    assert!(rt; !Never.stop());
    Ok(())
}
