// The devices of the process, and devices that wear out.
ghost use Rattle.std.specs.Prelude.{◌≤◌, IfOk};

use mont_base::{Failed, Sink, Source, deliver};
use montage_tool::{FileSink, FileSource, StdSink, StdSource};
use std::io::{Read, Write};
use std::process::Abort;
use std::rt::Files;
use std::test::Fail;
use std::{fs, io};

const PATH: &str = "devices-test";

// What is written to a file, and how that ends.
struct Written {
    // What stands in the place before, if anything does, and until it ends.
    older: Option<&'static [u8]>,
    pieces: &'static [&'static [u8]],
    // Whether it is finished, or given up.
    is_whole: bool,
    // What stands in the place then.
    held: &'static [u8],
}

static WRITTEN: &[Written] = &[
    Written {
        older: None,
        pieces: &[b"a report", b"\n"],
        is_whole: true,
        held: b"a report\n",
    },
    Written {
        older: Some(b"an older file"),
        pieces: &[b"a front"],
        is_whole: false,
        held: b"an older file",
    },
    Written {
        older: Some(b"an older file"),
        pieces: &[],
        is_whole: true,
        held: b"",
    },
];

#[test]
fn a_file_is_in_its_place_once_it_is_whole(rt: HostRuntime) -> Result<(), Fail> {
    for written in WRITTEN {
        let _ = fs::remove_file(&rt, PATH);
        is_ended(&rt, written)?;
    }
    fs::remove_file(&rt, PATH)?;
    Ok(())
}

fn is_ended(rt: &(impl Abort + AllocGlobal + Files), written: &Written) -> Result<(), Fail> {
    if let Some(older) = written.older {
        fs::write(rt, PATH, older)?;
    }
    is_taken(rt, written)?;
    holds(rt, written.held)?;
    assert!(rt; fs::metadata(rt, "devices-test.1.unfinished").is_err());
    Ok(())
}

fn is_taken(rt: &(impl Abort + AllocGlobal + Files), written: &Written) -> Result<(), Fail> {
    let mut sink = FileSink::new(rt, rt.alloc(), PATH)?;
    takes(rt, &mut sink, written)
}

// The sink takes the pieces, until then its place is as it was, and it ends without a fault.
fn takes<R: Abort + Files>(
    rt: &R,
    sink: &mut FileSink<'_, R>,
    written: &Written,
) -> Result<(), Fail> {
    for piece in written.pieces {
        assert!(rt; deliver(sink, piece).is_ok());
    }
    match written.older {
        Some(older) => holds(rt, older)?,
        None => assert!(rt; fs::metadata(rt, PATH).is_err()),
    }
    if written.is_whole {
        assert!(rt; sink.finish().is_ok());
    } else {
        sink.abandon();
    }
    assert!(rt; sink.faults == 0);
    Ok(())
}

// The file has just these bytes, which are read in pieces of four.
fn holds(rt: &(impl Abort + Files), bytes: &[u8]) -> Result<(), Fail> {
    let mut source = FileSource::open(rt, PATH);
    for piece in bytes.chunks(4) {
        gives(rt, &mut source, piece)?;
    }
    gives(rt, &mut source, b"")?;
    assert!(rt; source.faults == 0);
    Ok(())
}

fn gives<S: Source>(rt: &impl Abort, source: &mut S, piece: &[u8]) -> Result<(), Fail> {
    let mut held = [0; 4];
    let count = source.read(&mut held)?;
    assert!(rt; &held[..count] == piece);
    Ok(())
}

#[test]
fn files_that_are_not_there_fail(rt: HostRuntime) -> Result<(), Fail> {
    let mut source = FileSource::open(&rt, "no-such-file");
    source_fails(&rt, &mut source);
    let mut sink = FileSink::new(&rt, rt.alloc(), "no-such-folder/report")?;
    sink_fails(&rt, &mut sink);
    Ok(())
}

// The source fails twice.
fn source_fails<R: Abort + Files>(rt: &R, source: &mut FileSource<R::File>) {
    for count in 1..=2 {
        assert!(rt; source.read(&mut [0; 4]).is_err() && source.faults == count);
    }
}

// The sink fails twice, and in its end.
fn sink_fails<R: Abort + Files>(rt: &R, sink: &mut FileSink<'_, R>) {
    for count in 1..=2 {
        assert!(rt; sink.write(&[0; 4]).is_err() && sink.faults == count);
    }
    assert!(rt; sink.finish().is_err());
}

// Gives and takes one byte, is interrupted, gives and takes none, and then fails.
#[derive(Drop)]
struct Worn {
    calls: u8,
}

impl Worn {
    fn used(&mut self, room: usize) -> io::Result<usize>
        ensures { IfOk result (λ n. n ≤ room) }
    {
        self.calls = self.calls.saturating_add(1);
        match self.calls {
            1 => Ok(room.min(1)),
            2 => Err(io::Error::from(io::ErrorKind::Interrupted)),
            3 => Ok(0),
            _ => Err(io::Error::from(io::ErrorKind::Other)),
        }
    }
}

impl Read for Worn {
    fn read(&mut self, buf: &mut [u8]) -> io::Result<usize> {
        self.used(buf.len())
    }
}

impl Write for Worn {
    fn write(&mut self, buf: &[u8]) -> io::Result<usize> {
        self.used(buf.len())
    }

    fn flush(&mut self) -> io::Result<()> {
        Ok(())
    }
}

// What a call comes to, and how often calls have failed then.
type Call = (Result<usize, Failed>, u64);

static READS: &[Call] = &[(Ok(1), 0), (Ok(0), 0), (Err(Failed), 1), (Err(Failed), 2)];

static WRITES: &[Call] = &[(Ok(1), 0), (Err(Failed), 1), (Err(Failed), 2)];

#[test]
fn a_stream_ends_and_a_device_that_takes_nothing_fails(rt: HostRuntime) {
    let mut source = StdSource::new(Worn { calls: 0 });
    for (answer, faults) in READS {
        assert!(&rt; source.read(&mut [0; 4]) == *answer && source.faults == *faults);
    }
    let mut sink = StdSink::new(Worn { calls: 0 });
    for (answer, faults) in WRITES {
        assert!(&rt; sink.write(&[0; 4]) == *answer && sink.faults == *faults);
    }
}
