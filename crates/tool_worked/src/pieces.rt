// A file is written in pieces of 65,536 bytes, to a file beside it that is made new.
use mont_base::Sink;
use montage_tool::FileSink;
use std::fs;
use std::process::Abort;
use std::rt::Files;
use std::test::Fail;

const PATH: &str = "pieces-test";

const BESIDE: &str = "pieces-test.2.unfinished";

// A file of the user's that has the name of a file beside.
const OWN: &str = "pieces-test.1.unfinished";

// How many bytes a call is given.
const CALL: usize = 4096;

// How many bytes are written at once.
const PIECE: u64 = 65_536;

#[test]
fn pieces_are_gathered(rt: HostRuntime) -> Result<(), Fail> {
    fs::write(&rt, OWN, "the user's own")?;
    let mut sink = FileSink::new(&rt, rt.alloc(), PATH)?;
    are_gathered(&rt, &mut sink)?;
    sink.abandon();
    assert!(&rt; fs::metadata(&rt, BESIDE).is_err() && fs::metadata(&rt, PATH).is_err());
    assert!(&rt; fs::read_to_string(&rt, OWN)?.as_str() == "the user's own");
    fs::remove_file(&rt, OWN)?;
    Ok(())
}

// Nothing is written until a piece is full, and then the whole piece.
fn are_gathered<R: Abort + Files>(rt: &R, sink: &mut FileSink<'_, R>) -> Result<(), Fail> {
    for _call in 0..16 {
        assert!(rt; sink.write(&[7; CALL]) == Ok(CALL));
        assert!(rt; fs::metadata(rt, BESIDE)?.len() == 0);
    }
    assert!(rt; sink.write(&[7; CALL]) == Ok(CALL));
    assert!(rt; fs::metadata(rt, BESIDE)?.len() == PIECE);
    Ok(())
}
