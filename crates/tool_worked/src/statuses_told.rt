// What is told where memory ran out, which no case of a program comes to.
use mont_base::MemSink;
use montage_tool::{Status, exit_of, say};
use std::process::{Abort, ExitCode};
use std::test::Fail;

#[test]
fn a_want_of_memory_is_told(rt: HostRuntime) -> Result<(), Fail> {
    assert!(rt; exit_of(&Status::Memory) == ExitCode::from(7));
    is_said(&rt, Vec::new(rt.alloc()), b"montage: out of memory\n")?;
    is_said(&rt, vec![in rt.alloc(); 0u64]?, b"")
}

// A sink whose calls of these numbers fail takes this of the status.
fn is_said(rt: &(impl Abort + AllocGlobal), fails: Vec<u64>, line: &[u8]) -> Result<(), Fail> {
    let mut sink = MemSink::new(rt.alloc(), 64, 9, fails)?;
    assert!(rt; say(rt.alloc(), &mut sink, &Status::Memory).is_ok());
    assert!(rt; sink.taken() == line);
    Ok(())
}
