// The report on standard input.
use crate::trouble::Trouble;
use job_text::{Report, ReportRefusal, read_report};
use std::alloc::Global;
use std::io::Read;

// A longer text isn't read.
const MOST_BYTES: usize = 134_217_728;

// How many bytes are read at once.
const CHUNK: usize = 65_536;

/// The report whose text a reader gives.
pub(crate) fn report_of<R: Read>(alloc: Global, reader: &mut R) -> Result<Report, Trouble> {
    let bytes = read_all(alloc, reader)?;
    match read_report(alloc, &bytes) {
        Ok(report) => Ok(report),
        Err(ReportRefusal::Text { line }) => Err(Trouble::Line { line }),
        Err(ReportRefusal::Memory) => Err(Trouble::Memory),
    }
}

// All bytes of a reader. More than the most there may be are no report's, told as line 0.
fn read_all<R: Read>(alloc: Global, reader: &mut R) -> Result<Vec<u8>, Trouble> {
    let mut bytes = Vec::new(alloc);
    let mut chunk = [0; CHUNK];
    for _read in 0..=MOST_BYTES {
        let count = match reader.read(&mut chunk) {
            Ok(count) => count,
            Err(_) => return Err(Trouble::Read),
        };
        if count == 0 {
            return Ok(bytes);
        }
        if bytes.extend_from_slice(&chunk[..count]).is_err() {
            return Err(Trouble::Memory);
        }
        if bytes.len() > MOST_BYTES {
            break;
        }
    }
    Err(Trouble::Line { line: 0 })
}
