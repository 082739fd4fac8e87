//! Whole runs over sources and sinks in memory.

use off_io::{MemSink, MemSource};
use std::alloc::{AllocError, Global};
use wire_run::run;
use worked_captures::FILE_HEADER;

/// The words of a line, one space between two of them.
pub fn words(alloc: Global, line: &str) -> Result<Vec<String>, AllocError> {
    let mut words = Vec::new(alloc);
    for word in line.split(' ') {
        words.push(format!(in alloc; "{word}")?)?;
    }
    Ok(words)
}

/// How many bytes a frame has.
pub fn length(frame: &[u8]) -> u32 {
    u32::try_from(frame.len()).unwrap_or(u32::MAX)
}

/// A capture of one record after another, each with a frame and an original length.
pub fn capture(alloc: Global, records: &[(&[u8], u32)]) -> Result<Vec<u8>, AllocError> {
    let mut bytes = FILE_HEADER.to_vec(alloc)?;
    for (frame, original) in records {
        bytes.extend_from_slice(&[1, 0, 0, 0, 2, 0, 0, 0])?;
        bytes.extend_from_slice(&length(frame).to_le_bytes())?;
        bytes.extend_from_slice(&original.to_le_bytes())?;
        bytes.extend_from_slice(frame)?;
    }
    Ok(bytes)
}

/// What a run of a line of words over a capture comes to: its code, what is written and what is logged.
pub fn wired(
    alloc: Global,
    line: &str,
    bytes: Vec<u8>,
) -> Result<(u8, Vec<u8>, Vec<u8>), AllocError> {
    let words = words(alloc, line)?;
    let mut source = MemSource::new(bytes, 7, Vec::new(alloc));
    let mut sink = MemSink::new(alloc, 5, Vec::new(alloc));
    let mut log = MemSink::new(alloc, 4096, Vec::new(alloc));
    let status = run(alloc, &words, &mut source, &mut sink, &mut log);
    Ok((
        status.code(),
        sink.bytes().to_vec(alloc)?,
        log.bytes().to_vec(alloc)?,
    ))
}
