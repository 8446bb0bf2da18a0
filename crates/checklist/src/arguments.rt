// The arguments behind the program's name, byte by byte: one need not be text.
use std::alloc::{AllocError, Global};
use std::env::{Env, FillError};

// The system takes no longer argument.
const LONGEST: usize = 131072;

// The argument with this number, if there is one. It is taken as empty if it is longer than the buffer.
fn argument<R: Env>(
    rt: &R,
    alloc: Global,
    i: usize,
    buffer: &mut [u8],
) -> Result<Option<Vec<u8>>, AllocError> {
    let n = match rt.arg(i, buffer) {
        Ok(n) => n,
        Err(FillError::TooLong) => 0,
        Err(FillError::NotPresent) => return Ok(None),
    };
    let mut bytes = Vec::new(alloc);
    bytes.extend_from_slice(&buffer[..n])?;
    Ok(Some(bytes))
}

pub fn arguments<R: Env>(rt: &R, alloc: Global) -> Result<Vec<Vec<u8>>, AllocError> {
    let mut buffer = vec![in alloc; 0u8; LONGEST]?;
    (1..usize::MAX)
        .map_while(|i| argument(rt, alloc, i, buffer.as_mut_slice()).transpose())
        .try_collect(alloc)
}
