// The code of a source.
use rx_clauses::parse_clauses;
use rx_exprs::{DEEPEST, ParseRefused};
use rx_flow::{Flat, flatten_body};
use rx_scan::{LONGEST_SOURCE, ScanRefused, bracket_depth, scan};
use rx_tree::OutOfMemory;
use std::alloc::{AllocError, Global};

// Want of memory, as the library tells it.
pub fn wanting(_error: OutOfMemory) -> AllocError {
    AllocError
}

/// The body of a source with its code, where it is one.
pub fn flat_of(alloc: Global, source: &[u8]) -> Result<Option<Flat>, AllocError> {
    if source.len() > LONGEST_SOURCE {
        return Ok(None);
    }
    let tokens = match scan(alloc, source) {
        Ok(tokens) => tokens,
        Err(ScanRefused::Bad { .. }) => return Ok(None),
        Err(ScanRefused::OutOfMemory) => return Err(AllocError),
    };
    if bracket_depth(tokens.as_slice()) > DEEPEST {
        return Ok(None);
    }
    match parse_clauses(alloc, tokens.as_slice(), 0) {
        Ok((body, _)) => Ok(Some(flatten_body(alloc, body).map_err(wanting)?)),
        Err(ParseRefused::Bad { .. }) => Ok(None),
        Err(ParseRefused::OutOfMemory) => Err(AllocError),
    }
}
