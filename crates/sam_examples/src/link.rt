//! What the examples share: bytes in hex.

use std::alloc::{AllocError, Global};

/// Bytes in hex, each with a blank before it.
pub fn hex(alloc: Global, bytes: &[u8]) -> Result<String, AllocError> {
    let mut text = String::new(alloc);
    for byte in bytes {
        write!(text, " {byte:02x}")?;
    }
    Ok(text)
}
