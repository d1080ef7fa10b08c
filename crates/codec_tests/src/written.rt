//! How octets are compared with what is wanted.

use std::alloc::AllocError;
use sv_base::Octs;

/// Whether there was memory, and these octets were written.
pub fn is_written(written: Result<Octs, AllocError>, octets: &[u8]) -> bool {
    match &written {
        Ok(written) => written.as_slice() == octets,
        Err(_) => false,
    }
}
