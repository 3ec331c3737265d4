//! The front of a request, which may be of a later minor version.
use http_intake::{HeadEnd, LONGEST_HEAD};
use http_reading::lower_version;
use std::alloc::{AllocError, Global};
use std::io::{ErrorKind, Read};

/// The octets of a request up to the end of its head, or more. They are fewer where the reader ends
/// or fails, and where the head is too long. A request of HTTP/1.2 to HTTP/1.9 has become one of
/// HTTP/1.1 (RFC 9110, section 6.2). `AllocError` comes where there is no memory for them.
pub(crate) fn front_of<R: Read>(alloc: Global, reader: &mut R) -> Result<Vec<u8>, AllocError> {
    let mut octets = Vec::new(alloc);
    let mut end = HeadEnd::new(0, true);
    let mut piece = [0; 2048];
    for _ in 0..LONGEST_HEAD {
        match reader.read(&mut piece) {
            Ok(0) => break,
            Ok(count) => octets.extend_from_slice(&piece[..count])?,
            Err(error) if error.kind() == ErrorKind::Interrupted => {}
            Err(_) => break,
        }
        if end.has_come(octets.as_slice()) || octets.len() >= LONGEST_HEAD {
            break;
        }
    }
    lower_version(octets.as_mut_slice());
    Ok(octets)
}
