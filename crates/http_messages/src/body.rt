ghost use Rattle.std.specs.Prelude.{◌≡◌, ◌==◌, ◌<◌, ◌^◌, [], IfOk, length};

use bytes::Bytes;
use std::alloc::{AllocError, Global};
use std::marker::Model;

/// The octets of a response's content (RFC 9110, section 6.4). Copies share them.
///
/// A contract sees it as the list of its octets.
#[derive(Debug, Drop)]
pub struct Body {
    octets: Bytes,
}

impl Model for Body {
    ghost use Rattle.std.specs.Prelude.{ℕ, List};

    ghost Value = { List ℕ };

    ghost view = { λ b. b.octets };
}

impl Body {
    /// The empty body. It does not allocate.
    pub fn empty() -> Body
        ensures { result ≡ [] }
    {
        Body {
            octets: Bytes::new(),
        }
    }

    /// The body of these octets, which stay where they are. It allocates the count of owners.
    pub fn from_vec(octets: Vec<u8>) -> Result<Body, AllocError>
        ensures { IfOk result (λ body. body ≡ octets.items) }
    {
        let octets = Bytes::from_vec(octets)?;
        Ok(Body { octets })
    }

    /// The body of these octets, which it copies.
    pub fn from_slice(alloc: Global, octets: &[u8]) -> Result<Body, AllocError>
        ensures { IfOk result (λ body. body ≡ octets.now) }
    {
        let octets = Bytes::copy_from_slice(alloc, octets)?;
        Ok(Body { octets })
    }

    /// The octets.
    pub fn as_slice(&self) -> &[u8]
        ensures { result.now ≡ self.now }
    {
        self.octets.as_slice()
    }

    /// The number of octets, less than 2^63.
    pub fn len(&self) -> usize
        ensures value { result ≡ length self.now }
        ensures bound { result < 2 ^ 63 }
    {
        self.octets.len()
    }

    /// Whether there are no octets.
    pub fn is_empty(&self) -> bool
        ensures { result ≡ (length self.now == 0) }
    {
        self.octets.is_empty()
    }

    /// An equal body, which shares the octets. `AllocError`: the owners could not be counted.
    pub fn copy(&self) -> Result<Body, AllocError>
        ensures { IfOk result (λ copy. copy ≡ self.now) }
    {
        let octets = self.octets.clone()?;
        Ok(Body { octets })
    }
}
