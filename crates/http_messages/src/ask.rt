ghost use Rattle.std.specs.Prelude.{◌≡◌, IfOk};

use std::alloc::{AllocError, Global};
use url_key::Key;

/// A request to a cache or an origin: a GET of one URL (RFC 9110, section 9.3.1).
#[derive(Debug, Drop, PartialEq, Eq)]
pub struct Ask {
    /// The key of the URL.
    pub key: Key,
    /// `only-if-cached`: the client wants a stored response only (RFC 9111, section 5.2.1.7).
    pub only_if_cached: bool,
    /// `no-cache`: the client wants no stored response without validation (RFC 9111, section
    /// 5.2.1.4).
    pub no_cache: bool,
    /// The number of the member that sends the request (`x-purge-member`), 1 to 16. `None`: it
    /// gives none. The type does not check the range.
    pub member: Option<u8>,
}

impl Ask {
    /// An equal request. `AllocError`: there was no memory for the key.
    pub fn copy(&self, alloc: Global) -> Result<Ask, AllocError>
        ensures { IfOk result (λ copy. copy ≡ self.now) }
    {
        let key = self.key.copy(alloc)?;
        Ok(Ask {
            key,
            only_if_cached: self.only_if_cached,
            no_cache: self.no_cache,
            member: self.member,
        })
    }
}
