ghost use Rattle.std.specs.Prelude.{◌≡◌, ◌≤◌, IfOk};
ghost use Rattle.object_store.specs.Copy.{size as size_of_copy};

use http_messages::Answer;
use std::alloc::{AllocError, Global};
use url_key::Key;

/// A stored response to a GET of one URL. [Copy 1]
pub struct WebCopy<T> {
    /// The key of the URL.
    pub key: Key,
    /// The stamp: the greatest number known to the reader when its read from the origin began. 0:
    /// not known.
    pub stamp: u32,
    /// The moment of the request, in seconds of the caller's clock.
    pub asked: u64,
    /// The freshness lifetime, in seconds (RFC 9111, section 4.2).
    pub lifetime: u64,
    /// The response.
    pub answer: Answer,
    /// A mark for proofs, which a store carries and never looks at.
    pub tag: T,
}

impl<T: Drop> Drop for WebCopy<T> {
    fn drop(self) {
        let WebCopy {
            key: _,
            stamp: _,
            asked: _,
            lifetime: _,
            answer: _,
            tag: _,
        } = self;
    }
}

impl<T: Copy> WebCopy<T> {
    /// An equal copy, which shares the fields and the body of the response. `AllocError`: there
    /// was no memory for the key, or the owners could not be counted.
    pub fn copy(&self, alloc: Global) -> Result<WebCopy<T>, AllocError>
        ensures { IfOk result (λ copy. copy ≡ self.now) }
    {
        let key = self.key.copy(alloc)?;
        let answer = self.answer.copy()?;
        Ok(WebCopy {
            key,
            stamp: self.stamp,
            asked: self.asked,
            lifetime: self.lifetime,
            answer,
            tag: self.tag,
        })
    }
}

/// The octets that a copy counts in a store: its key, its body, and for each field name, value and
/// 4. At most 82,560: 1,024 for the key, 16,000 for the fields and 65,536 for the body.
pub fn size<T>(copy: &WebCopy<T>) -> u64
    ensures value { result ≡ size_of_copy copy.now }
    ensures bound { result ≤ 82560 }
{
    copy.key.text().len() as u64 + copy.answer.size()
}
