ghost use Rattle.std.specs.Prelude.{◌≡◌};
ghost use Rattle.std.specs.List.{list_all};
ghost use Rattle.http_writing.specs.Name.{is_name as names_cache, is_name_octet};

/// The most octets that a name has.
const LONGEST_NAME: usize = 32;

/// Whether a text may name a cache in a `via` field: 1 to 32 lower case letters and digits, a
/// pseudonym of RFC 9110, section 7.6.3.
pub fn is_name(text: &[u8]) -> bool
    ensures { result ≡ names_cache text.now }
{
    !text.is_empty() && text.len() <= LONGEST_NAME && has_name_octets(text)
}

/// Whether the text has lower case letters and digits only.
fn has_name_octets(text: &[u8]) -> bool
    ensures { result ≡ list_all is_name_octet text.now }
{
    text.iter().all(|octet| (b'a' <= *octet && *octet <= b'z')
        || (b'0' <= *octet && *octet <= b'9'))
}
