ghost use Rattle.std.specs.Prelude.{◌≡◌};
ghost use Rattle.std.specs.Option.{option_map};
ghost use Rattle.values_plain.specs.Counted.{split_counted as counted_front};

use byteorder::{BigEndian, ByteOrder};

/// The counted text at the front, and what follows it. A counted text is a length of two octets in
/// network byte order, and that many octets.
///
/// `None` if the length or the text runs past the end. Allocates nothing.
#[tactic(auto, unfolding(crate::specs::Counted::split_counted))]
pub fn split_counted(octets: &[u8]) -> Option<(&[u8], &[u8])>
    ensures { option_map (λ parts. (parts.0.now, parts.1.now)) result ≡ counted_front octets.now }
{
    let (count, rest) = octets.split_at_checked(2)?;
    rest.split_at_checked(BigEndian::read_u16(count) as usize)
}
