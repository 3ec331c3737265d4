//! Members of a roster, by their ids.
ghost use Rattle.std.specs.Prelude.{◌≡◌, true, IsTrue};
ghost use Rattle.roster.specs.Lookups.{is_member as is_member_of};
ghost use Rattle.http_writing.specs.Name.{is_name as names_cache};
ghost use Rattle.node_http.specs.Asking.{name_of as name_in, asker_of as asker_in};

use roster::Roster;

/// The name of the member with this id; its responses bear it in `via`. `id` must be a member's id.
pub fn name_of(roster: &Roster, id: u8) -> &[u8]
    requires { is_member_of roster.now id ≡ true }
    ensures value { result.now ≡ name_in roster.now id }
    ensures valid { IsTrue (names_cache result.now) }
{
    match roster.member(id) {
        Some(member) => member.cache.name.as_slice(),
        None => unreachable!(),
    }
}

/// The member that sends a request to the node `id`: the one that the request names, unless it is
/// not in the roster or is the node itself.
pub(crate) fn asker_of(roster: &Roster, id: u8, member: Option<u8>) -> Option<u8>
    ensures { result ≡ asker_in roster.now id member }
{
    match member {
        Some(member) if roster.is_member(member) && member != id => Some(member),
        _ => None,
    }
}
