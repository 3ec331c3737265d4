ghost use Rattle.std.specs.Prelude.{◌≡◌, ℕ, List};
ghost use Rattle.http_lists.specs.declared.members.Quoting.TheVariants.{Outside};
ghost use Rattle.http_lists.specs.Cut.{HasMembers};
ghost use Rattle.http_lists.specs.Members.{members};

/// A law: the members into which a value is cut are its members by the grammar of lists and quoted
/// strings (RFC 9110, sections 5.6.1 and 5.6.4), and no other list of members fits that grammar.
///
/// The function does nothing; its contract states the law.
pub fn members_are_exact()
    ensures made { (value : List ℕ) → HasMembers Outside value (members value) }
    ensures alone { (value : List ℕ) (parts : List (List ℕ)) → HasMembers Outside value parts →
        parts ≡ members value }
{}
