//! Sets of members.
ghost use Rattle.std.specs.Prelude.{◌≡◌, ◌≤◌, ◌==◌, ◌++◌, ◌&&◌, [], length, filter, map, not};
ghost use Rattle.std.specs.Prelude.{IsTrue, OnOk};
ghost use Rattle.std.specs.List.{list_any};
ghost use Rattle.roster.specs.Lookups.{is_member, is_founding};
ghost use Rattle.purge_rules.specs.Members.{is_among, with_id, are_among, members_of, joining_of};

use roster::{Member, Roster};
use std::alloc::AllocError;
use std::marker::Model;

/// The greatest id of a member.
const MOST_MEMBERS: usize = 16;

/// A set of members, by their ids of 1 to 16.
///
/// A contract sees the ids, in ascending order.
#[derive(Clone, Copy, Debug)]
pub struct MemberSet {
    // at the index id - 1: whether the set has the id
    has: [bool; 16],
}

impl Model for MemberSet {
    ghost use Rattle.std.specs.Prelude.{◌≡◌, ℕ, List, length};
    ghost use Rattle.std.proofs.Common.{ap};
    ghost use Rattle.purge_rules.specs.Members.{ids_of, places_of};
    ghost use Rattle.purge_rules.specs.MemberPlaces.{places_are};

    ghost Value = { List ℕ };

    ghost view = { λ m. ids_of m.has };

    ghost invariant = { λ m. length m.has ≡ 16 };

    ghost inverse = { λ ids. record { has = places_of ids } };

    ghost inverse_ok = { λ m h. ap (λ bs. record { has = bs }) (places_are m.has h) };
}

impl MemberSet {
    /// The empty set.
    pub fn new() -> MemberSet
        ensures { result ≡ [] }
    {
        MemberSet {
            has: [false; MOST_MEMBERS],
        }
    }

    /// The members of a roster.
    pub fn of(roster: &Roster) -> MemberSet
        ensures { result ≡ members_of roster.now }
    {
        let members = roster.members();
        let mut has = [false; MOST_MEMBERS];
        for place in 0..16u8 {
            has[usize::from(place)] = has_member(members, place + 1);
        }
        MemberSet { has }
    }

    /// The joining members of a roster.
    pub fn joining(roster: &Roster) -> MemberSet
        ensures { result ≡ joining_of roster.now }
    {
        let mut has = [false; MOST_MEMBERS];
        for place in 0..16u8 {
            has[usize::from(place)] = is_joining(roster, place + 1);
        }
        MemberSet { has }
    }

    /// Whether the id is in the set. If it is, it is 1 to 16, and inserting it changes nothing.
    pub fn has(self, id: u8) -> bool
        ensures value { result ≡ is_among id self }
        ensures again { IsTrue result → with_id id self ≡ self }
        ensures id { IsTrue result → (1 ≤ id) × (id ≤ 16) }
    {
        let has = self.has;
        if id == 0 || id > 16 {
            return false;
        }
        has[usize::from(id) - 1]
    }

    /// Adds the id, which is 1 to 16.
    pub fn insert(&mut self, id: u8)
        requires { (1 ≤ id) × (id ≤ 16) }
        ensures { self.new ≡ with_id id self.old }
    {
        self.has[usize::from(id) - 1] = true;
    }

    /// Whether each member of this set is also in the other.
    pub fn are_in(self, other: MemberSet) -> bool
        ensures { result ≡ are_among self other }
    {
        for place in 0..MOST_MEMBERS {
            if self.has[place] && !other.has[place] {
                return false;
            }
        }
        true
    }

    /// The members of this set that are not in the other.
    pub fn missing_in(self, other: MemberSet) -> MemberSet
        ensures { result ≡ filter (λ id. not (is_among id other)) self }
    {
        let mut has = [false; MOST_MEMBERS];
        for place in 0..MOST_MEMBERS {
            has[place] = self.has[place] && !other.has[place];
        }
        MemberSet { has }
    }

    /// The member of this set with this id alone, if there is one.
    pub(crate) fn only(self, id: u8) -> MemberSet
        ensures { result ≡ filter (λ i. id == i) self }
    {
        let wanted = usize::from(id);
        let mut has = [false; MOST_MEMBERS];
        for place in 0..MOST_MEMBERS {
            has[place] = self.has[place] && wanted == place + 1;
        }
        MemberSet { has }
    }

    /// How many members there are, at most 16.
    pub fn count(self) -> u8
        ensures { result ≡ length self }
    {
        let mut count = 0;
        for has in &self.has {
            if *has {
                count += 1;
            }
        }
        count
    }

    /// Appends a pair of the number and the id for each member, by id. If an allocation fails, some
    /// of the pairs may have been appended.
    pub(crate) fn pair_with(self, number: u32, pairs: &mut Vec<(u32, u8)>) -> Result<(), AllocError>
        ensures { OnOk result (pairs.new.items ≡ pairs.old.items ++ map (λ id. (number, id)) self) }
    {
        for place in 0..16u8 {
            if self.has[usize::from(place)] {
                pairs.push((number, place + 1))?;
            }
        }
        Ok(())
    }
}

/// Whether a member has this id.
fn has_member(members: &[Member], id: u8) -> bool
    ensures { result ≡ list_any (λ m. m.cache.id == id) members.now }
{
    members.iter().any(|member| member.cache.id == id)
}

/// Whether a member has this id, and joins.
fn is_joining(roster: &Roster, id: u8) -> bool
    ensures { result ≡ (is_member roster.now id && not (is_founding roster.now id)) }
{
    roster.is_member(id) && !roster.is_founding(id)
}
