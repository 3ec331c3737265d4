//! Datagrams that members and the master sent.
ghost use Rattle.std.specs.Prelude.{◌≡◌, ◌⊎◌, ◌↔◌, ℕ, [], ◌∷◌, ◌++◌, List, map, Some, true, IsTrue};
ghost use Rattle.std.specs.Prelude.{OnOk};
ghost use Rattle.std.specs.List.{flat_map};
ghost use Rattle.roster.specs.Lookups.{member_of as member_by_id, is_master as is_master_at};
ghost use Rattle.world_rules.specs.Consequence.{clear_to, clear_if};
ghost use Rattle.purge_rules.specs.Members.{possible_ids};
ghost use Rattle.purge_rules.specs.Clear.{clear as clear_of, base_clear as base_clear_of};
ghost use Rattle.world_rules.specs.World.{Datagram, datagram_from, datagrams_from};
ghost use Rattle.run_network.specs.declared.letters.Letter.{Letter as ALetter};
ghost use Rattle.run_network.specs.declared.letters.Acknowledgement.{Acknowledgement as AnAcknowledgement};
ghost use Rattle.run_network.specs.Bags.{Has};
ghost use Rattle.run_network.specs.Held.{HasLetter, HasAcknowledged, HoldsLetters};

use crate::bags::Bags;
use crate::prints::letter_print;
use node_copies::{copy_of_sent, same_message};
use node_rules::{Message, Outgoing, Sent};
use purge_rules::{MemberSet, base_clear, clear};
use roster::{Address, Cache, Roster, Udp, address_by};
use std::alloc::{AllocError, Global};
use std::hash::RandomState;
use url_key::Key;

/// A datagram to a member.
#[derive(Drop)]
pub struct Letter {
    sender: Address,
    receiver: u8,
    message: Sent,
}

/// A member's response to a CLR, sent to the master.
#[derive(Drop)]
pub struct Acknowledgement {
    member: u8,
    code: u8,
}

/// The datagrams that were sent: those to members, and of those to the master each response to a
/// CLR. Others are not held, since nobody looks for them.
///
/// A contract sees them by `HasLetter` and `HasAcknowledged`.
pub struct Letters {
    keys: RandomState,
    bags: Bags<Letter>,
    acknowledged: Bags<Acknowledgement>,
}

impl Drop for Letters {
    fn drop(self) {
        let Letters {
            keys: _,
            bags: _,
            acknowledged: _,
        } = self;
    }
}

/// Whether a datagram is this one.
fn is_letter(letter: &Letter, sender: Address, receiver: u8, message: &Message) -> bool
    ensures { IsTrue result ↔ (letter.now
        ≡ record { sender = sender; receiver = receiver; message = message.now }) }
{
    letter.sender == sender
        && letter.receiver == receiver
        && same_message(letter.message.message(), message)
}

/// Whether this datagram is among these.
fn has_letter_in(letters: &[Letter], sender: Address, receiver: u8, message: &Message) -> bool
    ensures { IsTrue result ↔ Has (λ l.
        l) letters.now (record {
          sender = sender;
          receiver = receiver;
          message =
              message.now;
        }) }
{
    for letter in letters {
        if is_letter(letter, sender, receiver, message) {
            return true;
        }
    }
    false
}

/// Whether a response to a CLR is this one.
fn is_answer(answer: &Acknowledgement, member: u8, code: u8) -> bool
    ensures { IsTrue result ↔ (answer.now ≡ record { member = member; code = code }) }
{
    answer.member == member && answer.code == code
}

/// Whether this response to a CLR is among these.
fn has_acknowledged_in(answers: &[Acknowledgement], member: u8, code: u8) -> bool
    ensures { IsTrue result ↔ Has (λ a. a) answers.now (record { member = member; code = code }) }
{
    for answer in answers {
        if is_answer(answer, member, code) {
            return true;
        }
    }
    false
}

impl Letters {
    /// No datagrams. Allocates nothing.
    pub(crate) fn new(alloc: Global, keys: RandomState) -> Letters
        ensures letters { (l : ALetter) → HasLetter result l → ⊥ }
        ensures acknowledged { (trans : ℕ) (a : AnAcknowledgement) →
            HasAcknowledged result trans a → ⊥ }
    {
        Letters {
            keys,
            bags: Bags::new(alloc),
            acknowledged: Bags::new(alloc),
        }
    }

    /// Whether this datagram was sent to this member.
    pub(crate) fn has_letter(&self, sender: Address, receiver: u8, message: &Message) -> bool
        ensures { IsTrue result ↔ HasLetter self.now
            (record { sender = sender; receiver = receiver; message = message.now }) }
    {
        let print = letter_print(self.keys, sender, receiver, message);
        has_letter_in(self.bags.bag(print), sender, receiver, message)
    }

    /// Whether a member has responded to the CLR with this TRANS-ID by this code.
    pub(crate) fn has_acknowledged(&self, member: u8, trans: u32, code: u8) -> bool
        ensures { IsTrue result ↔ HasAcknowledged self.now trans
            (record { member = member; code = code }) }
    {
        let answers = self.acknowledged.bag(u64::from(trans));
        has_acknowledged_in(answers, member, code)
    }

    /// Adds a datagram that is not held yet.
    fn put_letter(&mut self, alloc: Global, letter: Letter) -> Result<(), AllocError>
        ensures letters { OnOk result ((l : ALetter) →
            HasLetter self.new l ↔ (HasLetter self.old l ⊎ (letter ≡ l))) }
        ensures acknowledged { OnOk result ((trans : ℕ) (a : AnAcknowledgement) →
            HasAcknowledged self.new trans a ↔ HasAcknowledged self.old trans a) }
    {
        let text = letter.message.message();
        let print = letter_print(self.keys, letter.sender, letter.receiver, text);
        self.bags.put(alloc, print, letter)
    }

    /// Adds a datagram to a member, unless it is held already.
    fn add_letter(
        &mut self,
        alloc: Global,
        sender: Address,
        receiver: u8,
        message: &Sent,
    ) -> Result<(), AllocError>
        ensures letters { OnOk result ((l : ALetter) →
            HasLetter self.new l ↔ (HasLetter self.old l
            ⊎ (record { sender = sender; receiver = receiver; message = message.now }
            ≡ l))) }
        ensures acknowledged { OnOk result ((trans : ℕ) (a : AnAcknowledgement) →
            HasAcknowledged self.new trans a ↔ HasAcknowledged self.old trans a) }
    {
        let text = message.message();
        if self.has_letter(sender, receiver, text) {
            return Ok(());
        }
        let message = copy_of_sent(alloc, message)?;
        self.put_letter(
            alloc,
            Letter {
                sender,
                receiver,
                message,
            },
        )
    }

    /// Adds a member's response to a CLR, unless it is held already.
    fn add_acknowledged(
        &mut self,
        alloc: Global,
        member: u8,
        trans: u32,
        code: u8,
    ) -> Result<(), AllocError>
        ensures letters { OnOk result ((l : ALetter) →
            HasLetter self.new l ↔ HasLetter self.old l) }
        ensures acknowledged { OnOk result ((other : ℕ) (a : AnAcknowledgement) →
            HasAcknowledged self.new other a ↔ (HasAcknowledged self.old other a
            ⊎ ((trans ≡ other) × (record { member = member; code = code } ≡ a)))) }
    {
        if self.has_acknowledged(member, trans, code) {
            return Ok(());
        }
        let number = u64::from(trans);
        self.acknowledged
            .put(alloc, number, Acknowledgement { member, code })
    }

    /// Adds a datagram to the master, if it is a member's response to a CLR.
    fn tell_master(
        &mut self,
        alloc: Global,
        roster: &Roster,
        sender: Address,
        receiver: Address,
        message: &Message,
    ) -> Result<(), AllocError>
        requires { is_master_at roster.now receiver ≡ true }
        ensures { OnOk result ((sent : List Datagram) → HoldsLetters roster.now self.old sent →
            HoldsLetters roster.now self.new
            (sent ++ record { sender = sender; receiver = receiver; message = message.now }
            ∷ [])) }
    {
        match (message.clear_answer(), roster.member_at(sender, Udp::Htcp)) {
            (Some((trans, code)), Some(member)) => self.add_acknowledged(
                alloc, member, trans, code,
            ),
            _ => Ok(()),
        }
    }

    /// Adds a datagram, by its receiver.
    fn send(
        &mut self,
        alloc: Global,
        roster: &Roster,
        sender: Address,
        receiver: Address,
        message: &Sent,
    ) -> Result<(), AllocError>
        ensures { OnOk result ((sent : List Datagram) → HoldsLetters roster.now self.old sent →
            HoldsLetters roster.now self.new
            (sent ++ record { sender = sender; receiver = receiver; message = message.now }
            ∷ [])) }
    {
        let text = message.message();
        if roster.is_master(receiver) {
            return self.tell_master(alloc, roster, sender, receiver, text);
        }
        match roster.member_at(receiver, text.protocol()) {
            Some(member) => self.add_letter(alloc, sender, member, message),
            None => Ok(()),
        }
    }

    /// Adds the datagrams of a cache's messages to be sent.
    fn send_all(
        &mut self,
        alloc: Global,
        roster: &Roster,
        cache: &Cache,
        outgoing: &[Outgoing],
    ) -> Result<(), AllocError>
        ensures { OnOk result ((sent : List Datagram) → HoldsLetters roster.now self.old sent →
            HoldsLetters roster.now self.new
            (sent ++ map (datagram_from cache.now) outgoing.now)) }
    {
        for one in outgoing {
            let text = one.message.message();
            let sender = address_by(text.protocol(), cache);
            self.send(alloc, roster, sender, one.to, &one.message)?;
        }
        Ok(())
    }

    /// Adds the datagrams of a member's messages to be sent.
    pub(crate) fn post(
        &mut self,
        alloc: Global,
        roster: &Roster,
        node: u8,
        outgoing: &[Outgoing],
    ) -> Result<(), AllocError>
        ensures { OnOk result ((sent : List Datagram) → HoldsLetters roster.now self.old sent →
            HoldsLetters roster.now self.new
            (sent ++ datagrams_from (member_by_id roster.now node) outgoing.now)) }
    {
        match roster.member(node) {
            Some(member) => self.send_all(alloc, roster, &member.cache, outgoing),
            None => Ok(()),
        }
    }

    /// Adds the CLR of a new purge to the member with this id, if there is one.
    fn clear_one(
        &mut self,
        alloc: Global,
        roster: &Roster,
        member: u8,
        number: u32,
        key: &Key,
    ) -> Result<(), AllocError>
        ensures { OnOk result ((sent : List Datagram) → HoldsLetters roster.now self.old sent →
            HoldsLetters roster.now self.new
            (sent ++ clear_to roster.now (Some (clear_of number key.now))
            (member_by_id roster.now member))) }
    {
        match roster.member(member) {
            Some(member) => {
                let clr = Sent::new(Message::Htcp(clear(alloc, number, key)?));
                self.send(alloc, roster, roster.master(), member.cache.htcp, &clr)
            }
            None => Ok(()),
        }
    }

    /// Adds the CLR of a new purge to the member with this id, if there is one and the purge needs
    /// it.
    fn clear_needed(
        &mut self,
        alloc: Global,
        roster: &Roster,
        needed: MemberSet,
        member: u8,
        number: u32,
        key: &Key,
    ) -> Result<(), AllocError>
        ensures { OnOk result ((sent : List Datagram) → HoldsLetters roster.now self.old sent →
            HoldsLetters roster.now self.new
            (sent ++ clear_if roster.now needed number key.now member)) }
    {
        if needed.has(member) {
            self.clear_one(alloc, roster, member, number, key)
        } else {
            Ok(())
        }
    }

    /// Adds the CLR of a new purge to each member that it needs.
    pub(crate) fn clear_all(
        &mut self,
        alloc: Global,
        roster: &Roster,
        needed: MemberSet,
        number: u32,
        key: &Key,
    ) -> Result<(), AllocError>
        ensures { OnOk result ((sent : List Datagram) → HoldsLetters roster.now self.old sent →
            HoldsLetters roster.now self.new
            (sent ++ flat_map (clear_if roster.now needed number key.now) possible_ids)) }
    {
        let ids = [1u8, 2, 3, 4, 5, 6, 7, 8, 9, 10, 11, 12, 13, 14, 15, 16];
        for id in &ids {
            self.clear_needed(alloc, roster, needed, *id, number, key)?;
        }
        Ok(())
    }

    /// Adds the CLR of an admission to the member with this id, if there is one.
    pub(crate) fn admit(
        &mut self,
        alloc: Global,
        roster: &Roster,
        member: u8,
        number: u32,
    ) -> Result<(), AllocError>
        ensures { OnOk result ((sent : List Datagram) → HoldsLetters roster.now self.old sent →
            HoldsLetters roster.now self.new
            (sent ++ clear_to roster.now (Some (base_clear_of number))
            (member_by_id roster.now member))) }
    {
        match roster.member(member) {
            Some(member) => {
                let clr = Sent::new(Message::Htcp(base_clear(alloc, number)?));
                self.send(alloc, roster, roster.master(), member.cache.htcp, &clr)
            }
            None => Ok(()),
        }
    }
}
