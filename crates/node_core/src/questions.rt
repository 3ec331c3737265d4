//! Queries of other caches, and answers of peers to a round.
ghost use Rattle.std.specs.Prelude.{◌≡◌, ◌<◌, ℕ, List, Option, Some, None, length, option_map};
ghost use Rattle.std.specs.Prelude.{IfOk, IfSome, slice_get, false};
ghost use Rattle.node_rules.specs.State as state;
ghost use Rattle.node_rules.specs.Datagrams as datagrams;
ghost use Rattle.node_rules.specs.Texts.{IsSendable};
ghost use Rattle.node_rules.specs.Messages as messages;
ghost use Rattle.icp_wire.specs.declared.message.IcpOp.TheVariants as ops;
ghost use Rattle.values_tables.specs.declared.plain.Peer.{Peer as PeerText};
ghost use Rattle.values_plain.specs.declared.address.Udp.TheVariants as udp;
ghost use Rattle.peer_chooser.specs.Round.{has_answered as has_answered_in};
ghost use Rattle.values_keys.specs.KeyOf.{GivesKeys};
ghost use Rattle.node_core.specs.View.{IsSameNode, setting_of, HasKeyOf};
ghost use Rattle.node_core.specs.SaidWithStamp.{said_by};
ghost use Rattle.node_core.specs.Leads.{Leads};

use crate::Node;
use crate::replies::{quiet, sends};
use floor_rules::FloorStore;
use htcp_wire::{HeaderKind, NOT_ALLOWED, Specifier, TST, number_in};
use icp_wire::{Icp, IcpOp};
use node_messages::{icp_answer, is_known, overall_answer, peer_at, tst_answer};
use node_rules::{Reply, StepFault};
use peer_chooser::{Round, Said};
use roster::{Address, Peer, Udp, is_foreign};
use std::alloc::{AllocError, Global};
use url_key::{Key, KeyFault};
use values_plain::Octets;

/// What an answer to a round says. It may differ by who sent it.
#[derive(Clone, Copy)]
pub(crate) struct SaidWithStamp {
    /// If a member sent it.
    pub(crate) member: Said,
    /// If a foreign cache sent it.
    pub(crate) foreign: Said,
}

impl SaidWithStamp {
    /// The same, whoever sent it.
    pub(crate) fn of(said: Said) -> SaidWithStamp
        ensures { result ≡ record {
          member = said;
          foreign = said;
        } }
    {
        SaidWithStamp {
            member: said,
            foreign: said,
        }
    }

    /// What it says if this peer sent it.
    fn by(self, peer: Peer) -> Said
        ensures { result ≡ said_by self peer }
    {
        if is_foreign(peer.id) {
            self.foreign
        } else {
            self.member
        }
    }
}

/// The key of a text, if it has one.
pub(crate) fn key_of_text(alloc: Global, text: &[u8]) -> Result<Option<Key>, AllocError>
    ensures { IfOk result (HasKeyOf text.now) }
{
    match Key::read(alloc, text) {
        Ok(key) => Ok(Some(key)),
        Err(KeyFault::NoMemory) => Err(AllocError),
        Err(_) => Ok(None),
    }
}

/// Whether a text has this key.
fn has_key(alloc: Global, text: &[u8], key: &Key) -> Result<bool, AllocError>
    ensures { (key_of : List ℕ → Option (List ℕ)) → GivesKeys key_of →
        IfOk result (λ same. same ≡ datagrams.is_key (key_of text.now) key.now) }
{
    match key_of_text(alloc, text)? {
        Some(read) => Ok(read == *key),
        None => Ok(false),
    }
}

/// What an ICP answer says. The object of a HIT_OBJ is not used.
fn icp_said(op: IcpOp) -> Said
    ensures { result ≡ datagrams.icp_said op }
{
    match op {
        IcpOp::Hit | IcpOp::HitObj => Said::Hit(None),
        IcpOp::Miss => Said::Miss,
        IcpOp::Query | IcpOp::Error | IcpOp::MissNoFetch | IcpOp::Denied => Said::NoFetch,
    }
}

/// What a TST hit with these CACHE-HDRS says. Only a member's stamp is trusted, and a bad line
/// tells none.
pub(crate) fn hit_said(headers: &[u8]) -> SaidWithStamp
    ensures { (p : PeerText) → said_by result p ≡ datagrams.tst_hit_said headers.now p }
{
    let stamp = number_in(headers, HeaderKind::PurgeStamp).unwrap_or(None);
    SaidWithStamp {
        member: Said::Hit(stamp),
        foreign: Said::Hit(None),
    }
}

/// Whether the peer with this id has answered.
fn has_answered(round: &Round, id: u8) -> bool
    ensures { result ≡ has_answered_in round.now.answers id }
{
    round.answers().iter().any(|answer| answer.peer.id == id)
}

impl<T: Copy + Drop, S: FloorStore> Node<T, S> {
    /// Whether the sender's queries are answered: the node knows it, and is not outside.
    fn answers_to(&self, by: Udp, from: Address) -> bool
        ensures { result ≡ datagrams.answers_to (state.setting self.now.roster self.now.id)
            self.now.state by from }
    {
        !self.is_outside() && is_known(&self.roster, self.id, by, from)
    }

    /// The opcode that answers a QUERY (RFC 2186, "ICP_OP_QUERY").
    fn query_answer(&self, from: Address, key: Option<&Key>, now: u64) -> IcpOp
        ensures { result ≡ datagrams.icp_answer
            (datagrams.answers_to (state.setting self.now.roster self.now.id) self.now.state udp.Icp
            from) self.now.state now (option_map (λ k. k.now) key.entry) }
    {
        if !self.answers_to(Udp::Icp, from) {
            return IcpOp::Denied;
        }
        match key {
            None => IcpOp::Error,
            Some(key) => match self.good_copy(key, now) {
                Some(_) => IcpOp::Hit,
                None => IcpOp::Miss,
            },
        }
    }

    /// The opcode that answers a QUERY for this URL, and the URL. Only a URL that is no plain key
    /// is copied to read its key: any other is the key itself for the time of the look-up.
    fn op_and_url(
        &self,
        from: Address,
        url: Octets,
        now: u64,
    ) -> Result<(IcpOp, Octets), AllocError>
        ensures url { IfOk result (λ told. told.1 ≡ url) }
        ensures op { IfOk result (λ told. (key : Option (List ℕ)) × HasKeyOf url key
            × (told.0 ≡ datagrams.icp_answer
            (datagrams.answers_to (state.setting self.now.roster self.now.id) self.now.state udp.Icp
            from) self.now.state now key)) }
    {
        match Key::from_plain(url.into_vec()) {
            Ok(key) => {
                let op = self.query_answer(from, Some(&key), now);
                Ok((op, Octets::from_vec(key.into_text())))
            }
            Err(text) => {
                let url = Octets::from_vec(text);
                let key = key_of_text(self.alloc, url.as_slice())?;
                let op = self.query_answer(from, key.as_ref(), now);
                Ok((op, url))
            }
        }
    }

    /// A QUERY arrives. The response repeats the number, and has the URL of the query, which is not
    /// copied. The store keeps its order.
    pub(crate) fn icp_query(
        &self,
        from: Address,
        message: Icp,
        now: u64,
    ) -> Result<Reply<T>, StepFault>
        requires { IsSendable (messages.icp ops.Miss message.number message.url) }
        ensures { (key_of : List ℕ → Option (List ℕ)) → GivesKeys key_of →
            Leads (datagrams.icp_query (setting_of self.now key_of) self.now.state from message now)
            self.now.state result self.now.state }
    {
        let (op, url) = self.op_and_url(from, message.url, now)?;
        let answer = icp_answer(self.alloc, from, op, message.number, url);
        Ok(sends(answer))
    }

    /// The stamp of the copy that a SPECIFIER means, if the copy may be served. Only GET means one.
    fn stamp_meant(&self, spec: &Specifier, now: u64) -> Result<Option<u32>, AllocError>
        ensures { (key_of : List ℕ → Option (List ℕ)) → GivesKeys key_of →
            IfOk result (λ stamp. stamp ≡ option_map (λ c.
            c.stamp) (datagrams.copy_meant
            (setting_of self.now key_of) self.now.state spec.now now)) }
    {
        if spec.method.as_slice() != b"GET".as_slice() {
            return Ok(None);
        }
        match key_of_text(self.alloc, spec.uri.as_slice())? {
            None => Ok(None),
            Some(key) => match self.good_copy(&key, now) {
                Some(copy) => Ok(Some(copy.stamp)),
                None => Ok(None),
            },
        }
    }

    /// A TST arrives (RFC 2756, "TST"). The store keeps its order.
    pub(crate) fn htcp_tst(
        &self,
        from: Address,
        trans: u32,
        desired: bool,
        spec: &Specifier,
        now: u64,
    ) -> Result<Reply<T>, StepFault>
        ensures { (key_of : List ℕ → Option (List ℕ)) → GivesKeys key_of →
            Leads (datagrams.htcp_tst (setting_of self.now key_of)
            self.now.state from trans desired spec.now now)
            self.now.state result self.now.state }
    {
        if !desired {
            return Ok(quiet(self.alloc));
        }
        if !self.answers_to(Udp::Htcp, from) {
            return Ok(sends(overall_answer(from, trans, TST, NOT_ALLOWED)));
        }
        let stamp = self.stamp_meant(spec, now)?;
        Ok(sends(tst_answer(self.alloc, from, trans, stamp)?))
    }

    /// An ICP message other than QUERY arrives. It counts for the round of its request number, if
    /// the request there has its key.
    pub(crate) fn icp_told(
        &mut self,
        from: Address,
        message: &Icp,
        now: u64,
        mark: T,
    ) -> Result<Reply<T>, StepFault>
        ensures same { IsSameNode self.old self.new }
        ensures leads { (key_of : List ℕ → Option (List ℕ)) → GivesKeys key_of →
            Leads (datagrams.icp_told (setting_of self.old key_of)
            self.old.state from message.now now mark) self.old.state result self.new.state }
    {
        let Some(place) = self.pending.of_round(message.number) else {
            return Ok(quiet(self.alloc));
        };
        let key = &self.pending.ask(place).ask.key;
        let is_of_key = has_key(self.alloc, message.url.as_slice(), key)?;
        if is_of_key {
            let heard = SaidWithStamp::of(icp_said(message.op));
            self.told(place, Udp::Icp, from, heard, now, mark)
        } else {
            Ok(quiet(self.alloc))
        }
    }

    /// A response to a TST arrives. It counts for the round whose serial is its TRANS-ID.
    pub(crate) fn htcp_told(
        &mut self,
        from: Address,
        trans: u32,
        heard: SaidWithStamp,
        now: u64,
        mark: T,
    ) -> Result<Reply<T>, StepFault>
        ensures same { IsSameNode self.old self.new }
        ensures leads { (key_of : List ℕ → Option (List ℕ)) →
            Leads (datagrams.htcp_told (setting_of self.old key_of) self.old.state from trans
            (said_by heard) now mark) self.old.state result self.new.state }
    {
        match self.pending.of_round(trans) {
            Some(place) => self.told(place, Udp::Htcp, from, heard, now, mark),
            None => Ok(quiet(self.alloc)),
        }
    }

    /// An answer arrives for the round of the request at a place. It counts if it is a peer's
    /// first, and comes by the protocol and from the address by which that peer is queried.
    fn told(
        &mut self,
        place: usize,
        by: Udp,
        from: Address,
        heard: SaidWithStamp,
        now: u64,
        mark: T,
    ) -> Result<Reply<T>, StepFault>
        requires place { place < length self.old.state.pending }
        ensures same { IsSameNode self.old self.new }
        ensures leads { (key_of : List ℕ → Option (List ℕ)) →
            IfSome (slice_get self.old.state.pending place) (λ p.
            Leads (datagrams.told_to (setting_of self.old key_of) self.old.state by from
            (said_by heard) now mark (Some p)) self.old.state result self.new.state) }
    {
        let Some(round) = &self.pending.ask(place).round else {
            return Ok(quiet(self.alloc));
        };
        match peer_at(&self.roster, by, from, round) {
            Some(peer) if !has_answered(round, peer.id) => {
                let mut round = round.copy();
                round.answer(peer.id, heard.by(peer));
                self.round_moves(place, round.copy(), now, mark)
            }
            _ => Ok(quiet(self.alloc)),
        }
    }
}
