//! The octets read so far of one message, and the search for heads in them.
ghost use Rattle.std.specs.Prelude.{◌≡◌, ◌+◌, ◌*◌, ◌<◌, ◌≤◌, length, drop, vec_len, max, OnOk};
ghost use Rattle.std.specs.Prelude.{OnErr, IfOk, IfErr, IsErrOf};
ghost use Rattle.std.specs.Io.KnownBytes.{IsAtEnd};
ghost use Rattle.httparse.specs.Grammar.{NeverHasRequest, NeverHasResponse};
ghost use Rattle.httparse.specs.Spans.{IsRequestOf, IsRequestWithin, IsResponseOf};
ghost use Rattle.httparse.specs.Spans.{IsResponseWithin};
ghost use Rattle.http_intake.specs.Reading.{Held, nothing_held, Takes, most_turns, calls_made};
ghost use Rattle.http_intake.specs.Reading.{IsReadFault};
ghost use Rattle.http_intake.specs.Heads.{head_window, longest_head, longest_read, most_fields};
ghost use Rattle.http_intake.specs.Heads.{IsLongRequest, IsLongResponse, IsOpenRequest};
ghost use Rattle.http_intake.specs.Heads.{IsOpenResponse, IsHeadFault};

use crate::head_end::LONGEST_HEAD;
use crate::head_watch::HeadWatch;
use crate::heads::{judge_request, judge_response};
use crate::piece::read_piece;
use http_messages::FetchFault;
use httparse::Status;
use httparse::spans::{HeaderSpan, RequestSpans, ResponseSpans};
use std::alloc::Global;
use std::io::Read;
use std::marker::Model;

/// The octets read so far of one message, and the number of calls of the reader that gave them: at
/// most 70,000, each of 1 to 4,096 octets. A contract sees both (`Held`).
#[derive(Drop)]
pub struct Intake {
    octets: Vec<u8>,
    turns: u32,
}

impl Model for Intake {
    ghost Value = { Held };

    ghost view = { λ i. record { octets = i.octets.items; calls = i.turns } };

    ghost invariant = { λ i. (i.turns ≤ 70000) × (i.turns ≤ vec_len i.octets)
        × (vec_len i.octets ≤ 4096 * i.turns) };
}

impl Intake {
    /// An intake for a message of which nothing was read. It does not allocate.
    pub fn new(alloc: Global) -> Intake
        ensures { result ≡ nothing_held }
    {
        Intake {
            octets: Vec::new(alloc),
            turns: 0,
        }
    }

    /// The octets read so far, at most 4,096 per call of the reader.
    pub fn octets(&self) -> &[u8]
        ensures value { result.now ≡ self.now.octets }

        // 70,000 calls of at most 4,096 octets.
        ensures short { length result.now ≤ 286720000 }
        ensures few { self.now.calls ≤ most_turns }
        ensures each { self.now.calls ≤ length self.now.octets }
    {
        self.octets.as_slice()
    }

    /// The number of calls of the reader that gave octets, 1 to 4,096 each.
    pub fn calls(&self) -> u32
        ensures value { result ≡ self.now.calls }
        ensures few { result ≤ most_turns }
        ensures each { result ≤ length self.now.octets }
        ensures short { length self.now.octets ≤ 4096 * result }
    {
        self.turns
    }

    /// The octets, and the number of calls of the reader that gave them.
    pub(crate) fn into_parts(self) -> (Vec<u8>, u32)
        ensures octets { result.0.items ≡ self.octets }
        ensures len { vec_len result.0 ≡ length self.octets }
        ensures calls { result.1 ≡ self.calls }
        ensures few { result.1 ≤ most_turns }
        ensures each { result.1 ≤ length self.octets }
    {
        (self.octets, self.turns)
    }

    /// The octets from `start` on, at most 16,384: where a head may stand.
    pub fn window(&self, start: usize) -> &[u8]
        requires { start ≤ length self.now.octets }
        ensures value { result.now ≡ head_window start self.now.octets }
        ensures short { length result.now ≤ longest_head }
        ensures inside { start + length result.now ≤ length self.now.octets }
        ensures room { length self.now.octets ≤ 286720000 }
        ensures few { self.now.calls ≤ most_turns }
        ensures each { self.now.calls ≤ length self.now.octets }
    {
        let (_, rest) = self.octets().split_at(start);
        if rest.len() <= LONGEST_HEAD {
            rest
        } else {
            &rest[..LONGEST_HEAD]
        }
    }

    /// Calls the reader once, and keeps what it gave: 1 to 4,096 octets, or none after a fault.
    pub(crate) fn read_more<R: Read>(&mut self, reader: &mut R) -> Result<(), FetchFault>
        ensures taken { Takes (R.remaining reader.old) (R.remaining reader.new) self.old self.new }
        ensures kept { OnErr result (self.new ≡ self.old) }
        ensures turn { OnOk result (self.new.calls ≡ self.old.calls + 1) }
        ensures grown { OnOk result (length self.old.octets < length self.new.octets) }
        ensures piece { length self.new.octets ≤ length self.old.octets + 4096 }
        ensures short { length self.new.octets ≤ 286720000 }
        ensures few { self.new.calls ≤ most_turns }
        ensures each { self.new.calls ≤ length self.new.octets }
        ensures last { IfErr result (λ fault. calls_made fault self.new.calls ≤ most_turns) }
        ensures spent { IsErrOf result FetchFault.TooManyTurns → self.new.calls ≡ most_turns }
        ensures ended { IsErrOf result FetchFault.EndOfInput → IsAtEnd (R.remaining reader.new) }
        ensures faults { IfErr result IsReadFault }
    {
        read_piece(&mut self.octets, &mut self.turns, reader)
    }

    /// Reads until the octets from `start` on must be parsed again.
    pub(crate) fn read_until_due<R: Read>(
        &mut self,
        reader: &mut R,
        start: usize,
        watch: &mut HeadWatch,
    ) -> Result<(), FetchFault>
        requires { start ≤ length self.old.octets }
        ensures taken { Takes (R.remaining reader.old) (R.remaining reader.new) self.old self.new }
        ensures grown { OnOk result (length self.old.octets < length self.new.octets) }
        ensures no_more { length self.new.octets
            ≤ max (length self.old.octets) (start + longest_head) + 4096 }
        ensures short { length self.new.octets ≤ 286720000 }
        ensures few { self.new.calls ≤ most_turns }
        ensures each { self.new.calls ≤ length self.new.octets }
        ensures last { IfErr result (λ fault. calls_made fault self.new.calls ≤ most_turns) }
        ensures spent { IsErrOf result FetchFault.TooManyTurns → self.new.calls ≡ most_turns }
        ensures ended { IsErrOf result FetchFault.EndOfInput → IsAtEnd (R.remaining reader.new) }
        ensures faults { IfErr result IsReadFault }
    {
        'pieces: loop {
            match self.read_more(reader) {
                Ok(()) => {}
                Err(fault) => return Err(fault),
            }
            if watch.is_due(self.window(start)) {
                return Ok(());
            }
        }
    }

    /// Reads until a head of a request stands at `start`, and gives the places of its parts,
    /// counted from `start`. A head has at most 16,384 octets and 64 fields. At most 20,480 octets
    /// from `start` on are read. After a fault too, the octets read stay in the intake.
    ///
    /// Errors, the first two before the others. One case is late: a target that is not UTF-8 is
    /// refused only once the target has ended.
    ///
    /// - `BadHead`: no octets that follow can make it a head;
    /// - `HeadTooLong`: it has more than 16,384 octets or 64 fields;
    /// - `EndOfInput`: the input ended before the head did;
    /// - `TooManyTurns`: the head would need a call beyond 70,000;
    /// - `Io`: a call failed;
    /// - `NoMemory`: there was no memory for more octets.
    pub fn read_request_head<R: Read>(
        &mut self,
        reader: &mut R,
        start: usize,
        headers: &mut [HeaderSpan],
    ) -> Result<RequestSpans, FetchFault>
        requires start { start ≤ length self.old.octets }
        requires room { length headers.old ≡ most_fields }
        ensures taken { Takes (R.remaining reader.old) (R.remaining reader.new) self.old self.new }
        ensures short { length self.new.octets ≤ 286720000 }
        ensures no_more { length self.new.octets
            ≤ max (length self.old.octets) (start + longest_read) }
        ensures head { IfOk result (IsRequestOf (head_window start self.new.octets) headers.new) }
        ensures within { IfOk result
            (IsRequestWithin (head_window start self.new.octets) headers.new) }
        ensures inside { IfOk result (λ head. start + head.len ≤ length self.new.octets) }
        ensures bad { IsErrOf result FetchFault.BadHead
            → NeverHasRequest (head_window start self.new.octets) }
        ensures long { IsErrOf result FetchFault.HeadTooLong
            → IsLongRequest (head_window start self.new.octets) }
        ensures open { IfErr result (λ fault. IsReadFault fault →
            IsOpenRequest (drop start self.new.octets)) }
        ensures ended { IsErrOf result FetchFault.EndOfInput → IsAtEnd (R.remaining reader.new) }
        ensures few { self.new.calls ≤ most_turns }
        ensures each { self.new.calls ≤ length self.new.octets }
        ensures last { IfErr result (λ fault. calls_made fault self.new.calls ≤ most_turns) }
        ensures spent { IsErrOf result FetchFault.TooManyTurns → self.new.calls ≡ most_turns }
        ensures faults { IfErr result IsHeadFault }
    {
        let mut watch = HeadWatch::new(self.window(start).len(), true);
        'parses: loop {
            match judge_request(self.window(start), headers) {
                Ok(Status::Complete(head)) => return Ok(head),
                Ok(Status::Partial) => {}
                Err(fault) => return Err(fault),
            }
            match self.read_until_due(reader, start, &mut watch) {
                Ok(()) => {}
                Err(fault) => return self.judge_cut_request(start, headers, fault),
            }
        }
    }

    /// The result for the head of a request where reading failed with `fault`: the head if the
    /// octets hold one, a refusal of the parser, or `fault`.
    fn judge_cut_request(
        &self,
        start: usize,
        headers: &mut [HeaderSpan],
        fault: FetchFault,
    ) -> Result<RequestSpans, FetchFault>
        requires start { start ≤ length self.now.octets }
        requires room { length headers.old ≡ most_fields }
        requires fault { IsReadFault fault }
        ensures head { IfOk result (IsRequestOf (head_window start self.now.octets) headers.new) }
        ensures within { IfOk result
            (IsRequestWithin (head_window start self.now.octets) headers.new) }
        ensures inside { IfOk result (λ head. start + head.len ≤ length self.now.octets) }
        ensures bad { IsErrOf result FetchFault.BadHead
            → NeverHasRequest (head_window start self.now.octets) }
        ensures long { IsErrOf result FetchFault.HeadTooLong
            → IsLongRequest (head_window start self.now.octets) }
        ensures cut { IfErr result (λ e. IsReadFault e → (e ≡ fault)
            × IsOpenRequest (drop start self.now.octets)) }
        ensures faults { IfErr result IsHeadFault }
    {
        match judge_request(self.window(start), headers) {
            Ok(Status::Complete(head)) => Ok(head),
            Ok(Status::Partial) => Err(fault),
            Err(refusal) => Err(refusal),
        }
    }

    /// Reads until a head of a response stands at `start`, and gives the places of its parts,
    /// counted from `start`. A head has at most 16,384 octets and 64 fields. At most 20,480 octets
    /// from `start` on are read. After a fault too, the octets read stay in the intake.
    ///
    /// Errors, the first two before the others.
    ///
    /// - `BadHead`: no octets that follow can make it a head;
    /// - `HeadTooLong`: it has more than 16,384 octets or 64 fields;
    /// - `EndOfInput`: the input ended before the head did;
    /// - `TooManyTurns`: the head would need a call beyond 70,000;
    /// - `Io`: a call failed;
    /// - `NoMemory`: there was no memory for more octets.
    pub fn read_response_head<R: Read>(
        &mut self,
        reader: &mut R,
        start: usize,
        headers: &mut [HeaderSpan],
    ) -> Result<ResponseSpans, FetchFault>
        requires start { start ≤ length self.old.octets }
        requires room { length headers.old ≡ most_fields }
        ensures taken { Takes (R.remaining reader.old) (R.remaining reader.new) self.old self.new }
        ensures short { length self.new.octets ≤ 286720000 }
        ensures no_more { length self.new.octets
            ≤ max (length self.old.octets) (start + longest_read) }
        ensures head { IfOk result (IsResponseOf (head_window start self.new.octets) headers.new) }
        ensures within { IfOk result
            (IsResponseWithin (head_window start self.new.octets) headers.new) }
        ensures inside { IfOk result (λ head. start + head.len ≤ length self.new.octets) }
        ensures bad { IsErrOf result FetchFault.BadHead
            → NeverHasResponse (head_window start self.new.octets) }
        ensures long { IsErrOf result FetchFault.HeadTooLong
            → IsLongResponse (head_window start self.new.octets) }
        ensures open { IfErr result (λ fault. IsReadFault fault →
            IsOpenResponse (drop start self.new.octets)) }
        ensures ended { IsErrOf result FetchFault.EndOfInput → IsAtEnd (R.remaining reader.new) }
        ensures few { self.new.calls ≤ most_turns }
        ensures each { self.new.calls ≤ length self.new.octets }
        ensures last { IfErr result (λ fault. calls_made fault self.new.calls ≤ most_turns) }
        ensures spent { IsErrOf result FetchFault.TooManyTurns → self.new.calls ≡ most_turns }
        ensures faults { IfErr result IsHeadFault }
    {
        let mut watch = HeadWatch::new(self.window(start).len(), true);
        'parses: loop {
            match judge_response(self.window(start), headers) {
                Ok(Status::Complete(head)) => return Ok(head),
                Ok(Status::Partial) => {}
                Err(fault) => return Err(fault),
            }
            match self.read_until_due(reader, start, &mut watch) {
                Ok(()) => {}
                Err(fault) => return self.judge_cut_response(start, headers, fault),
            }
        }
    }

    /// The result for the head of a response where reading failed with `fault`: the head if the
    /// octets hold one, a refusal of the parser, or `fault`.
    fn judge_cut_response(
        &self,
        start: usize,
        headers: &mut [HeaderSpan],
        fault: FetchFault,
    ) -> Result<ResponseSpans, FetchFault>
        requires start { start ≤ length self.now.octets }
        requires room { length headers.old ≡ most_fields }
        requires fault { IsReadFault fault }
        ensures head { IfOk result (IsResponseOf (head_window start self.now.octets) headers.new) }
        ensures within { IfOk result
            (IsResponseWithin (head_window start self.now.octets) headers.new) }
        ensures inside { IfOk result (λ head. start + head.len ≤ length self.now.octets) }
        ensures bad { IsErrOf result FetchFault.BadHead
            → NeverHasResponse (head_window start self.now.octets) }
        ensures long { IsErrOf result FetchFault.HeadTooLong
            → IsLongResponse (head_window start self.now.octets) }
        ensures cut { IfErr result (λ e. IsReadFault e → (e ≡ fault)
            × IsOpenResponse (drop start self.now.octets)) }
        ensures faults { IfErr result IsHeadFault }
    {
        match judge_response(self.window(start), headers) {
            Ok(Status::Complete(head)) => Ok(head),
            Ok(Status::Partial) => Err(fault),
            Err(refusal) => Err(refusal),
        }
    }
}
