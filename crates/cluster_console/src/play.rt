//! The lines of an input, answered by a running hierarchy.
ghost use Rattle.std.specs.Prelude.{◌≡◌, ◌≤◌, ◌&&◌, ◌++◌, [], ◌∷◌, ℕ, List, OnOk, IfErr, false};
ghost use Rattle.std.specs.Prelude.{true, MatchBool, vec_capacity};
ghost use Rattle.roster.specs.Lookups.{is_member as is_member_of};
ghost use Rattle.purge_rules.specs.Purges.{AreNumbered};
ghost use Rattle.values_lines.specs.Lines.{is_long};
ghost use Rattle.cluster_console.specs.Answering.{AppendsText, AnswersLine, AnswersTaken};
ghost use Rattle.cluster_console.specs.Answering.{HasAnswered, is_over as is_over_by, ending_of};
ghost use Rattle.cluster_console.specs.Checked.{GoesOn};
ghost use Rattle.cluster_console.specs.Command.{command_text};
ghost use Rattle.cluster_console.specs.Played.{IsSaid, IsTold, TellsPurge, TellsAdmission};
ghost use Rattle.cluster_console.specs.Played.{TellsStatus, MemberTells, TellsEach};
ghost use Rattle.cluster_console.specs.Played.{TellsAnswer, TellsCheck, TellsPending, TellsMembers};
ghost use Rattle.cluster_console.specs.Played.{TellsPeers, TellsRefused, CountTells, GetTells};
ghost use Rattle.cluster_console.specs.Played.{CommandTells, LineTells};
ghost use Rattle.cluster_console.specs.Played.{http_of as http_of_member};
ghost use Rattle.cluster_console.specs.Shown.{is_in as is_in_purges};
ghost use Rattle.cluster_console.specs.Shown.{is_outside as is_outside_member};

use crate::check::Checker;
use crate::input::{InputFailed, LONGEST_LINE, LineRead, next_line};
use crate::line::{Line, line_of};
use crate::show::{
    push_admission, push_asked, push_checked, push_got, push_member, push_number, push_peers,
    push_pending, push_purge, push_refused, stands,
};
use cluster_fetch::exchange;
use cluster_master::{MasterSender, SharedMaster};
use cluster_streams::StreamPoll;
use http_messages::{Answer, Ask, FetchFault};
use http_writing::AskForm;
use purge_rules::{MasterAnswer, MasterCall, MasterFault, Nodes, PurgeStore, Purges, Status};
use roster::{LAST_MEMBER, Roster};
use std::alloc::{AllocError, Global};
use std::io::{BufReader, Read, Write};
use std::net::Net;
use std::sync::Wait;
use std::time::Clock;
use url_key::{Key, KeyFault};
use values_lines::words_of;
use values_plain::{Address, write_text};

/// The line that ends the input: no line after it is answered.
const QUIT: &[u8] = b"quit";

/// The name under which a member is asked.
const CLIENT: &[u8] = b"client";

/// For how many octets of an answer there is memory from the start. The number of a purge that was
/// issued needs no more.
const SHORT_ANSWER: usize = 4_096;

/// How the answering of an input ended.
#[derive(Clone, Copy, Debug, PartialEq, Eq)]
pub enum Ended {
    /// There was no memory to begin with. No line was read.
    NoMemory,
    /// The input was at its end before the first line.
    NoLine,
    /// Each line was answered, and each answer written.
    Answered,
    /// Each line was answered, and not each answer could be written.
    OutputFailed,
    /// The input could not be read any more. The lines before that were answered.
    InputFailed,
}

/// What answers the lines: the master, its sender, who judges the run, and the poll of a client.
#[derive(Drop)]
struct Player<'a, S: PurgeStore, C, R> {
    rt: &'a R,
    roster: &'a Roster,
    master: &'a SharedMaster<S>,
    sender: &'a MasterSender,
    checker: C,
    poll: StreamPoll,
}

/// Answers the lines of an input before its first line `quit`, by the running master and members of
/// a roster. Where there is no such line, all lines are answered. Each is answered before the next
/// one is taken, by one line or by several. There may be any number of lines.
///
/// The lines: `purge URL` issues a purge and prints `purge P`, the fault of a URL that has no key,
/// or that of the master; `admit N` admits member N, which joins, and prints `admitted P` or the
/// fault of the master; `status P` prints `pending C`, `done P` or `unknown`, or the fault of the
/// master; `get N URL` asks member N over HTTP, as a client, and prints the status and the body in
/// hex (`-` where it is empty), or the name of the fault; `check` has the run so far judged, and
/// prints `yes`, `no PLACE CAUSE`, `forgotten`, or why the records of a member are not given;
/// `pending` prints `purges C`, and then a line for each pending admission and purge: its number,
/// `admission` or its URL, and the ids of the members that it needs and that have not acknowledged
/// it; `members` prints `members C`, and then a line for each: its id, and `open`, `outside`,
/// `closed StoreFault` or `closed NoMemory`; `peers` prints `peers C`, and then a line `N P dead S`
/// for each peer P that member N has thought dead for S seconds; `refused` prints `refused C`, and
/// then a line `N R` for each member: its id, and how many requests it has answered by a 503 of its
/// own. Any other line, also one that names no member, prints `bad line`. Numbers are decimal,
/// without leading zeros.
///
/// A line of more than 140,000 octets prints `LineTooLong`, and one for which there is no memory
/// `NoMemory`: a purge may have been issued then. An answer that the output does not take is lost.
/// After each of these the next line is answered. A read that the system puts off is made again.
///
/// The checker comes back with what it has gathered, also where nothing was answered.
pub fn answer_lines<
    S: PurgeStore,
    C: Checker + Drop,
    R: Wait + Clock + Net,
    I: Read + Drop,
    O: Write,
>(
    rt: &R,
    alloc: Global,
    roster: &Roster,
    master: &SharedMaster<S>,
    sender: &MasterSender,
    checker: C,
    poll: StreamPoll,
    input: I,
    output: &mut O,
) -> (C, Ended)
    ensures { HasAnswered roster.now (C.gathered checker) (I.remaining input)
        (O.contents output.old) (O.contents output.new) result.1 (C.gathered result.0) }
{
    let mut player = Player {
        rt,
        roster,
        master,
        sender,
        checker,
        poll,
    };
    let ended = player.answer_input(alloc, input, output);
    (player.checker, ended)
}

/// Writes a text, and returns whether the output took all of it.
fn write_answer<O: Write>(output: &mut O, text: &[u8]) -> bool
    ensures { AppendsText (O.contents output.old) (O.contents output.new) result text.now }
{
    write_text(output, text).is_ok()
}

/// Whether both hold.
fn both(first: bool, second: bool) -> bool
    ensures { result ≡ first && second }
{
    first && second
}

/// Whether what was taken ends the lines: the end of the input, or `quit`.
fn is_over(taken: LineRead, line: &[u8]) -> bool
    ensures { result ≡ is_over_by taken line.now }
{
    match taken {
        LineRead::Line => line == QUIT,
        LineRead::TooLong => false,
        LineRead::End => true,
    }
}

/// How a run ended whose lines this has ended.
fn ending(taken: LineRead, is_first: bool, is_whole: bool) -> Ended
    ensures { result ≡ ending_of taken is_first is_whole }
{
    match taken {
        LineRead::End if is_first => Ended::NoLine,
        LineRead::Line | LineRead::TooLong | LineRead::End => {
            if is_whole {
                Ended::Answered
            } else {
                Ended::OutputFailed
            }
        }
    }
}

impl<S: PurgeStore, C: Checker, R: Wait + Clock + Net> Player<'_, S, C, R> {
    /// Answers the lines of an input, as [`answer_lines`] says.
    fn answer_input<I: Read + Drop, O: Write>(
        &mut self,
        alloc: Global,
        input: I,
        output: &mut O,
    ) -> Ended
        ensures { HasAnswered self.old.roster.now (C.gathered self.old.checker) (I.remaining input)
            (O.contents output.old) (O.contents output.new) result (C.gathered self.new.checker) }
    {
        let Ok(mut input) = BufReader::new(alloc, input) else {
            return Ended::NoMemory;
        };
        let Ok(mut line) = Vec::with_capacity(alloc, LONGEST_LINE + 1) else {
            return Ended::NoMemory;
        };
        let Ok(mut text) = Vec::with_capacity(alloc, SHORT_ANSWER) else {
            return Ended::NoMemory;
        };
        self.answer_all(alloc, &mut input, &mut line, &mut text, output)
    }

    /// Answers the lines of an input. `line` and `text` are where a line and its answer stand.
    fn answer_all<I: Read, O: Write>(
        &mut self,
        alloc: Global,
        input: &mut I,
        line: &mut Vec<u8>,
        text: &mut Vec<u8>,
        output: &mut O,
    ) -> Ended
        requires { 140001 ≤ vec_capacity line.old }
        ensures { HasAnswered self.old.roster.now (C.gathered self.old.checker)
            (I.remaining input.old) (O.contents output.old) (O.contents output.new) result
            (C.gathered self.new.checker) }
    {
        let rt = self.rt;
        let mut is_whole = true;
        let mut is_first = true;
        'lines: for _ in rt.forever() {
            let taken = match next_line(rt, input, line) {
                Ok(taken) => taken,
                Err(InputFailed) => return Ended::InputFailed,
            };
            if is_over(taken, line.as_slice()) {
                return ending(taken, is_first, is_whole);
            }
            let written = self.answer_taken(alloc, taken, line.as_slice(), text, output);
            is_whole = both(is_whole, written);
            is_first = false;
        }
        unreachable!()
    }

    /// Answers what was taken, and returns whether the output took the whole answer.
    fn answer_taken<O: Write>(
        &mut self,
        alloc: Global,
        taken: LineRead,
        line: &[u8],
        text: &mut Vec<u8>,
        output: &mut O,
    ) -> bool
        ensures answered { AnswersTaken self.old.roster.now (C.gathered self.old.checker) taken
            line.now (O.contents output.old) (O.contents output.new) result
            (C.gathered self.new.checker) }
        ensures roster { self.new.roster.now ≡ self.old.roster.now }
    {
        match taken {
            LineRead::Line => self.answer_line(alloc, line, text, output),
            LineRead::TooLong => write_answer(output, b"LineTooLong\n"),
            LineRead::End => true,
        }
    }

    /// Answers a line, and returns whether the output took the whole answer.
    fn answer_line<O: Write>(
        &mut self,
        alloc: Global,
        line: &[u8],
        text: &mut Vec<u8>,
        output: &mut O,
    ) -> bool
        ensures answered { is_long line.now ≡ false →
            AnswersLine self.old.roster.now (C.gathered self.old.checker) line.now
            (O.contents output.old) (O.contents output.new) result
            (C.gathered self.new.checker) }
        ensures roster { self.new.roster.now ≡ self.old.roster.now }
    {
        text.clear();
        match self.tell_line(alloc, line, text) {
            Ok(()) => write_answer(output, text.as_slice()),
            Err(AllocError) => write_answer(output, b"NoMemory\n"),
        }
    }

    /// Appends the answer to a line, with LF behind it.
    #[tactic(auto, using(crate::proofs::Gathering::goes_on))]
    fn tell_line(
        &mut self,
        alloc: Global,
        line: &[u8],
        text: &mut Vec<u8>,
    ) -> Result<(), AllocError>
        ensures told { OnOk result ((answer : List ℕ)
            × LineTells self.old.roster.now (C.gathered self.new.checker) line.now answer
            × (text.new.items ≡ text.old.items ++ (answer ++ 10 ∷ []))) }
        ensures goes_on { GoesOn (C.gathered self.old.checker) (C.gathered self.new.checker) }
        ensures roster { self.new.roster.now ≡ self.old.roster.now }
    {
        let words = words_of(alloc, line)?;
        self.tell(alloc, line_of(words.as_slice()), text)?;
        text.push(b'\n')?;
        Ok(())
    }
}

impl<S: PurgeStore, C: Checker, R: Wait + Clock + Net> Player<'_, S, C, R> {
    /// Answers what a line asks for.
    #[tactic(auto, using(crate::proofs::Gathering::goes_on))]
    fn tell(&mut self, alloc: Global, line: Line<'_>, text: &mut Vec<u8>) -> Result<(), AllocError>
        ensures told { OnOk result ((answer : List ℕ)
            × CommandTells self.old.roster.now (C.gathered self.new.checker)
            (command_text line.entry) answer × (text.new.items ≡ text.old.items ++ answer)) }
        ensures goes_on { GoesOn (C.gathered self.old.checker) (C.gathered self.new.checker) }
        ensures roster { self.new.roster.now ≡ self.old.roster.now }
    {
        match line {
            Line::Purge { url } => self.purge(alloc, url, text),
            Line::Admit { node } => self.admit(node, text),
            Line::Status { number } => self.status(number, text),
            Line::Get { node, url } => self.get(alloc, node, url, text),
            Line::Check => self.check(alloc, text),
            Line::Pending => self.pending(text),
            Line::Members => self.members(text),
            Line::Peers => self.peers(alloc, text),
            Line::Refused => self.refused(text),
            Line::Bad => text.extend_from_slice(b"bad line"),
        }
    }

    /// Answers `purge URL`.
    fn purge(&self, alloc: Global, url: &[u8], text: &mut Vec<u8>) -> Result<(), AllocError>
        ensures { OnOk result ((answer : List ℕ) × IsSaid TellsPurge url.now answer
            × (text.new.items ≡ text.old.items ++ answer)) }
    {
        match Key::read(alloc, url) {
            Ok(key) => {
                let issued = self.sender.issue(self.rt, self.roster, self.master, key);
                push_purge(issued, text)
            }
            Err(KeyFault::NoMemory) => Err(AllocError),
            Err(fault) => text.extend_from_slice(fault.name().as_bytes()),
        }
    }

    /// Answers `admit N`.
    fn admit(&self, node: u8, text: &mut Vec<u8>) -> Result<(), AllocError>
        ensures { OnOk result ((answer : List ℕ) × TellsAdmission answer
            × (text.new.items ≡ text.old.items ++ answer)) }
    {
        let admitted = self.sender.admit(self.rt, self.roster, self.master, node);
        push_admission(admitted, text)
    }

    /// Answers `status P`.
    fn status(&self, number: u32, text: &mut Vec<u8>) -> Result<(), AllocError>
        ensures { OnOk result ((answer : List ℕ) × TellsStatus number answer
            × (text.new.items ≡ text.old.items ++ answer)) }
    {
        push_asked(number, self.asked(number), text)
    }

    /// How far a number is.
    fn asked(&self, number: u32) -> Result<Status, MasterFault>
        ensures { IfErr result IsTold }
    {
        match self.master.call(self.rt, MasterCall::Status(number)) {
            Ok(MasterAnswer::Status(status)) => Ok(status),
            Ok(_) => unreachable!(),
            Err(fault) => Err(fault),
        }
    }

    /// Answers `check`.
    fn check(&mut self, alloc: Global, text: &mut Vec<u8>) -> Result<(), AllocError>
        ensures told { OnOk result ((answer : List ℕ)
            × TellsCheck self.old.roster.now (C.gathered self.new.checker) answer
            × (text.new.items ≡ text.old.items ++ answer)) }
        ensures goes_on { GoesOn (C.gathered self.old.checker) (C.gathered self.new.checker) }
        ensures roster { self.new.roster.now ≡ self.old.roster.now }
    {
        let checked = self.checker.check(self.rt, alloc, self.roster)?;
        push_checked(checked, text)
    }

    /// Answers `pending`.
    fn pending(&self, text: &mut Vec<u8>) -> Result<(), AllocError>
        ensures { OnOk result ((answer : List ℕ) × TellsPending self.now.roster.now answer
            × (text.new.items ≡ text.old.items ++ answer)) }
    {
        let purges = self.master.purges(self.rt)?;
        push_pending(&Nodes::of(self.roster), &purges, text)
    }

    /// Answers `members`.
    fn members(&self, text: &mut Vec<u8>) -> Result<(), AllocError>
        ensures { OnOk result ((answer : List ℕ) × TellsMembers self.now.roster.now answer
            × (text.new.items ≡ text.old.items ++ answer)) }
    {
        let purges = self.master.purges(self.rt)?;
        are_numbered(&purges);
        self.tell_members(&purges, text)
    }

    /// Writes how many members there are, and how each stands.
    fn tell_members(&self, purges: &Purges, text: &mut Vec<u8>) -> Result<(), AllocError>
        ensures { OnOk result ((answer : List ℕ)
            × TellsEach self.now.roster.now purges.now answer
            × (text.new.items ≡ text.old.items ++ answer)) }
    {
        text.extend_from_slice(b"members ")?;
        push_number(self.roster.members().len() as u64, text)?;
        for place in 0..LAST_MEMBER {
            self.member(purges, place + 1, text)?;
        }
        Ok(())
    }

    /// Writes how the member of this id stands, if there is one.
    fn member(&self, purges: &Purges, id: u8, text: &mut Vec<u8>) -> Result<(), AllocError>
        ensures { OnOk result (MatchBool (is_member_of self.now.roster.now id)
            (MemberTells self.now.roster.now purges.now id text.old.items text.new.items)
            (text.new.items ≡ text.old.items)) }
    {
        if !self.roster.is_member(id) {
            return Ok(());
        }
        let is_outside = is_outside(self.roster, purges, id);
        push_member(id, stands(is_outside, self.checker.state(id)), text)
    }

    /// Answers `peers`.
    fn peers(&self, alloc: Global, text: &mut Vec<u8>) -> Result<(), AllocError>
        ensures { OnOk result ((answer : List ℕ) × TellsPeers answer
            × (text.new.items ≡ text.old.items ++ answer)) }
    {
        let dead = self.checker.dead_peers(self.rt, alloc)?;
        push_peers(dead.as_slice(), text)
    }

    /// Answers `get N URL`.
    fn get(
        &mut self,
        alloc: Global,
        node: u8,
        url: &[u8],
        text: &mut Vec<u8>,
    ) -> Result<(), AllocError>
        ensures told { OnOk result ((answer : List ℕ)
            × GetTells self.old.roster.now node url.now answer
            × (text.new.items ≡ text.old.items ++ answer)) }
        ensures checker { self.new.checker ≡ self.old.checker }
        ensures roster { self.new.roster.now ≡ self.old.roster.now }
    {
        match http_of(self.roster, node) {
            Some(at) => self.get_at(alloc, at, url, text),
            None => text.extend_from_slice(b"bad line"),
        }
    }

    /// Answers `get N URL`, where member N serves HTTP at this address.
    fn get_at(
        &mut self,
        alloc: Global,
        at: Address,
        url: &[u8],
        text: &mut Vec<u8>,
    ) -> Result<(), AllocError>
        ensures told { OnOk result ((answer : List ℕ) × IsSaid TellsAnswer url.now answer
            × (text.new.items ≡ text.old.items ++ answer)) }
        ensures checker { self.new.checker ≡ self.old.checker }
        ensures roster { self.new.roster.now ≡ self.old.roster.now }
    {
        match Key::read(alloc, url) {
            Ok(key) => {
                let got = self.got(alloc, at, key);
                push_got(alloc, &got, text)
            }
            Err(KeyFault::NoMemory) => Err(AllocError),
            Err(fault) => text.extend_from_slice(fault.name().as_bytes()),
        }
    }

    /// Asks a member for a URL, as a client.
    fn got(&mut self, alloc: Global, at: Address, key: Key) -> Result<Answer, FetchFault>
        ensures checker { self.new.checker ≡ self.old.checker }
        ensures roster { self.new.roster.now ≡ self.old.roster.now }
    {
        let ask = Ask {
            key,
            only_if_cached: false,
            no_cache: false,
            member: None,
        };
        let poll = &mut self.poll;
        exchange(self.rt, alloc, poll, at, &ask, AskForm::Absolute, CLIENT)
    }
}

impl<S: PurgeStore, C: Checker, R> Player<'_, S, C, R> {
    /// Answers `refused`.
    fn refused(&self, text: &mut Vec<u8>) -> Result<(), AllocError>
        ensures { OnOk result ((answer : List ℕ) × TellsRefused self.now.roster.now answer
            × (text.new.items ≡ text.old.items ++ answer)) }
    {
        text.extend_from_slice(b"refused ")?;
        push_number(self.roster.members().len() as u64, text)?;
        for told in 0..LAST_MEMBER {
            self.count(told + 1, text)?;
        }
        Ok(())
    }

    /// Writes how many requests the member of this id has refused, if there is one.
    fn count(&self, id: u8, text: &mut Vec<u8>) -> Result<(), AllocError>
        ensures { OnOk result (MatchBool (is_member_of self.now.roster.now id)
            (CountTells id text.old.items text.new.items)
            (text.new.items ≡ text.old.items)) }
    {
        if self.roster.is_member(id) {
            push_refused(id, self.checker.refused(id), text)?;
        }
        Ok(())
    }
}

/// Whether the member of this id has an admission that is done.
fn is_in(purges: &Purges, id: u8) -> bool
    ensures { result ≡ is_in_purges purges.now id }
{
    purges
        .admissions()
        .iter()
        .any(|admission| admission.member == id && admission.is_done)
}

/// The numbers of purges and admissions ascend. It does nothing: its contract states what their
/// type guarantees.
fn are_numbered(purges: &Purges)
    ensures { AreNumbered purges.now }
{
    let _last = purges.last();
}

/// Whether the member of this id joins, and no admission of it is done.
fn is_outside(roster: &Roster, purges: &Purges, id: u8) -> bool
    requires { is_member_of roster.now id ≡ true }
    ensures { result ≡ is_outside_member roster.now purges.now id }
{
    !roster.is_founding(id) && !is_in(purges, id)
}

/// Where the member of this id serves HTTP.
fn http_of(roster: &Roster, id: u8) -> Option<Address>
    ensures { result ≡ http_of_member roster.now id }
{
    match roster.member(id) {
        Some(member) => Some(member.cache.http),
        None => None,
    }
}
