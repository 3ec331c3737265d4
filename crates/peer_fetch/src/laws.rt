//! Laws that join writing and reading. Each function does nothing; its contract states the law.
ghost use Rattle.std.specs.Prelude.{◌≡◌, ◌≢◌, ℕ, List, [], ◌++◌, length, Option, Some, Result};
ghost use Rattle.std.specs.Prelude.{IsTrue, MatchResult};
ghost use Rattle.http_messages.specs.Answer.{AnswerText};
ghost use Rattle.http_messages.specs.declared.ask.Ask.{Ask};
ghost use Rattle.http_messages.specs.declared.fault.FetchFault.{FetchFault};
ghost use Rattle.http_writing.specs.declared.ask.AskForm.{AskForm};
ghost use Rattle.http_writing.specs.Ask.{ask_text};
ghost use Rattle.http_writing.specs.Answer.{answer_text};
ghost use Rattle.http_writing.specs.Name.{is_name as names_cache};
ghost use Rattle.http_reading.specs.Asks.{SpellsHead, SpellsAsk, ReadsAsk};
ghost use Rattle.http_reading.specs.Answers.{SpellsAnswer, ReadsAnswer};
ghost use Rattle.http_reading.specs.declared.framing.Framing.TheVariants.{ToEnd};
ghost use Rattle.peer_fetch.specs.Writable.{IsWritableAsk, IsWritableAnswer};
ghost use Rattle.peer_fetch.specs.Reading.{StopsInAskText, StopsInAnswerText};

/// A law: the text of a request, in either form of its target, spells that request.
pub fn written_asks_are_spelled()
    ensures { (form : AskForm) (ask : Ask) (via : List ℕ) → IsWritableAsk ask →
        IsTrue (names_cache via) →
        SpellsAsk (ask_text form ask via) ask }
{}

/// A law: the head of a request makes one request or has one first fault, and no such head is a
/// proper front of another.
pub fn asks_have_no_proper_front()
    ensures { (octets more : List ℕ) (said other : Result Ask FetchFault) → SpellsHead octets said →
        SpellsHead (octets ++ more) other →
        (more ≡ []) × (said ≡ other) }
{}

/// A law: an input that begins with the text of a request is read as that request, whatever
/// follows and in however many calls, or reading fails with `Io` or `NoMemory`.
pub fn written_asks_are_read_back()
    ensures { (form : AskForm) (ask : Ask) (via rest : List ℕ) (reader : Option (List ℕ))
        (result : Result Ask FetchFault) → IsWritableAsk ask → IsTrue (names_cache via) →
        let input = ask_text form ask via ++ rest in
        ReadsAsk (Some input) reader result →
        MatchResult result (λ read. read ≡ ask) StopsInAskText }
{}

/// A law: the text of a response spells that response, whatever follows.
pub fn written_answers_are_spelled()
    ensures { (answer : AnswerText) (via rest : List ℕ) → IsWritableAnswer answer →
        IsTrue (names_cache via) →
        SpellsAnswer (answer_text answer via ++ rest) (length (answer_text answer via)) answer }
{}

/// A law: octets spell at most one response, with one end, whatever follows, unless its body goes
/// up to the end of the input.
pub fn answers_have_no_proper_front()
    ensures { (octets more : List ℕ) (end last : ℕ) (answer other : AnswerText)
        (spelled : SpellsAnswer octets end answer) → spelled.told.framing ≢ Some ToEnd →
        SpellsAnswer (octets ++ more) last other →
        (last ≡ end) × (other ≡ answer) }
{}

/// A law: an input that begins with the text of a response is read as that response, whatever
/// follows, wherever at most 70,000 calls of the reader give all of the text; or reading fails with
/// `Io` or `NoMemory`. `TooManyTurns` comes only where 70,000 calls gave fewer octets than the text
/// has.
pub fn written_answers_are_read_back()
    ensures { (answer : AnswerText) (via rest : List ℕ) (reader : Option (List ℕ))
        (result : Result AnswerText FetchFault) → IsWritableAnswer answer →
        IsTrue (names_cache via) →
        let input = answer_text answer via ++ rest in
        (reads : ReadsAnswer (Some input) reader result) →
        MatchResult result (λ read. read ≡ answer)
        (StopsInAnswerText (answer_text answer via) reads.held) }
{}
