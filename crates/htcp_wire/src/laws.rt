ghost use Rattle.std.specs.Prelude.{◌≡◌, ℕ, ◌^◌, ◌<◌, List};
ghost use Rattle.values_plain.specs.Fields.{IsOctets};
ghost use Rattle.htcp_wire.specs.declared.message.Htcp.{Htcp};
ghost use Rattle.htcp_wire.specs.Grammar.{Spells};
ghost use Rattle.htcp_wire.specs.Laws.{IsDecided};
ghost use Rattle.htcp_wire.specs.Lines.{AreLines};
ghost use Rattle.htcp_wire.specs.Numbers.{lines_of};
ghost use Rattle.htcp_wire.specs.Written.{Fits, written};

/// A law: octets spell exactly one message and have no fault, or have a first fault and spell no
/// message.
pub fn grammar_is_exact()
    ensures { (octets : List ℕ) → IsOctets octets → IsDecided octets }
{}

/// A law: the octets that are written for a message that fits spell it, so `decode` reads back what
/// `encode` wrote.
pub fn written_is_spelled()
    ensures { (message : Htcp) → Fits message → message.trans < 2 ^ 32 →
        Spells (written message) message }
{}

/// A law: the lines in which `number_in` looks are lines of the text, and it has no others.
pub fn lines_are_exact()
    ensures made { (text : List ℕ) → AreLines text (lines_of text) }
    ensures alone { (text : List ℕ) (lines : List (List ℕ)) → AreLines text lines →
        lines ≡ lines_of text }
{}
