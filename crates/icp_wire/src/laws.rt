ghost use Rattle.std.specs.Prelude.{ℕ, ◌^◌, ◌<◌, List};
ghost use Rattle.values_plain.specs.Fields.{IsOctets};
ghost use Rattle.icp_wire.specs.declared.message.Icp.{Icp};
ghost use Rattle.icp_wire.specs.Grammar.{Spells};
ghost use Rattle.icp_wire.specs.Laws.{IsDecided};
ghost use Rattle.icp_wire.specs.Written.{Fits, written};

/// A law: octets spell exactly one message and have no fault, or have a first fault and spell no
/// message.
pub fn grammar_is_exact()
    ensures { (octets : List ℕ) → IsOctets octets → IsDecided octets }
{}

/// A law: the octets that are written for a message that fits spell it, so `decode` reads back what
/// `encode` wrote.
pub fn written_is_spelled()
    ensures { (message : Icp) → Fits message → message.number < 2 ^ 32 →
        Spells (written message) message }
{}
