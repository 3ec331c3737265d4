ghost use Rattle.std.specs.Prelude.{ℕ, List};
ghost use Rattle.values_plain.specs.Fields.{IsOctets};
ghost use Rattle.icp_wire.specs.Decoded.{IsDecoded};

/// A law: the function `decoded` gives the message that octets spell, and none exactly if they have
/// a fault. So `decode` gives `decoded`, memory aside.
pub fn decoded_is_exact()
    ensures { (octets : List ℕ) → IsOctets octets → IsDecoded octets }
{}
