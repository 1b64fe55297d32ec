ghost use Rattle.std.specs.Prelude.{◌≡◌};
ghost use Rattle.audit_wire_ask.specs.Sending.{refusal_word};

use audit_wire::Refusal;

/// The name of a refusal, which the program prints after its number.
pub fn word_of_refusal(refusal: Refusal) -> &'static str
    ensures { result.now ≡ refusal_word refusal }
{
    match refusal {
        Refusal::DamagedLog => "DamagedLog",
        Refusal::Full => "Full",
        Refusal::NoSuchVersion => "NoSuchVersion",
        Refusal::Worn => "Worn",
        Refusal::Device => "Device",
        Refusal::Closed => "Closed",
        Refusal::NotAllowed => "NotAllowed",
        Refusal::NotCounted => "NotCounted",
        Refusal::Malformed => "Malformed",
    }
}
