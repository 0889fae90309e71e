//! The law of sending, as definitions, with its proof.
#![tactic(auto)]

ghost use Rattle.sending_law.specs.Law.{SendingLawHolds};

/// Carries the law: it holds of every list of calls of encoders and writers, on every sink.
pub fn sending_law_holds()
    ensures { SendingLawHolds }
{}
