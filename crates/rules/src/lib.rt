//! The rules of every call, as definitions, with their proofs.
#![tactic(auto)]

ghost use Rattle.rules.specs.Laws.{StaysSound};
ghost use Rattle.rules.specs.Examples.{Examples};
ghost use Rattle.rules.specs.SessionExamples.{SessionExamples};
ghost use Rattle.rules.specs.SendingExamples.{SendingExamples};

/// Carries the worked runs of a reader.
#[tactic(auto, unfolding(hex_digits::specs::Digits::length_field))]
pub fn reader_examples_hold()
    ensures { Examples }
{}

/// Carries the worked runs of a session.
pub fn session_examples_hold()
    ensures { SessionExamples }
{}

/// Carries the worked runs of sending.
pub fn sending_examples_hold()
    ensures { SendingExamples }
{}

/// Carries the theorem that a reader stops only at a marker of its stop set.
pub fn readers_stay_sound()
    ensures { StaysSound }
{}
