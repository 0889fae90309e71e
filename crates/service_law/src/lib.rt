//! The law of a service, as definitions, with its proofs.
#![tactic(auto)]

ghost use Rattle.rules.specs.Handlers.{quiet, strict, log};
ghost use Rattle.service_law.specs.Law.{LawHolds, LawIsExact, CallsFixed, RunsFixed};

/// Carries the law, at each of the handlers: it holds of every service, after its making and after each call.
#[tactic(auto, using(crate::proofs::Logs::holds_of_every))]
pub fn service_law_holds()
    ensures of_quiet { LawHolds quiet }
    ensures of_strict { LawHolds strict }
    ensures of_log { LawHolds log }
{}

/// Carries the converse of the law, at each of the handlers: a log of which the law holds is that of a service, which ends in the same state.
#[tactic(auto, using(crate::proofs::Exact::is_exact))]
pub fn service_law_is_exact()
    ensures of_quiet { LawIsExact quiet }
    ensures of_strict { LawIsExact strict }
    ensures of_log { LawIsExact log }
{}

/// Carries the theorem that the calls are deterministic, at each of the handlers.
pub fn calls_are_fixed()
    ensures of_quiet { CallsFixed quiet }
    ensures of_strict { CallsFixed strict }
    ensures of_log { CallsFixed log }
{}

/// Carries the same of lists of calls, at each of the handlers.
pub fn runs_are_fixed()
    ensures of_quiet { RunsFixed quiet }
    ensures of_strict { RunsFixed strict }
    ensures of_log { RunsFixed log }
{}
