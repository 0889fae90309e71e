//! Trial logs of wrong services, with the proof that the laws hold of none of them.
#![tactic(auto)]

ghost use Rattle.counterexamples.specs.Trials.{NoTrialIsLawful};

/// Carries that the laws hold of none of these trial logs.
pub fn no_trial_is_lawful()
    ensures { NoTrialIsLawful }
{}
