//! What the traces of sources and of sinks share: their steps, and the count of what is left.
#![tactic(auto)]

ghost use Rattle.std.specs.Prelude.{◌≡◌, ◌≤◌, map};
ghost use Rattle.traces.specs.Steps.{step_of_pair};
ghost use Rattle.traces.specs.Counts.{steps_left};

use links::FaultNumber;

/// A step of a trace.
#[derive(Clone, Copy, Debug, PartialEq, Eq, Hash)]
pub enum Step {
    /// So many bytes, or those left.
    Bytes(usize),
    /// An interruption.
    Interruption,
    /// The fault of a number.
    Fault(FaultNumber),
}

/// How much is left of what is to come from a source or from a sink.
#[derive(Clone, Copy, Debug, Default, PartialEq, Eq, Hash)]
pub struct Left {
    /// How many bytes.
    pub bytes: usize,
    /// How many interruptions.
    pub interruptions: usize,
    /// How many faults.
    pub faults: usize,
}

impl From<[u8; 2]> for Step {
    ghost from_gives = { λ pair s. s ≡ step_of_pair pair };

    /// The step of a kind and an amount.
    ///
    /// Kind 0 is that many bytes, kind 2 the fault of that number, and any other kind an interruption.
    fn from(pair: [u8; 2]) -> Step {
        let [kind, amount] = pair;
        match kind {
            0 => Step::Bytes(usize::from(amount)),
            2 => Step::Fault(amount),
            _ => Step::Interruption,
        }
    }
}

impl Left {
    /// What steps come to, where there are `room` bytes for them.
    pub fn of_steps(room: usize, steps: &[[u8; 2]]) -> Left
        ensures is { result ≡ steps_left room (map step_of_pair steps.now) }
        ensures within { result.bytes ≤ room }
    {
        let mut left = Left::default();
        let mut free = room;
        for step in steps {
            match Step::from(*step) {
                Step::Bytes(n) => {
                    let size = n.min(free);
                    left.bytes += size;
                    free -= size;
                }
                Step::Interruption => left.interruptions += 1,
                Step::Fault(_) => left.faults += 1,
            }
        }
        left
    }
}
