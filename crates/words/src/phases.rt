// The phases of a trading day, the stages of a call, and how a strike ends.
ghost use Rattle.std.specs.Prelude.{◌≡◌};
ghost use Rattle.words.specs.Codes.{phase_code, stage_code, strike_result_code};
ghost use Rattle.words.specs.Phases.{phase_kind};

#[derive(Clone, Copy, Debug, PartialEq, Eq)]
pub enum Phase {
    OpeningCall = 1,
    Continuous = 2,
    InterruptionCall = 3,
    ClosingCall = 4,
    Ended = 5,
}

// What phases have in common: orders gather in a call, and trade as they come in continuous trading.
#[derive(Clone, Copy, Debug, PartialEq, Eq)]
pub enum PhaseKind {
    Call,
    Continuous,
}

// How far a call has come: a price outside the ranges extends it once, and one outside the wider ranges then holds it.
#[derive(Clone, Copy, Debug, PartialEq, Eq)]
pub enum Stage {
    First = 1,
    Extended = 2,
    Held = 3,
}

// How a strike or a release ends.
#[derive(Clone, Copy, Debug, PartialEq, Eq)]
pub enum StrikeResult {
    Executed = 1,
    NoPrice = 2,
    Extended = 3,
    Held = 4,
}

impl From<Phase> for u8 {
    ghost from_gives = { λ phase code. code ≡ phase_code phase };

    fn from(phase: Phase) -> u8 {
        phase as u8
    }
}

impl Phase {
    // Whether it is a call or continuous trading; the ended day is neither.
    pub fn kind(self) -> Option<PhaseKind>
        ensures { result ≡ phase_kind self }
    {
        match self {
            Phase::OpeningCall | Phase::InterruptionCall | Phase::ClosingCall => {
                Some(PhaseKind::Call)
            }
            Phase::Continuous => Some(PhaseKind::Continuous),
            Phase::Ended => None,
        }
    }
}

impl From<Stage> for u8 {
    ghost from_gives = { λ stage code. code ≡ stage_code stage };

    fn from(stage: Stage) -> u8 {
        stage as u8
    }
}

impl From<StrikeResult> for u8 {
    ghost from_gives = { λ how code. code ≡ strike_result_code how };

    fn from(how: StrikeResult) -> u8 {
        how as u8
    }
}
