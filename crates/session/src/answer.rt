// What open, forward, back and run answer.
use journal::position::Position;
use tables::refusal::Refusal;
use type_rules::error::ProgramError;

// The first position; or a refusal, or 5 with the first type error.
pub type OpenAnswer = Result<Position, ProgramError>;

// The new position; or a refusal with the position as given.
pub type StepAnswer = Result<Position, (Refusal, Position)>;

// Why a run stopped: its allowance was taken, it came to the end or before a CALL, or the next step is refused.
#[derive(Clone, Copy)]
pub enum Stop {
    Allowance,
    End,
    Call,
    Refusal(Refusal),
}

// The steps taken, why no more, and the new position; or a refusal with the position as given.
pub type RunAnswer = Result<(u64, Stop, Position), (Refusal, Position)>;
