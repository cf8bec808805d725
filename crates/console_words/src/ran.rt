// A run's three words.
ghost use Rattle.std.specs.Prelude.{◌≡◌, ℕ, List, [], ◌∷◌};
ghost use Rattle.std.proofs.lemmas.List.Edits.{sets};

use session::answer::Stop;

// Which stop, by number.
const ALLOWANCE: u64 = 0;

const END: u64 = 1;

const CALL: u64 = 2;

const REFUSAL: u64 = 3;

// Why a run stopped, as its words tell it.
pub trait Reason: Copy {
    ghost stop_number: { Self → ℕ };

    ghost refusal_of: { Self → ℕ };

    // Which stop, by number.
    fn stop_number(self) -> u64
        ensures { result ≡ stop_number self };

    // The refusal's number, or 0.
    fn refusal_of(self) -> u64
        ensures { result ≡ refusal_of self };
}

impl Reason for Stop {
    ghost use Rattle.session.specs.Answer.{stop_number, refusal_of};

    ghost stop_number = { stop_number };

    ghost refusal_of = { refusal_of };

    fn stop_number(self) -> u64 {
        match self {
            Stop::Allowance => ALLOWANCE,
            Stop::End => END,
            Stop::Call => CALL,
            Stop::Refusal(_) => REFUSAL,
        }
    }

    fn refusal_of(self) -> u64 {
        match self {
            Stop::Allowance => 0,
            Stop::End => 0,
            Stop::Call => 0,
            Stop::Refusal(refusal) => refusal.number(),
        }
    }
}

// A stop whose refusal may have any number.
#[derive(Clone, Copy)]
pub enum NumberedStop {
    Allowance,
    End,
    Call,
    Refusal(u64),
}

impl Reason for NumberedStop {
    ghost use Rattle.console_words.specs.NumberedStop.{stop_number, refusal_of};

    ghost stop_number = { stop_number };

    ghost refusal_of = { refusal_of };

    fn stop_number(self) -> u64 {
        match self {
            NumberedStop::Allowance => ALLOWANCE,
            NumberedStop::End => END,
            NumberedStop::Call => CALL,
            NumberedStop::Refusal(_) => REFUSAL,
        }
    }

    fn refusal_of(self) -> u64 {
        match self {
            NumberedStop::Allowance => 0,
            NumberedStop::End => 0,
            NumberedStop::Call => 0,
            NumberedStop::Refusal(number) => number,
        }
    }
}

// At `Stop` these are `ran_words` of specs/Ran.antt.
pub fn write_ran<R: Reason>(ran: &mut [u64; 3], steps: u64, stop: R)
    ensures { ran.new ≡ sets ran.old 0 (steps ∷ R.stop_number stop ∷ R.refusal_of stop ∷ []) }
{
    ran[0] = steps;
    ran[1] = stop.stop_number();
    ran[2] = stop.refusal_of();
}
