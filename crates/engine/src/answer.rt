// What a run answers.
ghost use Rattle.std.specs.Prelude.{◌≡◌};
ghost use Rattle.engine.specs.declared.answer.Halt.TheVariants.{Refused as IsRefused, Stopped as IsStopped};

use model::Question;

// A no stops the run: the question, the cycle, and the number of the slot in its row.
#[derive(Clone, Copy, PartialEq, Eq, Debug)]
pub struct Fault {
    pub question: Question,
    pub cycle: usize,
    pub slot: usize,
}

// Why a run is not begun.
#[derive(Clone, Copy, PartialEq, Eq, Debug)]
pub enum Refusal {
    // a class is not one of eight, or a latency or a busy time is above 8
    Timing,
    // a lent file has fewer entries than the scheme has registers
    Files,
    // the cycles, or the due cycles, do not fit 64 bits
    Cycles,
}

// Why there are no cycles to answer.
#[derive(Clone, Copy, PartialEq, Eq, Debug)]
pub enum Halt {
    Refused(Refusal),
    Stopped(Fault),
}

impl From<Refusal> for Halt {
    ghost from_gives = { λ e r. r ≡ IsRefused e };

    fn from(e: Refusal) -> Halt {
        Halt::Refused(e)
    }
}

impl From<Fault> for Halt {
    ghost from_gives = { λ e r. r ≡ IsStopped e };

    fn from(e: Fault) -> Halt {
        Halt::Stopped(e)
    }
}
