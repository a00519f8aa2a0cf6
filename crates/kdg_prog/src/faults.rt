ghost use Rattle.std.specs.Prelude.{◌≡◌};
ghost use Rattle.kdg_prog.specs.declared.status.Status.TheVariants.{NoMemory};
ghost use Rattle.kdg_prog.specs.Refusals.{AnswersBegin, AnswersRead, AnswersReader, AnswersRounds, AnswersSerial};

use crate::Status;
use app_laws::SerialFault;
use graph_update::BeginFault;
use kdg_text::{NoRoom, ReadFail};
use outer_edge::ReadAllFault;
use source_pool::RunFault;

impl From<NoRoom> for Status {
    ghost from_gives = { λ _ answer. answer ≡ NoMemory };

    fn from(_: NoRoom) -> Status {
        Status::NoMemory
    }
}

impl From<ReadAllFault> for Status {
    ghost from_gives = { AnswersRead };

    fn from(fault: ReadAllFault) -> Status {
        match fault {
            ReadAllFault::ReadFault => Status::ReadFault,
            ReadAllFault::TooLarge => Status::TooLarge {
                line: 0,
                bound: crate::inputs::INPUT_BOUND,
            },
            ReadAllFault::NoRoom => Status::NoMemory,
        }
    }
}

impl From<ReadFail> for Status {
    ghost from_gives = { AnswersReader };

    fn from(refusal: ReadFail) -> Status {
        match refusal {
            ReadFail::Bad(fault) => Status::of_fault(&fault),
            ReadFail::NoRoom => Status::NoMemory,
        }
    }
}

impl From<SerialFault> for Status {
    ghost from_gives = { AnswersSerial };

    fn from(fault: SerialFault) -> Status {
        match fault {
            SerialFault::Budget { created, limit } => Status::Budget { created, limit },
            SerialFault::NoRoom => Status::NoMemory,
        }
    }
}

impl From<BeginFault> for Status {
    ghost from_gives = { AnswersBegin };

    fn from(fault: BeginFault) -> Status {
        match fault {
            BeginFault::Budget { asked, limit } => Status::Budget {
                created: asked,
                limit,
            },
            BeginFault::NoRoom => Status::NoMemory,
        }
    }
}

impl From<RunFault> for Status {
    ghost from_gives = { AnswersRounds };

    fn from(fault: RunFault) -> Status {
        match fault {
            RunFault::Budget { created, limit } => Status::Budget { created, limit },
            RunFault::NoRoom => Status::NoMemory,
        }
    }
}
