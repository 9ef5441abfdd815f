//! What a call came to that may be refused memory, and how each fault says that it was.
use c104_audit::AuditFault;
use c104_check::CheckFault;
use c104_describe::{PlanFault, PlanFaultKind};
use c104_event::EventFault;
use c104_label::LabelFault;
use c104_net::PlaceFault;
use c104_plan::ImageFault;
use c104_script::LineFault;
use c104_setup::Status;
use c104_stream::{Halt, ReadFault};
use c104_token::{NoMemory, TokenFault};
use c104_tools::LoadFault;
use c104_workers::{FabricFault, RunFault};
use std::alloc::AllocError;

/// What a call came to.
#[derive(Clone, Copy, PartialEq, Eq)]
pub enum Outcome {
    /// It did what it is for.
    Done,
    /// It was out of memory, and what it was lent is as it was before.
    NoMemory,
    /// It answered something else, or changed what it was lent.
    Wrong,
}

impl Outcome {
    /// What a call of this answer came to, if nothing was lent to it that it could change.
    pub fn of<T: Drop, F: Fault + Drop>(answer: Result<T, F>) -> Outcome {
        match answer {
            Ok(_) => Outcome::Done,
            Err(fault) => Outcome::of_fault(&fault),
        }
    }

    /// What a call came to that answered a fault.
    pub fn of_fault<F: Fault>(fault: &F) -> Outcome {
        if fault.is_no_memory() {
            Outcome::NoMemory
        } else {
            Outcome::Wrong
        }
    }

    /// The same of a call that may have changed something: whether that is as it was, or as it may be left.
    pub fn if_kept(self, is_kept: bool) -> Outcome {
        match self {
            Outcome::NoMemory if !is_kept => Outcome::Wrong,
            found => found,
        }
    }

    /// What a call came to that answers something only where it had memory. Nothing else keeps it from an answer.
    pub fn of_option<T: Drop>(answer: Option<T>) -> Outcome {
        match answer {
            Some(_) => Outcome::Done,
            None => Outcome::NoMemory,
        }
    }

    /// What a call came to that has nothing to be refused.
    pub fn done_if(is_as_ever: bool) -> Outcome {
        if is_as_ever {
            Outcome::Done
        } else {
            Outcome::Wrong
        }
    }

    /// What a command of this status came to. Out of memory the program ends with status 4.
    pub fn of_status(status: Status) -> Outcome {
        match status {
            Status::Done => Outcome::Done,
            Status::NoMemory if status.exit_code() == 4 => Outcome::NoMemory,
            _ => Outcome::Wrong,
        }
    }

    /// What a run came to that refuses nothing if it comes to its end.
    pub fn of_run(is_refused: Result<bool, Halt>) -> Outcome {
        match is_refused {
            Ok(false) => Outcome::Done,
            Err(Halt::NoMemory) => Outcome::NoMemory,
            _ => Outcome::Wrong,
        }
    }
}

/// What a call answers in place of what it is for.
pub trait Fault {
    /// Whether it says that the call was out of memory.
    fn is_no_memory(&self) -> bool;
}

impl Fault for NoMemory {
    fn is_no_memory(&self) -> bool {
        true
    }
}

impl Fault for AllocError {
    fn is_no_memory(&self) -> bool {
        true
    }
}

impl Fault for TokenFault {
    fn is_no_memory(&self) -> bool {
        *self == TokenFault::NoMemory
    }
}

impl Fault for PlanFault {
    fn is_no_memory(&self) -> bool {
        self.kind == PlanFaultKind::NoMemory
    }
}

impl Fault for ImageFault {
    fn is_no_memory(&self) -> bool {
        *self == ImageFault::NoMemory
    }
}

impl Fault for LabelFault {
    fn is_no_memory(&self) -> bool {
        *self == LabelFault::NoMemory
    }
}

impl Fault for CheckFault {
    fn is_no_memory(&self) -> bool {
        matches!(self, CheckFault::NoMemory)
    }
}

impl Fault for EventFault {
    fn is_no_memory(&self) -> bool {
        *self == EventFault::NoMemory
    }
}

impl Fault for PlaceFault {
    fn is_no_memory(&self) -> bool {
        *self == PlaceFault::NoMemory
    }
}

impl Fault for LoadFault {
    fn is_no_memory(&self) -> bool {
        *self == LoadFault::Port(EventFault::NoMemory)
    }
}

impl Fault for FabricFault {
    fn is_no_memory(&self) -> bool {
        *self == FabricFault::NoMemory
    }
}

impl Fault for RunFault {
    fn is_no_memory(&self) -> bool {
        match self {
            RunFault::Event(_, fault) => fault.is_no_memory(),
        }
    }
}

impl Fault for AuditFault {
    fn is_no_memory(&self) -> bool {
        *self == AuditFault::NoMemory
    }
}

impl Fault for ReadFault {
    fn is_no_memory(&self) -> bool {
        *self == ReadFault::NoMemory
    }
}

impl Fault for LineFault {
    fn is_no_memory(&self) -> bool {
        *self == LineFault::NoMemory
    }
}
