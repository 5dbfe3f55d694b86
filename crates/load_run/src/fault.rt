//! Why a run of the program fails, and the status that it ends with then.

ghost use Rattle.std.specs.Prelude.{◌≡◌};

use load_options::fault::WordsFault;
use log_check::line_fault::LineFault;
use script_lines::fault::ScriptFault;
use script_replay::Stopped;
use std::alloc::AllocError;
use thiserror::Error;

/// Why the program ends without its answers. `Display` gives the words that the program prints for it.
#[derive(Debug, Drop, Error)]
pub enum ProgramFault {
    /// The words of the command line ask for nothing.
    #[error("{0}")]
    Words(WordsFault),
    /// The script gives no lines.
    #[error("{0}")]
    Script(ScriptFault),
    /// The input is no log: the line of this number, counted from 1, is the first bad one, for this reason.
    #[error("bad line {0}: {1}")]
    BadLogLine(u64, LineFault),
    /// A size is out of its range.
    #[error("refused 14 BadConfig")]
    BadConfig,
    /// A step of the line of this number, counted from 1, isn't legal.
    #[error("line {0}: a step is not legal")]
    IllegalLine(usize),
    /// A step of the boot's end isn't legal.
    #[error("end: a step is not legal")]
    IllegalEnd,
    /// The script can't be read.
    #[error("input failed")]
    Input,
    /// The answers can't be written.
    #[error("output failed")]
    Output,
    /// Memory ran out.
    #[error("no memory")]
    NoMemory(AllocError),
}

impl From<AllocError> for ProgramFault {
    ghost use Rattle.load_run.specs.declared.fault.ProgramFault.TheVariants.{NoMemory};

    ghost from_gives = { λ error fault. fault ≡ NoMemory error };

    fn from(error: AllocError) -> ProgramFault {
        ProgramFault::NoMemory(error)
    }
}

impl From<Stopped> for ProgramFault {
    ghost use Rattle.load_run.specs.Stopping.{fault_of_stop};

    ghost from_gives = { λ stopped fault. fault ≡ fault_of_stop stopped };

    fn from(stopped: Stopped) -> ProgramFault {
        match stopped {
            Stopped::NoMemory(error) => ProgramFault::NoMemory(error),
            Stopped::NotLegal(line) => ProgramFault::IllegalLine(line),
        }
    }
}

impl ProgramFault {
    ghost use Rattle.load_run.specs.Fault.{fault_status_of};

    /// The status that the program ends with: 2 if it was used wrongly, 1 if it failed at its work.
    pub fn status(&self) -> u8
        ensures status { result ≡ fault_status_of self.now }
    {
        match self {
            ProgramFault::Words(WordsFault::BadWords(_))
            | ProgramFault::Script(ScriptFault::BadLine(_))
            | ProgramFault::BadLogLine(_, _)
            | ProgramFault::BadConfig => 2,
            ProgramFault::Words(WordsFault::NoMemory(_))
            | ProgramFault::Script(ScriptFault::NoMemory)
            | ProgramFault::IllegalLine(_)
            | ProgramFault::IllegalEnd
            | ProgramFault::Input
            | ProgramFault::Output
            | ProgramFault::NoMemory(_) => 1,
        }
    }
}
