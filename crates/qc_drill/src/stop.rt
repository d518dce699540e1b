// Why a drill ends before the end of its source.
ghost use Rattle.std.specs.Prelude.{◌≡◌};
ghost use Rattle.qc_drill.specs.Stops.{status_of};

use qc_protocol::Status;

#[derive(Clone, Copy, Debug, PartialEq, Eq)]
pub enum Stop {
    SourceFault,
    SinkFault,
    SiteFault,
    InputLong,
    NoMemory,
}

impl Stop {
    pub(crate) fn status(self) -> Status
        ensures { result ≡ status_of self }
    {
        match self {
            Stop::SourceFault => Status::SourceFault,
            Stop::SinkFault => Status::SinkFault,
            Stop::SiteFault => Status::SiteFault,
            Stop::InputLong => Status::InputLong,
            Stop::NoMemory => Status::NoMemory,
        }
    }
}
