// How a command ended.
ghost use Rattle.std.specs.Prelude.{◌≡◌};
ghost use Rattle.qc_protocol.specs.Statuses.{status_code};

/// How a command ended (docs/RULES.md, "The program"). The variants stand in the order of their
/// numbers, from 0, which are the exit statuses of the program.
#[derive(Clone, Copy, Debug, PartialEq, Eq)]
pub enum Status {
    /// The command was carried out.
    Done,
    /// The words are no command.
    BadWords,
    /// The source failed.
    SourceFault,
    /// The sink failed.
    SinkFault,
    /// The site failed.
    SiteFault,
    /// The header of a file differs.
    NotMade,
    /// The journal has no open group.
    NoCatalogue,
    /// The site is made already.
    AlreadyMade,
    /// The text is no valid catalogue.
    BadCatalogue,
    /// The files stand for no history.
    Damaged,
    /// More than 2^32 bytes were given.
    InputLong,
    /// There was no memory.
    NoMemory,
    /// The door failed.
    DoorFault,
    /// A thread could not be started.
    SpawnFault,
}

impl Status {
    /// The exit status.
    pub fn code(self) -> u8
        ensures { result ≡ status_code self }
    {
        match self {
            Status::Done => 0,
            Status::BadWords => 1,
            Status::SourceFault => 2,
            Status::SinkFault => 3,
            Status::SiteFault => 4,
            Status::NotMade => 5,
            Status::NoCatalogue => 6,
            Status::AlreadyMade => 7,
            Status::BadCatalogue => 8,
            Status::Damaged => 9,
            Status::InputLong => 10,
            Status::NoMemory => 11,
            Status::DoorFault => 12,
            Status::SpawnFault => 13,
        }
    }

    /// The same value again.
    pub fn copy(&self) -> Status
        ensures { result ≡ self.now }
    {
        *self
    }
}
