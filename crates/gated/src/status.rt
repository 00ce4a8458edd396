ghost use Rattle.std.specs.Prelude.{◌≡◌};
ghost use Rattle.gated.specs.Status.{code_of};

/// How the program ends.
#[derive(Clone, Copy)]
pub enum Status {
    Success,
    /// The command line was not understood, or asked for help.
    Usage,
    /// There is no store, or a damaged one, or one where a new one was to be made, or one without a next generation,
    /// or one that cannot be upgraded.
    NoStore,
    /// A device, the input or the output failed.
    Failed,
    OutOfMemory,
}

impl Status {
    /// The number that the program ends with.
    pub fn code(self) -> u8
        ensures { result ≡ code_of self }
    {
        match self {
            Status::Success => 0,
            Status::Usage => 2,
            Status::NoStore => 3,
            Status::Failed => 4,
            Status::OutOfMemory => 5,
        }
    }
}
