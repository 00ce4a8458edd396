//! Problems of the program, their lines and their statuses.

ghost use Rattle.std.specs.Prelude.{◌≡◌, codes, ◌++◌, OnOk, OnErr};
ghost use Rattle.std.specs.IoError.{error_kind, raw_os_error};
ghost use Rattle.std.specs.List.{flat_map};
ghost use Rattle.gated.specs.Telling.{HasLine};
ghost use Rattle.gated.specs.Problem.{text_of, line_of, reason_line, TellsAll, status_of, of_file_create, of_file_open, of_store_create, of_store, of_upgrade, of_serve, of_answer, of_listening, of_bind, of_clients};
ghost use Rattle.httpmsg.specs.Flow.{HasCause, Writes};

use crate::status::Status;
use clients::{BindFault, ClientsFault};
use std::io;
use store::{
    AnswerFault, Cause, CreateFault, Damage, Fault, FileCreateFault, OpenFault, Output, ServeFault,
    StreamFault, UpgradeFault, write_all,
};

/// Why the program did not do what it was asked.
#[derive(Clone, Copy)]
pub enum Problem {
    FileExists,
    NoStore,
    Damaged(Damage),
    /// The store's generation is the greatest one, so that no next one can be written.
    Exhausted,
    /// With the Namespaces of an upgrade there would be more objects than a store holds.
    TooManyObjects,
    /// The revision, or the generation, behind an upgrade would be above the greatest one.
    RevisionExhausted,
    /// The store is of the newest format already.
    AlreadyUpgraded,
    DeviceFailed,
    /// The input or the output failed.
    StreamFailed,
    /// The address is not listened on.
    ListenFailed(Cause),
    OutOfMemory,
}

impl Problem {
    /// What is told of it.
    pub fn text(self) -> &'static str
        ensures { result.now ≡ text_of self }
    {
        match self {
            Problem::FileExists => "file exists",
            Problem::NoStore => "no store",
            Problem::Damaged(Damage::Header) => "damaged: header",
            Problem::Damaged(Damage::Root) => "damaged: root",
            Problem::Damaged(Damage::Page) => "damaged: page",
            Problem::Damaged(Damage::Entry) => "damaged: entry",
            Problem::Damaged(Damage::Log) => "damaged: log",
            Problem::Damaged(Damage::Plan) => "damaged: plan",
            Problem::Exhausted => "generation exhausted",
            Problem::TooManyObjects => "too many objects",
            Problem::RevisionExhausted => "revision exhausted",
            Problem::AlreadyUpgraded => "already upgraded",
            Problem::DeviceFailed => "device failed",
            Problem::StreamFailed | Problem::ListenFailed(_) => "input or output failed",
            Problem::OutOfMemory => "out of memory",
        }
    }

    /// How the program then ends.
    pub fn status(self) -> Status
        ensures { result ≡ status_of self }
    {
        match self {
            Problem::FileExists | Problem::NoStore => Status::NoStore,
            Problem::Damaged(_) | Problem::Exhausted => Status::NoStore,
            Problem::TooManyObjects | Problem::RevisionExhausted => Status::NoStore,
            Problem::AlreadyUpgraded => Status::NoStore,
            Problem::DeviceFailed | Problem::StreamFailed => Status::Failed,
            Problem::ListenFailed(_) => Status::Failed,
            Problem::OutOfMemory => Status::OutOfMemory,
        }
    }
}

impl From<FileCreateFault> for Problem {
    ghost from_gives = { λ fault problem. problem ≡ of_file_create fault };

    fn from(fault: FileCreateFault) -> Problem {
        match fault {
            FileCreateFault::Exists => Problem::FileExists,
            FileCreateFault::Device => Problem::DeviceFailed,
            FileCreateFault::Memory => Problem::OutOfMemory,
        }
    }
}

impl From<OpenFault> for Problem {
    ghost from_gives = { λ fault problem. problem ≡ of_file_open fault };

    fn from(fault: OpenFault) -> Problem {
        match fault {
            OpenFault::Missing => Problem::NoStore,
            OpenFault::Device => Problem::DeviceFailed,
            OpenFault::Memory => Problem::OutOfMemory,
        }
    }
}

impl From<CreateFault> for Problem {
    ghost from_gives = { λ fault problem. problem ≡ of_store_create fault };

    fn from(fault: CreateFault) -> Problem {
        match fault {
            CreateFault::Device => Problem::DeviceFailed,
            CreateFault::NotEmpty => Problem::FileExists,
        }
    }
}

impl From<Fault> for Problem {
    ghost from_gives = { λ fault problem. problem ≡ of_store fault };

    fn from(fault: Fault) -> Problem {
        match fault {
            Fault::Device | Fault::Failed => Problem::DeviceFailed,
            Fault::Memory => Problem::OutOfMemory,
            Fault::Damaged(damage) => Problem::Damaged(damage),
            Fault::Exhausted => Problem::Exhausted,
        }
    }
}

impl From<UpgradeFault> for Problem {
    ghost from_gives = { λ fault problem. problem ≡ of_upgrade fault };

    fn from(fault: UpgradeFault) -> Problem {
        match fault {
            UpgradeFault::Device | UpgradeFault::Failed => Problem::DeviceFailed,
            UpgradeFault::Memory => Problem::OutOfMemory,
            UpgradeFault::Damaged(damage) => Problem::Damaged(damage),
            UpgradeFault::TooManyObjects => Problem::TooManyObjects,
            UpgradeFault::RevisionExhausted => Problem::RevisionExhausted,
            UpgradeFault::NotOld => Problem::AlreadyUpgraded,
        }
    }
}

impl From<ServeFault> for Problem {
    ghost from_gives = { λ fault problem. problem ≡ of_serve fault };

    fn from(fault: ServeFault) -> Problem {
        match fault {
            ServeFault::Read | ServeFault::Write => Problem::StreamFailed,
            ServeFault::Device | ServeFault::Failed => Problem::DeviceFailed,
            ServeFault::Memory => Problem::OutOfMemory,
            ServeFault::Damaged(damage) => Problem::Damaged(damage),
        }
    }
}

impl From<AnswerFault> for Problem {
    ghost from_gives = { λ fault problem. problem ≡ of_answer fault };

    fn from(fault: AnswerFault) -> Problem {
        match fault {
            AnswerFault::Opening(fault) => Problem::from(fault),
            AnswerFault::Serving(fault) => Problem::from(fault),
        }
    }
}

/// The problem that an address is not listened on, by the system's error.
pub fn not_listening(error: &io::Error) -> Problem
    ensures { result ≡ of_listening (raw_os_error error.now) (error_kind error.now) }
{
    match Cause::of(error) {
        Some(cause) => Problem::ListenFailed(cause),
        None => Problem::StreamFailed,
    }
}

impl From<BindFault> for Problem {
    ghost from_gives = { λ fault problem. problem ≡ of_bind fault };

    fn from(fault: BindFault) -> Problem {
        match fault {
            BindFault::System(error) => not_listening(&error),
            BindFault::Memory => Problem::OutOfMemory,
        }
    }
}

impl From<ClientsFault> for Problem {
    ghost from_gives = { λ fault problem. problem ≡ of_clients fault };

    fn from(fault: ClientsFault) -> Problem {
        match fault {
            ClientsFault::Network => Problem::StreamFailed,
            ClientsFault::Store(fault) => Problem::from(fault),
            ClientsFault::Compaction(fault) => Problem::from(fault),
        }
    }
}

/// Why a file or an address could not be had.
#[derive(Clone, Copy)]
pub struct Reason<'a> {
    /// The file, or the address, as it was asked for.
    pub name: &'a str,
    pub cause: Cause,
}

/// Tells of a problem in a line, and of its reason, if there is one, in a second line, as far as they can be told, and gives the status to end with. It
/// takes no memory.
pub fn tell<E: Output>(problem: Problem, reason: Option<Reason<'_>>, errors: &mut E) -> Status
    ensures status { result ≡ status_of problem }
    ensures lines { TellsAll E.took E.failures errors.old errors.new (line_of problem ++ reason_line reason.entry) }
{
    // If standard error fails there is nowhere to report it.
    let _ = write_lines(errors, problem.text(), reason);
    problem.status()
}

/// Writes a text in a line to the output.
pub fn print<O: Output>(output: &mut O, text: &str) -> Result<(), Problem>
    ensures line { OnOk result (HasLine O.took output.old output.new text.now) }
    ensures refusal { OnErr result (result ≡ Err Problem.StreamFailed) }
{
    if write_all(output, text.as_bytes()).is_err() {
        return Err(Problem::StreamFailed);
    }
    write_all(output, b"\n").map_err(|_| Problem::StreamFailed)
}

// Writes the line of a problem, and the line of its reason, if there is one.
fn write_lines<E: Output>(
    errors: &mut E,
    text: &str,
    reason: Option<Reason<'_>>,
) -> Result<(), StreamFault>
    ensures writes { Writes E.took errors.old errors.new (codes "gated: " ++ text.now ++ codes "\n" ++ reason_line reason.entry) result }
    ensures cause { HasCause (E.failures errors.old) (E.failures errors.new) result }
{
    if let Err(fault) = write_line(errors, text) {
        return Err(fault);
    }
    write_reason(errors, reason)
}

// Writes the line of a reason, if there is one.
fn write_reason<E: Output>(errors: &mut E, reason: Option<Reason<'_>>) -> Result<(), StreamFault>
    ensures writes { Writes E.took errors.old errors.new (reason_line reason.entry) result }
    ensures cause { HasCause (E.failures errors.old) (E.failures errors.new) result }
{
    match reason {
        Some(Reason { name, cause }) => write_cause(errors, name, cause.text()),
        None => Ok(()),
    }
}

// Writes the program's name, the name of a file or an address, and why it could not be had, in a line.
fn write_cause<'a, E: Output>(
    errors: &mut E,
    name: &'a str,
    text: &'a str,
) -> Result<(), StreamFault>
    ensures writes { Writes E.took errors.old errors.new (codes "gated: " ++ (name.entry.now ++ (codes ": " ++ (text.entry.now ++ codes "\n")))) result }
    ensures cause { HasCause (E.failures errors.old) (E.failures errors.new) result }
{
    let pieces = [
        b"gated: ".as_slice(),
        name.as_bytes(),
        b": ".as_slice(),
        text.as_bytes(),
        b"\n".as_slice(),
    ];
    write_pieces(errors, &pieces)
}

// Writes the pieces, one after the other.
fn write_pieces<E: Output>(errors: &mut E, pieces: &[&[u8]]) -> Result<(), StreamFault>
    ensures writes { Writes E.took errors.old errors.new (flat_map (λ p. p.now) pieces.now) result }
    ensures cause { HasCause (E.failures errors.old) (E.failures errors.new) result }
{
    for piece in pieces {
        match write_all(errors, piece) {
            Ok(()) => {}
            Err(fault) => return Err(fault),
        }
    }
    Ok(())
}

// Writes the program's name and a text in a line.
fn write_line<E: Output>(errors: &mut E, text: &str) -> Result<(), StreamFault>
    ensures writes { Writes E.took errors.old errors.new (codes "gated: " ++ text.now ++ codes "\n") result }
    ensures cause { HasCause (E.failures errors.old) (E.failures errors.new) result }
{
    if let Err(fault) = write_all(errors, b"gated: ") {
        return Err(fault);
    }
    if let Err(fault) = write_all(errors, text.as_bytes()) {
        return Err(fault);
    }
    write_all(errors, b"\n")
}
