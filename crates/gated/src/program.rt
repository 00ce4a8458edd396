//! The commands of the program.

ghost use Rattle.std.specs.Prelude.{◌≡◌, ◌≢◌, ◌⊎◌, ◌||◌, is_some, false, map, string_bytes, Err, IfOk, IfErr, OnOk, OnErr, IsErrOf};
ghost use Rattle.clap.specs.Words.{kind_of};
ghost use Rattle.names.specs.declared.format.Rules.{Rules};
ghost use Rattle.decoded.specs.Standing.{History};
ghost use Rattle.histories.specs.View.{view};
ghost use Rattle.durable.specs.declared.compacted.Compacted.{Compacted as CompactedData};
ghost use Rattle.durable.specs.declared.fault.Damage.{Damage};
ghost use Rattle.durable.specs.declared.upgraded.Upgraded.{Upgraded as UpgradedData};
ghost use Rattle.store.specs.Upkeep.{KeepsHistory, IsEither};
ghost use Rattle.gated.specs.declared.command.Verb.{Verb as VerbData};
ghost use Rattle.gated.specs.CommandLine.{AskFor, compacted_at, is_logged};
ghost use Rattle.clients.specs.Serving.{HasServedSome};
ghost use Rattle.gated.specs.Doing.{AnsweredAll, IsOpened, MadeStore, ServedAll, UpgradedStore, WroteAnew};
ghost use Rattle.gated.specs.Left.{HasAnsweredPart, HasLeft, HasLeftBy, HasMadeNone, HasServedPart, HasServedUntil, WasRefused};
ghost use Rattle.durable.specs.Settled.{IsSettledAt};
ghost use Rattle.gated.specs.Problem.{SaysNoMore, SaysWhy, Tells, TellsAll, reason_line};
ghost use Rattle.gated.specs.Opening.{MayTell, TellsDone, TellsFailed, TellsOpened};
ghost use Rattle.gated.specs.Telling.{HasLine, IsDone, compacted_text, upgraded_text};

use crate::checking::check;
use crate::command::{Serving, Verb, command};
use crate::listening::{serve_at_once, serve_one_by_one};
use crate::opening::{Found, passed_since, print_opened};
use crate::problem::{Problem, Reason, print, tell};
use crate::progress::{Progress, Watched};
use crate::status::Status;
use clap::Error;
use clap::error::ErrorKind;
use clients::Limits;
use std::alloc::{AllocError, Global};
use std::convert::AsStr;
use std::io;
use std::net::{Net, TcpListener, TcpStream};
use std::time::{Clock, Duration, Instant};
use store::{
    Compacted, Device, Format, Input, Output, Storage, Store, StreamFault, Upgraded, answer,
    compact as compact_store, create, upgrade as upgrade_store, write_all,
};

// Makes a store of a format in a new file. It allocates nothing, so it cannot run out of memory once there is a file. Where the store cannot be written, as on a
// full disk, the file is removed.
fn create_store<D: Device, S: Storage<D>>(
    storage: &S,
    file: &str,
    format: Format,
) -> Result<(), Problem>
    ensures made { OnOk result (MadeStore D.disk S.made S.opened S.closed storage.now file.now format) }
    ensures left { OnErr result (HasMadeNone D.disk S.missed S.made S.discarded storage.now file.now) }
    ensures no_such_store { IsErrOf result Problem.NoStore → ⊥ }
    ensures no_stream { IsErrOf result Problem.StreamFailed → ⊥ }
    ensures no_damage { (damage : Damage) → IsErrOf result (Problem.Damaged damage) → ⊥ }
{
    let mut device = storage.create(file)?;
    match create(&mut device, format) {
        Ok(()) => {
            storage.close(file, device);
            Ok(())
        }
        Err(fault) => {
            storage.discard(file, device);
            Err(Problem::from(fault))
        }
    }
}

// The store in a file.
fn open_store<D: Device, S: Storage<D>>(
    storage: &S,
    alloc: Global,
    file: &str,
) -> Result<Store<D>, Problem>
    ensures opened { IfOk result (λ store. IsOpened S.opened storage.now file.now store) }
    ensures left { OnErr result (HasLeft D.disk S.missed S.opened S.closed storage.now file.now (λ rules old new h. KeepsHistory rules D.disk old new h)) }
    ensures no_file_made { IsErrOf result Problem.FileExists → ⊥ }
    ensures no_stream { IsErrOf result Problem.StreamFailed → ⊥ }
{
    let device = storage.open(file)?;
    match Store::open(alloc, device) {
        Ok(store) => Ok(store),
        Err((fault, device)) => {
            storage.close(file, device);
            Err(Problem::from(fault))
        }
    }
}

// Answers the requests of an input against the store in a file.
fn replay<D: Device, S: Storage<D>, I: Input, O: Output>(
    storage: &S,
    alloc: Global,
    file: &str,
    input: &mut I,
    output: &mut O,
) -> Result<(), Problem>
    ensures answered { OnOk result (AnsweredAll D.disk S.made S.opened S.closed storage.now file.now I.gave O.took (I.has_ended input.new) input.old input.new output.old output.new) }
    ensures left { OnErr result (HasLeft D.disk S.missed S.opened S.closed storage.now file.now
        (HasAnsweredPart D.disk S.missed S.made S.opened S.closed S.discarded I.gave O.took O.failures storage.now input.old input.new output.old output.new)) }
    ensures no_file_made { IsErrOf result Problem.FileExists → ⊥ }
{
    let device = storage.open(file)?;
    match answer(alloc, device, input, output) {
        Ok(device) => {
            storage.close(file, device);
            Ok(())
        }
        Err((fault, device)) => {
            storage.close(file, device);
            Err(Problem::from(fault))
        }
    }
}

// What drops all that is written to it.
#[derive(Drop)]
struct Silent;

impl Output for Silent {
    ghost use Rattle.std.specs.Prelude.{⊤};

    ghost took = { λ old new bytes. ⊤ };

    ghost failures = { λ s. 0 };

    ghost took_none = { λ s. tt };

    ghost took_then = { λ old mid new front back first second. tt };

    fn write(&mut self, bytes: &[u8]) -> Result<usize, StreamFault> {
        Ok(bytes.len())
    }
}

// Listens, says so, and serves connections against a store. Messages are told of in the log where that is asked.
fn serve_store<
    D: Device,
    R: Net<Stream = TcpStream, Listener = TcpListener> + Clock,
    O: Output,
    L: Output,
>(
    net: &R,
    alloc: Global,
    address: &str,
    serving: Serving,
    idle_seconds: u32,
    is_logged: bool,
    store: &mut Store<D>,
    output: &mut O,
    log: &mut L,
) -> Result<(), Problem>
    ensures silent { (is_logged || is_some (compacted_at serving)) ≡ false → log.new ≡ log.old }
    ensures served { (rules : Rules) (h : History) → IsSettledAt rules store.old h → OnOk result (HasServedSome rules store.old store.new (view rules h)) }
    ensures stopped { (rules : Rules) (h : History) → IsSettledAt rules store.old h → OnErr result (HasServedUntil rules store.old store.new (view rules h)) }
{
    let idle = match idle_seconds {
        0 => None,
        seconds => Some(Duration::from_secs(u64::from(seconds))),
    };
    match serving {
        Serving::OneByOne { connections } => {
            serve_one_by_one(net, alloc, address, connections, idle, store, output)
        }
        Serving::AtOnce {
            at_once,
            connections,
            compact_at,
            is_kubernetes,
        } => {
            let limits = Limits {
                at_once,
                connections,
                idle,
                is_logged,
                compact_at,
                is_kubernetes,
            };
            if is_logged || compact_at.is_some() {
                serve_at_once(net, alloc, address, limits, store, output, log)
            } else {
                serve_at_once(net, alloc, address, limits, store, output, &mut Silent)
            }
        }
    }
}

// Tells of a store that was opened in this time, and serves connections against it.
fn serve_opened<
    D: Device,
    R: Net<Stream = TcpStream, Listener = TcpListener> + Clock,
    O: Output,
    E: Output,
    L: Output,
>(
    net: &R,
    alloc: Global,
    file: &str,
    passed: Duration,
    address: &str,
    serving: Serving,
    idle_seconds: u32,
    is_logged: bool,
    store: &mut Store<D>,
    output: &mut O,
    errors: &mut E,
    log: &mut L,
) -> Result<(), Problem>
    ensures silent { (is_logged || is_some (compacted_at serving)) ≡ false → log.new ≡ log.old }
    ensures told { OnOk result (TellsOpened E.took E.failures errors.old errors.new file.now) }
    ensures told_err { OnErr result ((errors.new ≡ errors.old) ⊎ TellsOpened E.took E.failures errors.old errors.new file.now) }
    ensures served { (rules : Rules) (h : History) → IsSettledAt rules store.old h → OnOk result (HasServedSome rules store.old store.new (view rules h)) }
    ensures stopped { (rules : Rules) (h : History) → IsSettledAt rules store.old h → OnErr result (HasServedUntil rules store.old store.new (view rules h)) }
{
    let found = Found::of(store);
    print_opened(alloc, file, &found, passed, errors)?;
    serve_store(
        net,
        alloc,
        address,
        serving,
        idle_seconds,
        is_logged,
        store,
        output,
        log,
    )
}

// The same against the store in a file.
fn serve_file<
    D: Device,
    S: Storage<D>,
    R: Net<Stream = TcpStream, Listener = TcpListener> + Clock,
    O: Output,
    E: Output,
    L: Output,
>(
    storage: &S,
    net: &R,
    alloc: Global,
    file: &str,
    address: &str,
    serving: Serving,
    idle_seconds: u32,
    is_logged: bool,
    output: &mut O,
    errors: &mut E,
    log: &mut L,
) -> Result<(), Problem>
    ensures silent { (is_logged || is_some (compacted_at serving)) ≡ false → log.new ≡ log.old }
    ensures told { OnOk result (TellsOpened E.took E.failures errors.old errors.new file.now) }
    ensures told_err { OnErr result ((errors.new ≡ errors.old) ⊎ TellsOpened E.took E.failures errors.old errors.new file.now) }
    ensures served { OnOk result (ServedAll D.disk S.made S.opened S.closed storage.now file.now) }
    ensures left { OnErr result (HasLeft D.disk S.missed S.opened S.closed storage.now file.now (λ rules old new h. HasServedPart rules D.disk old new h)) }
{
    let start = Instant::now(net);
    let mut store = open_store(storage, alloc, file)?;
    let served = serve_opened(
        net,
        alloc,
        file,
        passed_since(net, start),
        address,
        serving,
        idle_seconds,
        is_logged,
        &mut store,
        output,
        errors,
        log,
    );
    storage.close(file, store.into_device());
    served
}

// Tells of a generation that was written.
fn print_compacted<O: Output>(
    alloc: Global,
    compacted: &Compacted,
    output: &mut O,
) -> Result<(), Problem>
    ensures line { OnOk result (HasLine O.took output.old output.new (compacted_text compacted.now)) }
    ensures refusal { OnErr result (IsErrOf result Problem.StreamFailed ⊎ IsErrOf result Problem.OutOfMemory) }
{
    let Compacted {
        generation,
        pages,
        first_sector,
    } = *compacted;
    match format!(in alloc; "generation {generation}, {pages} pages at sector {first_sector}") {
        Ok(line) => print(output, line.as_str()),
        Err(_) => Err(Problem::OutOfMemory),
    }
}

// Writes what the store in a file shows as its next generation. When it ends, so does the line of its progress.
fn write_anew<D: Device, S: Storage<D>, P: Output + Drop>(
    storage: &S,
    alloc: Global,
    file: &str,
    progress: Option<P>,
) -> Result<Compacted, Problem>
    ensures written { IfOk result (λ c. WroteAnew D.disk S.made S.opened S.closed storage.now file.now c) }
    ensures left { OnErr result (HasLeft D.disk S.missed S.opened S.closed storage.now file.now (λ rules old new h. KeepsHistory rules D.disk old new h)) }
    ensures no_file_made { IsErrOf result Problem.FileExists → ⊥ }
    ensures no_stream { IsErrOf result Problem.StreamFailed → ⊥ }
{
    let device = storage.open(file)?;
    let watched = Watched::new(device, Progress::new(alloc, progress));
    match compact_store(alloc, watched) {
        Ok((compacted, watched)) => {
            storage.close(file, watched.into_device());
            Ok(compacted)
        }
        Err((fault, watched)) => {
            storage.close(file, watched.into_device());
            Err(Problem::from(fault))
        }
    }
}

// Writes what the store in a file shows as its next generation, and tells of it on the output.
fn compact<D: Device, S: Storage<D>, O: Output, P: Output + Drop>(
    storage: &S,
    alloc: Global,
    file: &str,
    output: &mut O,
    progress: Option<P>,
) -> Result<(), Problem>
    ensures done { OnOk result ((c : CompactedData) × WroteAnew D.disk S.made S.opened S.closed storage.now file.now c × HasLine O.took output.old output.new (compacted_text c)) }
    ensures left { OnErr result (HasLeft D.disk S.missed S.opened S.closed storage.now file.now (λ rules old new h. KeepsHistory rules D.disk old new h)) }
    ensures no_file_made { IsErrOf result Problem.FileExists → ⊥ }
{
    let compacted = write_anew(storage, alloc, file, progress)?;
    print_compacted(alloc, &compacted, output)
}

// Tells of a store that was upgraded.
fn print_upgraded<O: Output>(
    alloc: Global,
    upgraded: &Upgraded,
    output: &mut O,
) -> Result<(), Problem>
    ensures line { OnOk result (HasLine O.took output.old output.new (upgraded_text upgraded.now)) }
    ensures refusal { OnErr result (IsErrOf result Problem.StreamFailed ⊎ IsErrOf result Problem.OutOfMemory) }
{
    let Upgraded {
        format,
        generation,
        revision,
        namespaces,
    } = *upgraded;
    let number = format.number();
    match format!(in alloc;
        "format {number}, generation {generation}, revision {revision}, {namespaces} namespaces"
    ) {
        Ok(line) => print(output, line.as_str()),
        Err(_) => Err(Problem::OutOfMemory),
    }
}

// Upgrades the store in a file. When it ends, so does the line of its progress.
fn upgrade_file<D: Device, S: Storage<D>, P: Output + Drop>(
    storage: &S,
    alloc: Global,
    file: &str,
    progress: Option<P>,
) -> Result<Upgraded, Problem>
    ensures upgraded { IfOk result (λ u. UpgradedStore D.disk S.made S.opened S.closed storage.now file.now u) }
    ensures left { OnErr result (HasLeft D.disk S.missed S.opened S.closed storage.now file.now (λ rules old new h. IsEither rules D.disk old new h)) }
    ensures kept { IfErr result (λ problem. problem ≢ Problem.DeviceFailed → HasLeft D.disk S.missed S.opened S.closed storage.now file.now (λ rules old new h. KeepsHistory rules D.disk old new h)) }
    ensures no_file_made { IsErrOf result Problem.FileExists → ⊥ }
    ensures no_stream { IsErrOf result Problem.StreamFailed → ⊥ }
{
    let device = storage.open(file)?;
    let watched = Watched::new(device, Progress::new(alloc, progress));
    match upgrade_store(alloc, watched) {
        Ok((upgraded, watched)) => {
            storage.close(file, watched.into_device());
            Ok(upgraded)
        }
        Err((fault, watched)) => {
            storage.close(file, watched.into_device());
            Err(Problem::from(fault))
        }
    }
}

// Upgrades the store in a file, and tells of it on the output.
fn upgrade<D: Device, S: Storage<D>, O: Output, P: Output + Drop>(
    storage: &S,
    alloc: Global,
    file: &str,
    output: &mut O,
    progress: Option<P>,
) -> Result<(), Problem>
    ensures done { OnOk result ((u : UpgradedData) × UpgradedStore D.disk S.made S.opened S.closed storage.now file.now u × HasLine O.took output.old output.new (upgraded_text u)) }
    ensures left { OnErr result (HasLeft D.disk S.missed S.opened S.closed storage.now file.now (λ rules old new h. IsEither rules D.disk old new h)) }
    ensures no_file_made { IsErrOf result Problem.FileExists → ⊥ }
{
    let upgraded = upgrade_file(storage, alloc, file, progress)?;
    print_upgraded(alloc, &upgraded, output)
}

// Does what a verb asks for, and says how the program ends.
fn done<
    D: Device,
    S: Storage<D>,
    R: Net<Stream = TcpStream, Listener = TcpListener> + Clock,
    I: Input,
    O: Output,
    E: Output,
    P: Output + Drop,
    L: Output,
>(
    storage: &S,
    net: &R,
    alloc: Global,
    verb: Verb<'_>,
    input: &mut I,
    output: &mut O,
    errors: &mut E,
    progress: Option<P>,
    log: &mut L,
) -> Result<Status, Problem>
    ensures silent { is_logged verb.entry ≡ false → log.new ≡ log.old }
    ensures told { OnOk result (TellsDone E.took E.failures errors.old errors.new verb.entry) }
    ensures told_err { OnErr result (MayTell E.took E.failures errors.old errors.new verb.entry) }
    ensures done { IfOk result (λ status. IsDone D.disk S.made S.opened S.closed I.gave O.took I.has_ended storage.now input.old input.new output.old output.new verb.entry status) }
    ensures left { OnErr result (HasLeftBy D.disk S.missed S.made S.opened S.closed S.discarded I.gave O.took O.failures storage.now input.old input.new output.old output.new verb.entry) }
{
    match verb {
        Verb::Create { file, format } => create_store(storage, file, format)?,
        Verb::Replay { file } => replay(storage, alloc, file, input, output)?,
        Verb::Serve {
            file,
            address,
            serving,
            idle_seconds,
            is_logged,
        } => serve_file(
            storage,
            net,
            alloc,
            file,
            address,
            serving,
            idle_seconds,
            is_logged,
            output,
            errors,
            log,
        )?,
        Verb::Compact { file } => compact(storage, alloc, file, output, progress)?,
        Verb::Upgrade { file } => upgrade(storage, alloc, file, output, progress)?,
        Verb::Check { file } => return check(storage, alloc, file, output),
    }
    Ok(Status::Success)
}

// Why a verb was not done, as far as it is known: of its file what the storage says, of its address why it is not listened on.
fn reason_of<'a, D: Device, S: Storage<D>>(
    storage: &S,
    verb: Verb<'a>,
    problem: Problem,
) -> Option<Reason<'a>>
    ensures { SaysWhy S.caused storage.now verb.entry problem (reason_line result) }
{
    match problem {
        Problem::DeviceFailed => {
            let name = verb.file();
            match storage.cause(name) {
                Some(cause) => Some(Reason { name, cause }),
                None => None,
            }
        }
        Problem::ListenFailed(cause) => match verb.address() {
            Some(name) => Some(Reason { name, cause }),
            None => None,
        },
        _ => None,
    }
}

// Tells what is wrong with the command line.
fn refuse<E: Output>(alloc: Global, error: &Error, errors: &mut E) -> Status
    ensures told { Tells SaysNoMore E.took E.failures errors.old errors.new result }
    ensures memory { kind_of error.now ≡ ErrorKind.OutOfMemory → result ≡ Status.OutOfMemory }
    ensures refused { result ≢ Status.Success }
    ensures ends { (result ≡ Status.Usage) ⊎ (result ≡ Status.OutOfMemory) }
{
    if error.kind() == ErrorKind::OutOfMemory {
        return tell(Problem::OutOfMemory, None, errors);
    }
    match format!(in alloc; "{error}") {
        Ok(text) => {
            // If standard error fails there is nowhere to report it.
            let _ = write_all(errors, text.as_bytes());
            Status::Usage
        }
        Err(_) => tell(Problem::OutOfMemory, None, errors),
    }
}

/// Does what the words ask for, of which the first is the program's name, and says how the program ends. Nothing is told on `errors` where
/// that was done, and where a check finds damage, which it tells on `output`; each other end is told on `errors`, with its cause in a second line where it
/// is known. A server tells on `errors` of the store that it opened, before it listens. A compaction, and an upgrade, shows on
/// `progress`, if there is one, how far it is. A server tells on `log` of each message that it answers, where the words ask for that, and
/// else nothing is written there.
///
/// What was done is said of the device that the storage has under the file's name: what became of its history, and which bytes were read and written. Where that was
/// not done, the device was given back, and what is left of the history is said too.
pub fn program<
    D: Device,
    S: Storage<D>,
    R: Net<Stream = TcpStream, Listener = TcpListener> + Clock,
    W: AsStr,
    I: Input,
    O: Output,
    E: Output,
    P: Output + Drop,
    L: Output,
>(
    storage: &S,
    net: &R,
    alloc: Global,
    words: &[W],
    input: &mut I,
    output: &mut O,
    errors: &mut E,
    progress: Option<P>,
    log: &mut L,
) -> Status
    ensures silent { ((verb : VerbData) → AskFor (map W.text words.now) verb → is_logged verb ≡ false) → log.new ≡ log.old }
    ensures done { ((verb : VerbData) × AskFor (map W.text words.now) verb × TellsDone E.took E.failures errors.old errors.new verb
        × IsDone D.disk S.made S.opened S.closed I.gave O.took I.has_ended storage.now input.old input.new output.old output.new verb result)
        ⊎ ((result ≢ Status.Success) × ((Tells SaysNoMore E.took E.failures errors.old errors.new result × WasRefused input.old input.new output.old output.new result)
        ⊎ ((verb : VerbData) × AskFor (map W.text words.now) verb
        × TellsFailed E.took E.failures errors.old errors.new verb (λ mid. Tells (SaysWhy S.caused storage.now verb) E.took E.failures mid errors.new result)
        × HasLeftBy D.disk S.missed S.made S.opened S.closed S.discarded I.gave O.took O.failures storage.now input.old input.new output.old output.new verb))) }
{
    match command(alloc, words) {
        Ok(verb) => {
            match done(
                storage, net, alloc, verb, input, output, errors, progress, log,
            ) {
                Ok(status) => status,
                Err(problem) => tell(problem, reason_of(storage, verb, problem), errors),
            }
        }
        Err(error) => refuse(alloc, &error, errors),
    }
}
