//! Connections to an address, served one after the other, or many at once.

ghost use Rattle.std.specs.Prelude.{◌≡◌, Err, IsErrOf, OnOk, OnErr};
ghost use Rattle.names.specs.declared.format.Rules.{Rules};
ghost use Rattle.decoded.specs.Standing.{History, View};
ghost use Rattle.histories.specs.View.{view};
ghost use Rattle.durable.specs.Settled.{IsSettledAt};
ghost use Rattle.api.specs.Answers.{ShowsAt};
ghost use Rattle.clients.specs.Serving.{HasServedSome};
ghost use Rattle.gated.specs.Left.{HasServedUpTo, HasServedUntil};

use crate::problem::{Problem, not_listening};
use clients::{Limits, Server};
use std::alloc::Global;
use std::io::Read;
use std::net::{Net, Shutdown, SocketAddr, TcpListener, TcpStream};
use std::time::{Clock, Duration};
use store::{Cause, Device, End, Output, ServeFault, Std, Store, serve, write_all};

// For how many reads, of how many bytes and how long, a connection that ends is read on.
const DRAIN_READS: u32 = 32;

const DRAIN_BYTES: usize = 32768;

const DRAIN_SECONDS: u64 = 1;

// Reads on and forgets: a socket that is closed with bytes that nobody read resets the connection, and the peer may then lose the
// last reply. So a refused upload is taken to its end, within bounds.
fn drain(stream: &TcpStream) {
    // The connection ends in any case, so a failure is ignored.
    let _ = stream.shutdown(Shutdown::Write);
    let _ = stream.set_read_timeout(Some(Duration::from_secs(DRAIN_SECONDS)));
    let mut reader = stream;
    let mut forgotten = [0; DRAIN_BYTES];
    for _ in 0..DRAIN_READS {
        match reader.read(&mut forgotten) {
            Ok(0) | Err(_) => return,
            Ok(_) => {}
        }
    }
}

// Serves one connection, a call of which waits no longer than it may. A fault of its own ends it alone.
fn serve_one<D: Device>(
    alloc: Global,
    stream: &TcpStream,
    idle: Option<Duration>,
    store: &mut Store<D>,
) -> Result<(), Problem>
    ensures served { (rules : Rules) (v : View) → ShowsAt rules store.old v → OnOk result (HasServedSome rules store.old store.new v) }
    ensures stopped { (rules : Rules) (v : View) → ShowsAt rules store.old v → OnErr result (HasServedUpTo rules store.old store.new v) }
    ensures no_stream { IsErrOf result Problem.StreamFailed → ⊥ }
{
    // A socket that refuses one of these is served all the same.
    let _ = stream.set_nodelay(true);
    let _ = stream.set_read_timeout(idle);
    let _ = stream.set_write_timeout(idle);
    let ended = serve(alloc, &mut Std::new(stream), &mut Std::new(stream), store);
    match ended {
        Ok(end) => {
            if !matches!(end, End::Clean) {
                drain(stream);
            }
            Ok(())
        }
        Err(fault) => match fault {
            ServeFault::Read => Ok(()),
            ServeFault::Write => Ok(()),
            other => {
                drain(stream);
                Err(Problem::from(other))
            }
        },
    }
}

// Serves this many connections, one after the other.
fn serve_connections<D: Device>(
    alloc: Global,
    listener: &TcpListener,
    connections: u16,
    idle: Option<Duration>,
    store: &mut Store<D>,
) -> Result<(), Problem>
    ensures served { (rules : Rules) (v : View) → ShowsAt rules store.old v → OnOk result (HasServedSome rules store.old store.new v) }
    ensures stopped { (rules : Rules) (v : View) → ShowsAt rules store.old v → OnErr result (HasServedUpTo rules store.old store.new v) }
{
    for stream in listener.incoming().take(usize::from(connections)) {
        let Ok(stream) = stream else {
            return Err(Problem::StreamFailed);
        };
        serve_one(alloc, &stream, idle, store)?;
    }
    Ok(())
}

// The address that a word says: an IP address and a port.
fn address_of(address: &str) -> Result<SocketAddr, Problem>
    ensures { OnErr result (result ≡ Err (Problem.ListenFailed Cause.NotAnAddress)) }
{
    match address.parse::<SocketAddr>() {
        Ok(address) => Ok(address),
        Err(_) => Err(Problem::ListenFailed(Cause::NotAnAddress)),
    }
}

// What says that connections are accepted from now on: with the address that was taken, where the system chose its port.
fn ready_text(
    alloc: Global,
    asked: SocketAddr,
    taken: Option<SocketAddr>,
) -> Result<String, Problem> {
    let text = match taken {
        Some(taken) if asked.port() == 0 => format!(in alloc; "ready {taken}\n"),
        _ => String::from_str(alloc, "ready\n"),
    };
    match text {
        Ok(text) => Ok(text),
        Err(_) => Err(Problem::OutOfMemory),
    }
}

// Says so.
fn print_ready<O: Output>(
    alloc: Global,
    asked: SocketAddr,
    taken: Option<SocketAddr>,
    output: &mut O,
) -> Result<(), Problem> {
    let text = ready_text(alloc, asked, taken)?;
    if write_all(output, text.as_bytes()).is_err() {
        return Err(Problem::StreamFailed);
    }
    Ok(())
}

/// Listens on an address, says so, and serves this many connections, one after the other.
pub(crate) fn serve_one_by_one<
    D: Device,
    R: Net<Stream = TcpStream, Listener = TcpListener>,
    O: Output,
>(
    net: &R,
    alloc: Global,
    address: &str,
    connections: u16,
    idle: Option<Duration>,
    store: &mut Store<D>,
    output: &mut O,
) -> Result<(), Problem>
    ensures served { (rules : Rules) (v : View) → ShowsAt rules store.old v → OnOk result (HasServedSome rules store.old store.new v) }
    ensures stopped { (rules : Rules) (v : View) → ShowsAt rules store.old v → OnErr result (HasServedUpTo rules store.old store.new v) }
{
    let address = address_of(address)?;
    let listener = match TcpListener::bind(net, address) {
        Ok(listener) => listener,
        Err(error) => return Err(not_listening(&error)),
    };
    print_ready(alloc, address, listener.local_addr().ok(), output)?;
    serve_connections(alloc, &listener, connections, idle, store)
}

/// Listens on an address, says so, and serves connections at once. Where the limits say so, messages are told of in a log.
pub(crate) fn serve_at_once<D: Device, R: Net + Clock, O: Output, L: Output>(
    net: &R,
    alloc: Global,
    address: &str,
    limits: Limits,
    store: &mut Store<D>,
    output: &mut O,
    log: &mut L,
) -> Result<(), Problem>
    ensures served { (rules : Rules) (h : History) → IsSettledAt rules store.old h → OnOk result (HasServedSome rules store.old store.new (view rules h)) }
    ensures stopped { (rules : Rules) (h : History) → IsSettledAt rules store.old h → OnErr result (HasServedUntil rules store.old store.new (view rules h)) }
{
    let address = address_of(address)?;
    let mut server = Server::bind(net, alloc, address, limits)?;
    print_ready(alloc, address, server.address(), output)?;
    match server.run(net, alloc, store, log) {
        Ok(()) => Ok(()),
        Err(fault) => Err(Problem::from(fault)),
    }
}
