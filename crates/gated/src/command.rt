//! The command line.

ghost use Rattle.std.specs.Prelude.{◌≡◌, true, false, List, [], map, option_map, Some, codes, Contains, IfOk, IfSome};
ghost use Rattle.clap.specs.Words.{Row, Text, app_of, found_of, rows_of, rule_of, subcommand_rows_of, with_subcommand};
ghost use Rattle.clap.specs.declared.builder.command.Command.TheViews.{out-Command};
ghost use Rattle.names.specs.Format.{number_of};
ghost use Rattle.gated.specs.CommandLine.{AskFor, HasNumber, IsAsked, IsServedAs, MayBeLogged, MayHaveNumber, address_of, at_once_rule, compact_at_rule, compacted_at, conns_rule, create_shape, file_of, gated_line, kubernetes_rule, log_rule, option_rule, over_file, serve_shape, serves_kubernetes};

use clap::builder::ValueParser;
use clap::error::ErrorKind;
use clap::{Arg, ArgAction, ArgMatches, Command, Error};
use std::alloc::{AllocError, Global};
use std::convert::AsStr;
use store::Format;

/// The program's version.
pub const VERSION: &str = "0.30.0";

// How many connections are served at once where the words say neither this nor how many there are in all.
const DEFAULT_AT_ONCE: u16 = 256;

/// How connections are served.
#[derive(Clone, Copy)]
pub enum Serving {
    /// This many, one after the other.
    OneByOne {
        connections: u16,
    },
    /// This many at once, of this many in all, or of any number. Between them the store is compacted where its log is this many times as long as its pages, or never.
    /// Messages of Kubernetes clients may be served among theirs.
    AtOnce {
        at_once: u16,
        connections: Option<u16>,
        compact_at: Option<u16>,
        is_kubernetes: bool,
    },
}

/// What the words ask for.
#[derive(Clone, Copy)]
pub enum Verb<'a> {
    /// Make a store of a format in a new file.
    Create {
        file: &'a str,
        format: Format,
    },
    /// Answer the requests on standard input.
    Replay {
        file: &'a str,
    },
    /// Serve connections to an address, each of which is closed where it does not go on for this many seconds, or never (0). Each message may
    /// be told in a log.
    Serve {
        file: &'a str,
        address: &'a str,
        serving: Serving,
        idle_seconds: u32,
        is_logged: bool,
    },
    /// Write what the store shows as its next generation.
    Compact {
        file: &'a str,
    },
    /// Bring the store to the newest format.
    Upgrade {
        file: &'a str,
    },
    /// Tell whether the store is whole.
    Check {
        file: &'a str,
    },
}

impl<'a> Verb<'a> {
    /// Its file.
    pub fn file(self) -> &'a str
        ensures { result.now ≡ file_of self.entry }
    {
        match self {
            Verb::Create { file, .. } | Verb::Serve { file, .. } => file,
            Verb::Replay { file } | Verb::Compact { file } => file,
            Verb::Upgrade { file } | Verb::Check { file } => file,
        }
    }

    /// The address that it listens on, if it does.
    pub fn address(self) -> Option<&'a str>
        ensures { option_map (λ s. s.now) result ≡ address_of self.entry }
    {
        match self {
            Verb::Serve { address, .. } => Some(address),
            _ => None,
        }
    }
}

// A subcommand that takes a file, whose help ends in an example.
fn over_file<'a>(
    alloc: Global,
    name: &'a str,
    about: &'a str,
    example: &'a str,
) -> Result<Command<'a>, AllocError>
    ensures app { IfOk result (λ c. app_of c ≡ record { top = over_file name.entry.now; subs = [] }) }
    ensures local { IfOk result (λ c. (out-Command c).has_globals ≡ false) }
{
    let file = Arg::new(alloc, "file")
        .value_name("FILE")
        .help("The file of the store")
        .required(true)
        .action(ArgAction::Set);
    Command::new(alloc, name)
        .about(about)
        .after_help(example)
        .arg(file)
}

// An option of `serve` that takes a value.
fn option<'a>(alloc: Global, name: &'a str, value: &'a str, help: &'a str) -> Arg<'a>
    ensures rule { rule_of result ≡ option_rule name.entry.now }
    ensures local { result.global ≡ false }
{
    Arg::new(alloc, name)
        .long(name)
        .value_name(value)
        .help(help)
        .action(ArgAction::Set)
}

// `--conns`.
fn conns_option<'a>(alloc: Global) -> Arg<'a>
    ensures rule { rule_of result ≡ conns_rule }
    ensures local { result.global ≡ false }
{
    option(
        alloc,
        "conns",
        "N",
        "How many connections are served, one after the other without --at-once; any number if it is left out",
    )
    .value_parser(ValueParser::unsigned(1, 65535))
}

// `--at-once`.
fn at_once_option<'a>(alloc: Global) -> Arg<'a>
    ensures rule { rule_of result ≡ at_once_rule }
    ensures local { result.global ≡ false }
{
    option(
        alloc,
        "at-once",
        "M",
        "How many connections are served at once; 256 if it and --conns are left out",
    )
    .value_parser(ValueParser::unsigned(1, 1024))
}

// `--log`.
fn log_option<'a>(alloc: Global) -> Arg<'a>
    ensures rule { rule_of result ≡ log_rule }
    ensures local { result.global ≡ false }
{
    Arg::new(alloc, "log")
        .long("log")
        .help(
            "Tells of each message on standard error: time, peer, method, path, status, bytes, microseconds",
        )
        .action(ArgAction::SetTrue)
}

// `--compact-at`.
fn compact_at_option<'a>(alloc: Global) -> Arg<'a>
    ensures rule { rule_of result ≡ compact_at_rule }
    ensures local { result.global ≡ false }
{
    option(
        alloc,
        "compact-at",
        "N",
        "Compacts the store while it is served, where its log is N times as long as its pages, and at least 8 MiB",
    )
    .value_parser(ValueParser::unsigned(1, 1000))
}

// `--kubernetes`.
fn kubernetes_option<'a>(alloc: Global) -> Arg<'a>
    ensures rule { rule_of result ≡ kubernetes_rule }
    ensures local { result.global ≡ false }
{
    Arg::new(alloc, "kubernetes")
        .long("kubernetes")
        .help(
            "Serves kubectl and other Kubernetes clients: tells them which resources there are, and takes what they add to requests",
        )
        .action(ArgAction::SetTrue)
}

fn serve_line<'a>(alloc: Global) -> Result<Command<'a>, AllocError>
    ensures app { IfOk result (λ c. app_of c ≡ record { top = serve_shape; subs = [] }) }
    ensures local { IfOk result (λ c. (out-Command c).has_globals ≡ false) }
{
    over_file(
        alloc,
        "serve",
        "Serves connections, many at once or one after the other",
        "Example: gated serve store.db --listen 127.0.0.1:8080",
    )?
    .arg(option(
        alloc,
        "listen",
        "IP:PORT",
        "The address that is listened on",
    )
    .required(true))?
    .arg(conns_option(alloc))?
    .arg(at_once_option(alloc))?
    .arg(
        option(
            alloc,
            "idle",
            "SECONDS",
            "How long a connection may send nothing until it is closed; 0: for ever",
        )
        .default_value("60")
        .value_parser(ValueParser::unsigned(0, 86400)),
    )?
    .arg(log_option(alloc))?
    .arg(compact_at_option(alloc))?
    .arg(kubernetes_option(alloc))
}

fn create_line<'a>(alloc: Global) -> Result<Command<'a>, AllocError>
    ensures app { IfOk result (λ c. app_of c ≡ record { top = create_shape; subs = [] }) }
    ensures local { IfOk result (λ c. (out-Command c).has_globals ≡ false) }
{
    over_file(
        alloc,
        "create",
        "Makes a store in a new file",
        "Example: gated create store.db",
    )?
    .arg(
        option(
            alloc,
            "format",
            "N",
            "The format of the file: 1; 2, in which namespaces are objects; 3, with larger objects and a wider window",
        )
        .default_value("3")
        .value_parser(ValueParser::unsigned(1, 3)),
    )
}

// The command, with a subcommand more that takes a file.
fn with_over_file<'a>(
    alloc: Global,
    command: Command<'a>,
    name: &'a str,
    about: &'a str,
    example: &'a str,
) -> Result<Command<'a>, AllocError>
    ensures { IfOk result (λ c. app_of c ≡ with_subcommand (app_of command.entry) (over_file name.entry.now)) }
{
    let subcommand = over_file(alloc, name, about, example)?;
    command.subcommand(subcommand)
}

// The command, with `serve` as a subcommand more.
fn with_serve<'a>(alloc: Global, command: Command<'a>) -> Result<Command<'a>, AllocError>
    ensures { IfOk result (λ c. app_of c ≡ with_subcommand (app_of command.entry) serve_shape) }
{
    let subcommand = serve_line(alloc)?;
    command.subcommand(subcommand)
}

// The command, with `create` as a subcommand more.
fn with_create<'a>(alloc: Global, command: Command<'a>) -> Result<Command<'a>, AllocError>
    ensures { IfOk result (λ c. app_of c ≡ with_subcommand (app_of command.entry) create_shape) }
{
    let subcommand = create_line(alloc)?;
    command.subcommand(subcommand)
}

// The line that the program understands.
fn line<'a>(alloc: Global) -> Result<Command<'a>, AllocError>
    ensures { IfOk result (λ c. app_of c ≡ gated_line) }
{
    let alone = Command::new(alloc, "gated")
        .about("A small Kubernetes-style API server over one crash-safe file")
        .version(VERSION)
        .subcommand_required(true);
    let with_replay = with_over_file(
        alloc,
        with_create(alloc, alone)?,
        "replay",
        "Answers the HTTP requests on standard input",
        "Example: gated replay store.db < requests.http",
    )?;
    let with_compact = with_over_file(
        alloc,
        with_serve(alloc, with_replay)?,
        "compact",
        "Writes what the store holds anew, without the writes that led there",
        "Example: gated compact store.db",
    )?;
    let with_upgrade = with_over_file(
        alloc,
        with_compact,
        "upgrade",
        "Brings a store of an older format to format 3",
        "Example: gated upgrade store.db",
    )?;
    with_over_file(
        alloc,
        with_upgrade,
        "check",
        "Reads the store and tells whether it is whole",
        "Example: gated check store.db",
    )
}

// How the arguments of `serve` ask for connections to be served. If they are served at once, this says when the store is compacted meanwhile, and whether
// messages of Kubernetes clients are served.
fn serving_of<'a>(matches: &ArgMatches<'a>, compact_at: Option<u16>, is_kubernetes: bool) -> Serving
    ensures { IsServedAs (rows_of (found_of matches.now)) result }
{
    match matches.get_one::<u16>("at-once") {
        Some(at_once) => Serving::AtOnce {
            at_once,
            connections: matches.get_one::<u16>("conns"),
            compact_at,
            is_kubernetes,
        },
        None => match matches.get_one::<u16>("conns") {
            Some(connections) => Serving::OneByOne { connections },
            None => Serving::AtOnce {
                at_once: DEFAULT_AT_ONCE,
                connections: None,
                compact_at,
                is_kubernetes,
            },
        },
    }
}

// When the arguments of `serve` ask for the store to be compacted.
fn compact_at_of<'a>(matches: &ArgMatches<'a>) -> Option<u16>
    ensures { MayHaveNumber (codes "compact-at") (rows_of (found_of matches.now)) result }
{
    matches.get_one::<u16>("compact-at")
}

// Whether a store is compacted as this asks, where connections are served so.
fn is_compacted_at(serving: Serving, asked: Option<u16>) -> bool
    ensures { result ≡ true → compacted_at serving ≡ asked }
{
    match serving {
        Serving::OneByOne { .. } => asked.is_none(),
        Serving::AtOnce { compact_at, .. } => compact_at == asked,
    }
}

// Whether messages of Kubernetes clients are served as this asks, where connections are served so.
fn is_kubernetes_as(serving: Serving, asked: bool) -> bool
    ensures { result ≡ true → serves_kubernetes serving ≡ asked }
{
    match serving {
        Serving::OneByOne { .. } => !asked,
        Serving::AtOnce { is_kubernetes, .. } => is_kubernetes == asked,
    }
}

// Whether messages may be told of in a log where this is asked.
fn may_be_logged(serving: Serving, is_logged: bool) -> bool
    ensures { result ≡ true → MayBeLogged serving is_logged }
{
    match serving {
        Serving::OneByOne { .. } => !is_logged,
        Serving::AtOnce { .. } => true,
    }
}

// What the arguments of `serve` ask for; none where they ask for a log, for compactions or for Kubernetes clients, of connections that are served one after the
// other.
fn serve_verb<'a>(matches: &ArgMatches<'a>) -> Option<Verb<'a>>
    ensures { IfSome result (IsAsked (codes "serve") (rows_of (found_of matches.now))) }
{
    let file = matches.get_str("file")?;
    let compact_at = compact_at_of(matches);
    let is_kubernetes = matches.get_flag("kubernetes");
    let serving = serving_of(matches, compact_at, is_kubernetes);
    let is_logged = matches.get_flag("log");
    if !may_be_logged(serving, is_logged)
        || !is_compacted_at(serving, compact_at)
        || !is_kubernetes_as(serving, is_kubernetes)
    {
        return None;
    }
    Some(Verb::Serve {
        file,
        address: matches.get_str("listen")?,
        serving,
        idle_seconds: matches.get_one::<u32>("idle")?,
        is_logged,
    })
}

// The format of the store that is to be made.
fn format_of<'a>(matches: &ArgMatches<'a>) -> Option<Format>
    ensures { IfSome result (λ format. HasNumber (codes "format") (rows_of (found_of matches.now)) (number_of format)) }
{
    match matches.get_one::<u16>("format")? {
        1 => Some(Format::First),
        2 => Some(Format::Second),
        3 => Some(Format::Third),
        _ => None,
    }
}

// The verb of a subcommand.
fn verb_of<'a>(name: &str, matches: &ArgMatches<'a>) -> Option<Verb<'a>>
    ensures { IfSome result (IsAsked name.now (rows_of (found_of matches.now))) }
{
    let file = matches.get_str("file")?;
    match name {
        "create" => Some(Verb::Create {
            file,
            format: format_of(matches)?,
        }),
        "replay" => Some(Verb::Replay { file }),
        "serve" => serve_verb(matches),
        "compact" => Some(Verb::Compact { file }),
        "upgrade" => Some(Verb::Upgrade { file }),
        "check" => Some(Verb::Check { file }),
        _ => None,
    }
}

// The verb of what was matched, if a subcommand was.
fn verb_among<'a>(matches: &ArgMatches<'a>) -> Option<Verb<'a>>
    ensures { IfSome result (λ verb. (name : Text) × (rows : List Row) × (subcommand_rows_of matches.now ≡ Some (name, rows)) × IsAsked name rows verb) }
{
    let (name, inner) = matches.subcommand()?;
    verb_of(name, inner)
}

/// What the words of a command line ask for, of which the first is the program's name.
///
/// # Errors
///
/// `clap`'s refusal, whose text tells of the usage; its kind is `OutOfMemory` when out of memory.
pub fn command<'a, S: AsStr>(alloc: Global, words: &'a [S]) -> Result<Verb<'a>, Error>
    ensures asked { IfOk result (AskFor (map S.text words.entry.now)) }
    ensures file { IfOk result (λ verb. Contains (map S.text words.entry.now) (file_of verb)) }
{
    let mut line = line(alloc)?;
    let matches = line.try_get_matches_from_mut(words)?;
    let verb = verb_among(&matches);
    drop(matches);
    match verb {
        Some(verb) => Ok(verb),
        // All else that is no verb was refused by then.
        None => Err(line.error(
            ErrorKind::MissingRequiredArgument,
            "--log, --compact-at and --kubernetes need --at-once where --conns is given",
        )?),
    }
}
