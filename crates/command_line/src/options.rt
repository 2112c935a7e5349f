//! The words of the command line, which `clap` reads.
ghost use Rattle.std.specs.Prelude.{◌≡◌, ◌↔◌, IfOk, IfErr, IfSome, IsTrue, None, Some, codes, false, map, option_map, List};
ghost use Rattle.clap.specs.Words.{HasKind, Text, app_of, found_of, rule_of};
ghost use Rattle.command_line.specs.Options.{Gives, HasFile, Reads, Refuses, bare, command, count_in, entries_by, entries_in, faults, flag, found_texts, idle_in, limit_in, listening, many_in, logs_in, mode_in, mode_of, option, port_in, reading, script_in, seconds_in, serving, staying, texts_of};

use clap::error::ErrorKind;
use clap::{Arg, ArgAction, ArgMatches, Command};
use interchange::whole_within;
use listening::Limit;
use std::alloc::{AllocError, Global};
use std::convert::AsStr;
use steps::MAX_SESSION;
use thiserror::Error;

/// The program's version, for `--version`.
const VERSION: &str = "0.1.0";

/// What the program is, at the head of its help.
const ABOUT: &str =
    "Runs a script over system-versioned tables, or serves sessions over TCP, and writes one reply for each line";

/// What help says after the options.
const AFTER: &str =
    "Without --schema the schema has one table: emp (no INT, name TEXT), with the key no.\n\
Without --script and --listen the script is standard input.\n\
\n\
A line of a script is a session's number (1 to 64), a colon and a statement, or a reading of the clock:\n  \
clock: 100\n  \
1: BEGIN\n  \
1: INSERT INTO emp VALUES (1, 'Ann')\n  \
1: COMMIT\n  \
1: SELECT * FROM emp FOR SYSTEM_TIME AS OF 100\n\
\n\
Example, to be pasted as it is where tsvd can be found:\n  \
printf \"clock: 100\\n1: BEGIN\\n1: INSERT INTO emp VALUES (1, 'Ann')\\n1: COMMIT\\n\" | tsvd --export emp\n\
\n\
Statements, each on a line of its own:\n  \
BEGIN, START TRANSACTION, COMMIT, ROLLBACK\n  \
INSERT INTO table [(column, ..)] VALUES (value, ..), ..\n  \
UPDATE table [portion] SET column = value, .. [WHERE comparisons]\n  \
DELETE FROM table [portion] [WHERE comparisons]\n  \
SELECT * FROM table [FOR SYSTEM_TIME form] [WHERE comparisons]\n  \
ALTER TABLE table ADD COLUMN column type, in a script\n\
A form is AS OF instant, FROM instant TO instant or BETWEEN instant AND instant.\n\
A portion is FOR PORTION OF period FROM number TO number.\n\
Comparisons are a column, one of = < <= > >= and a value, joined by AND.\n\
A value is a number, a 'text', TRUE, FALSE or NULL.\n\
\n\
With --listen each connection to 127.0.0.1 is a session, and its lines are statements alone, such as BEGIN.\n\
The port is printed as 'listening PORT'. When --sessions connections have come and ended, the server ends.\n\
With --connections in its place NUMBER clients come and end, of which 64 are served at once while 128 more\n\
wait; with 0 as many as come, until standard input ends or the journal is full. What sends no line is no client.\n\
\n\
Status:\n  \
0  done, help among it; a line that is refused has its refusal as its reply\n  \
1  a fault of the schema, the replay, the load, the export, a file, a socket, the output or\n     \
memory, reported on standard error\n  \
2  words that are refused\n";

/// What is said where there is no file in the text of `--load`.
const NO_FILE: &str =
    "error: --load takes a table's name, = and a file\n\nFor more information, try '--help'.\n";

/// What is said where connections are to be served, and a script is to be run.
const BOTH: &str =
    "error: --script and --listen exclude each other\n\nFor more information, try '--help'.\n";

/// What is said where there is a port, and no number of connections.
const NO_LIMIT: &str =
    "error: --listen needs --sessions or --connections\n\nFor more information, try '--help'.\n";

/// What is said where there are two numbers of connections.
const BOTH_LIMITS: &str =
    "error: --sessions and --connections exclude each other\n\nFor more information, try '--help'.\n";

/// What is said where there is a number of connections, and no port.
const NO_LISTEN: &str = "error: --sessions needs --listen\n\nFor more information, try '--help'.\n";

/// What is said where there is a number of clients, and no port.
const NO_LISTEN_FOR_CLIENTS: &str =
    "error: --connections needs --listen\n\nFor more information, try '--help'.\n";

/// What is said where clients are to make room, and there is no number of them.
const NO_CONNECTIONS: &str =
    "error: --idle needs --connections\n\nFor more information, try '--help'.\n";

/// What is said where there is a number of entries, and no port.
const NO_LISTEN_FOR_ENTRIES: &str =
    "error: --entries needs --listen\n\nFor more information, try '--help'.\n";

/// What is said where there is to be a log, and no port.
const NO_LISTEN_FOR_LOG: &str =
    "error: --log needs --listen\n\nFor more information, try '--help'.\n";

/// What is said of a port that is none.
const NO_PORT: &str =
    "error: --listen takes a port, 0 to 65535\n\nFor more information, try '--help'.\n";

/// What is said of a number of sessions that is none.
const NO_COUNT: &str =
    "error: --sessions takes a number, 1 to 64\n\nFor more information, try '--help'.\n";

/// What is said of a number of clients that is none.
const NO_MANY: &str =
    "error: --connections takes a number, 0 to 1000000\n\nFor more information, try '--help'.\n";

/// What is said of a number of seconds that is none.
const NO_SECONDS: &str =
    "error: --idle takes a number of seconds, 1 to 1000000\n\nFor more information, try '--help'.\n";

/// What is said of a number of entries that is none.
const NO_ENTRIES: &str =
    "error: --entries takes a number, 1 to 1000000000\n\nFor more information, try '--help'.\n";

/// The greatest port.
const MAX_PORT: u64 = 65_535;

/// The most sessions.
const MAX_COUNT: u64 = MAX_SESSION as u64;

/// The most clients, and the most seconds.
const MAX_MANY: u64 = 1_000_000;

/// The entries that a journal may have where no number of them is given.
const USUAL_ENTRIES: usize = 1_000_000;

/// The most entries that it may be given.
const MAX_ENTRIES: u64 = 1_000_000_000;

/// What is run.
#[derive(Clone, Copy, Debug, PartialEq, Eq)]
pub enum Mode<'a> {
    /// A script: that of a file, or standard input.
    Script(Option<&'a str>),
    /// Connections are served, at a port, or at one that the system chooses where it is 0: so many, with
    /// so many entries in the journal; and while others wait, none that has sent nothing for so many
    /// seconds. What happens is written to a log or not.
    Listen {
        port: u16,
        limit: Limit,
        entries: usize,
        idle: Option<u32>,
        is_logged: bool,
    },
}

/// What is asked for.
#[derive(Clone, Copy, Debug, PartialEq, Eq)]
pub struct Options<'a> {
    /// The file of the schema.
    pub schema: Option<&'a str>,
    /// The file of the script that is replayed before all else.
    pub after: Option<&'a str>,
    /// What is run.
    pub mode: Mode<'a>,
    /// A table's name, `=` and the file whose rows are loaded.
    pub load: Option<&'a str>,
    /// The name of the table that is exported.
    pub export: Option<&'a str>,
    /// The file that what was committed is dumped to.
    pub dump: Option<&'a str>,
}

/// For each option the text that followed it, or none.
#[derive(Clone, Copy)]
struct Texts<'a> {
    schema: Option<&'a str>,
    after: Option<&'a str>,
    script: Option<&'a str>,
    listen: Option<&'a str>,
    sessions: Option<&'a str>,
    connections: Option<&'a str>,
    entries: Option<&'a str>,
    idle: Option<&'a str>,
    /// `true` where the word was given.
    log: Option<&'a str>,
    load: Option<&'a str>,
    export: Option<&'a str>,
    dump: Option<&'a str>,
}

/// Why words were refused. The texts end their last lines.
#[derive(Debug, Drop, Error)]
pub enum WordsFault {
    /// `clap` refused them, or they ask for help or for the version.
    #[error("{0}")]
    Clap(clap::Error),
    /// They are no text, `--load` names no file, or what is to be run cannot be.
    #[error("{0}")]
    Words(&'static str),
    /// Memory ran out.
    #[error("memory")]
    Memory,
}

fn option<'a>(alloc: Global, name: &'a str, value: &'a str, help: &'a str) -> Arg<'a>
    ensures rule { rule_of result ≡ option name.entry.now }
    ensures local { result.global ≡ false }
{
    Arg::new(alloc, name)
        .long(name)
        .value_name(value)
        .help(help)
}

/// Makes an option that no text follows.
fn flag<'a>(alloc: Global, name: &'a str, help: &'a str) -> Arg<'a>
    ensures rule { rule_of result ≡ flag name.entry.now }
    ensures local { result.global ≡ false }
{
    Arg::new(alloc, name)
        .long(name)
        .action(ArgAction::SetTrue)
        .help(help)
}

/// Makes the command with no option yet.
fn bare<'a>(alloc: Global) -> Command<'a>
    ensures { app_of result ≡ bare }
{
    Command::new(alloc, "tsvd")
        .no_binary_name(true)
        .version(VERSION)
        .about(ABOUT)
        .after_help(AFTER)
}

/// Makes the command with the options of what is read.
fn reading_command<'a>(alloc: Global) -> Result<Command<'a>, AllocError>
    ensures { IfOk result (λ c. app_of c ≡ reading) }
{
    let after = "First replays this script: nothing is written, and no line may be refused";
    bare(alloc)
        .arg(option(alloc, "schema", "FILE", "Reads the tables from this file"))?
        .arg(option(alloc, "after", "FILE", after))?
        .arg(option(alloc, "script", "FILE", "Reads the script from this file"))
}

/// Makes the command with the options of a server added.
fn serving_command<'a>(alloc: Global) -> Result<Command<'a>, AllocError>
    ensures { IfOk result (λ c. app_of c ≡ serving) }
{
    let listen = "Serves sessions over TCP at this port of 127.0.0.1; 0: one that is free";
    let sessions = "Ends when this many connections, 1 to 64, have come and ended";
    let connections =
        "Ends when this many clients, 1 to 1000000, have come and ended; 0: with standard input";
    let entries = "Has room for this many entries in its journal, 1 to 1000000000; else 1000000";
    reading_command(alloc)?
        .arg(option(alloc, "listen", "PORT", listen))?
        .arg(option(alloc, "sessions", "NUMBER", sessions))?
        .arg(option(alloc, "connections", "NUMBER", connections))?
        .arg(option(alloc, "entries", "NUMBER", entries))
}

/// Makes the command with the options of a server that stays added.
fn staying_command<'a>(alloc: Global) -> Result<Command<'a>, AllocError>
    ensures { IfOk result (λ c. app_of c ≡ staying) }
{
    let idle = "While others wait, ends a connection that sent nothing for this many seconds";
    let log = "Writes to standard error what happens, a line each, and nothing of what users say";
    serving_command(alloc)?
        .arg(option(alloc, "idle", "SECONDS", idle))?
        .arg(flag(alloc, "log", log))
}

fn tsvd<'a>(alloc: Global) -> Result<Command<'a>, AllocError>
    ensures { IfOk result (λ c. app_of c ≡ command) }
{
    let load = "First loads the rows of this CSV file in one transaction";
    let export = "Last writes this table with all its versions as CSV";
    let dump = "Last of all writes what was committed to this file, as a script for --after";
    staying_command(alloc)?
        .arg(option(alloc, "load", "TABLE=FILE", load))?
        .arg(option(alloc, "export", "TABLE", export))?
        .arg(option(alloc, "dump", "FILE", dump))
}

fn texts_of<'a>(matches: &ArgMatches<'a>) -> Texts<'a>
    ensures { texts_of result ≡ found_texts (found_of matches.now) }
{
    Texts {
        schema: matches.get_str("schema"),
        after: matches.get_str("after"),
        script: matches.get_str("script"),
        listen: matches.get_str("listen"),
        sessions: matches.get_str("sessions"),
        connections: matches.get_str("connections"),
        entries: matches.get_str("entries"),
        idle: matches.get_str("idle"),
        log: matches.get_str("log"),
        load: matches.get_str("load"),
        export: matches.get_str("export"),
        dump: matches.get_str("dump"),
    }
}

fn fault_from(error: clap::Error) -> WordsFault
    ensures { (words : List Text) → HasKind (faults words) error → Refuses words result }
{
    match error.kind() {
        ErrorKind::OutOfMemory => WordsFault::Memory,
        _ => WordsFault::Clap(error),
    }
}

/// Tells whether a file is named, after a `=`.
fn has_file(text: &str) -> bool
    ensures { IsTrue result ↔ HasFile text.now }
{
    text.split_once('=').is_some()
}

fn port_of(text: &str) -> Option<u16>
    ensures { result ≡ port_in text.now }
{
    let port = whole_within(MAX_PORT, text.as_bytes())?;
    Some(port as u16)
}

fn count_of(text: &str) -> Option<u8>
    ensures { result ≡ count_in text.now }
{
    match whole_within(MAX_COUNT, text.as_bytes()) {
        Some(0) => None,
        Some(count) => Some(count as u8),
        None => None,
    }
}

fn many_of(text: &str) -> Option<u32>
    ensures { result ≡ many_in text.now }
{
    let many = whole_within(MAX_MANY, text.as_bytes())?;
    Some(many as u32)
}

fn seconds_of(text: &str) -> Option<u32>
    ensures { result ≡ seconds_in text.now }
{
    match whole_within(MAX_MANY, text.as_bytes()) {
        Some(0) => None,
        Some(seconds) => Some(seconds as u32),
        None => None,
    }
}

/// Returns how many connections are served, by the texts of the two options for it.
fn limit_of(texts: Texts<'_>) -> Result<Limit, &'static str>
    ensures ok { IfOk result (λ limit. limit_in (texts_of texts.entry) ≡ Some limit) }
    ensures err { IfErr result (λ _. limit_in (texts_of texts.entry) ≡ None) }
{
    match (texts.sessions, texts.connections) {
        (Some(sessions), None) => match count_of(sessions) {
            Some(sessions) => Ok(Limit::Sessions(sessions)),
            None => Err(NO_COUNT),
        },
        (None, Some(connections)) => match many_of(connections) {
            Some(connections) => Ok(Limit::Connections(connections)),
            None => Err(NO_MANY),
        },
        (None, None) => Err(NO_LIMIT),
        (Some(_), Some(_)) => Err(BOTH_LIMITS),
    }
}

/// Returns how many entries the journal may have, by the text of the option for it, if there is one.
fn entries_of(text: Option<&str>) -> Option<usize>
    ensures { result ≡ entries_by (option_map (λ text. text.now) text.entry) }
{
    let Some(text) = text else {
        return Some(USUAL_ENTRIES);
    };
    match whole_within(MAX_ENTRIES, text.as_bytes()) {
        Some(0) => None,
        Some(entries) => Some(entries as usize),
        None => None,
    }
}

/// Tells whether there is to be a log.
fn logs(texts: Texts<'_>) -> bool
    ensures { result ≡ logs_in (texts_of texts.entry) }
{
    match texts.log {
        Some(text) => text == "true",
        None => false,
    }
}

/// Returns after how many seconds a connection makes room, if any does.
fn idle_of(texts: Texts<'_>) -> Result<Option<u32>, &'static str>
    ensures ok { IfOk result (λ idle. idle_in (texts_of texts.entry) ≡ Some idle) }
    ensures err { IfErr result (λ _. idle_in (texts_of texts.entry) ≡ None) }
{
    match (texts.idle, texts.connections) {
        (None, _) => Ok(None),
        (Some(idle), Some(_)) => match seconds_of(idle) {
            Some(seconds) => Ok(Some(seconds)),
            None => Err(NO_SECONDS),
        },
        (Some(_), None) => Err(NO_CONNECTIONS),
    }
}

/// Returns a server's mode by the text of its port.
fn listen_mode<'a>(listen: &str, texts: Texts<'_>) -> Result<Mode<'a>, &'static str>
    ensures ok { IfOk result (λ mode. listening (port_in listen.now)
        (limit_in (texts_of texts.entry)) (entries_in (texts_of texts.entry))
        (idle_in (texts_of texts.entry)) (logs_in (texts_of texts.entry)) ≡ Some (mode_of mode)) }
    ensures err { IfErr result (λ _. listening (port_in listen.now)
        (limit_in (texts_of texts.entry)) (entries_in (texts_of texts.entry))
        (idle_in (texts_of texts.entry)) (logs_in (texts_of texts.entry)) ≡ None) }
{
    let limit = match limit_of(texts) {
        Ok(limit) => limit,
        Err(text) => return Err(text),
    };
    let idle = match idle_of(texts) {
        Ok(idle) => idle,
        Err(text) => return Err(text),
    };
    let Some(entries) = entries_of(texts.entries) else {
        return Err(NO_ENTRIES);
    };
    match port_of(listen) {
        Some(port) => Ok(Mode::Listen {
            port,
            limit,
            entries,
            idle,
            is_logged: logs(texts),
        }),
        None => Err(NO_PORT),
    }
}

/// Returns the mode of a script, where no word is one of a server's.
fn script_mode<'a>(texts: Texts<'a>) -> Result<Mode<'a>, &'static str>
    ensures ok { IfOk result (λ mode. script_in (texts_of texts.entry) ≡ Some (mode_of mode)) }
    ensures err { IfErr result (λ _. script_in (texts_of texts.entry) ≡ None) }
{
    if logs(texts) {
        return Err(NO_LISTEN_FOR_LOG);
    }
    match (texts.sessions, texts.connections, texts.entries, texts.idle) {
        (None, None, None, None) => Ok(Mode::Script(texts.script)),
        (Some(_), _, _, _) => Err(NO_LISTEN),
        (None, Some(_), _, _) => Err(NO_LISTEN_FOR_CLIENTS),
        (None, None, Some(_), _) => Err(NO_LISTEN_FOR_ENTRIES),
        (None, None, None, Some(_)) => Err(NO_CONNECTIONS),
    }
}

/// Returns what is run.
fn mode_of<'a>(texts: Texts<'a>) -> Result<Mode<'a>, &'static str>
    ensures ok { IfOk result (λ mode. mode_in (texts_of texts.entry) ≡ Some (mode_of mode)) }
    ensures err { IfErr result (λ _. mode_in (texts_of texts.entry) ≡ None) }
{
    match (texts.script, texts.listen) {
        (_, None) => script_mode(texts),
        (None, Some(listen)) => listen_mode(listen, texts),
        (Some(_), Some(_)) => Err(BOTH),
    }
}

/// Tells whether the text of `--load`, if there is one, names a file.
fn names_file(load: Option<&str>) -> bool
    ensures { IsTrue result ↔ IfSome (option_map (λ text. text.now) load.entry) HasFile }
{
    match load {
        Some(text) => has_file(text),
        None => true,
    }
}

/// Returns the options, if they can be given together.
fn options_of<'a>(texts: Texts<'a>) -> Result<Options<'a>, WordsFault>
    ensures ok { IfOk result (λ o. (words : List Text) → Reads words (texts_of texts.entry)
        → Gives words o) }
    ensures err { IfErr result (λ fault. (words : List Text) → Reads words (texts_of texts.entry)
        → Refuses words fault) }
{
    if !names_file(texts.load) {
        return Err(WordsFault::Words(NO_FILE));
    }
    match mode_of(texts) {
        Ok(mode) => Ok(Options {
            schema: texts.schema,
            after: texts.after,
            mode,
            load: texts.load,
            export: texts.export,
            dump: texts.dump,
        }),
        Err(text) => Err(WordsFault::Words(text)),
    }
}

/// Reads the words that follow the program's name: `--schema F`, `--after F`, `--script F`,
/// `--listen PORT`, `--sessions N`, `--connections N`, `--entries N`, `--idle SECONDS`, `--load T=F`,
/// `--export T` and `--dump F`, each at most once.
///
/// `Clap` if `clap` refuses the words, or they ask for `--help` or `--version`. `Words` if the text
/// of `--load` has no `=`; if `--listen` is given with `--script`, or without one of `--sessions` and
/// `--connections`, or these two are given together, or one of them or `--entries` without `--listen`;
/// if `--idle` is given without `--connections`; if PORT, N or SECONDS is not a decimal number in its
/// range.
pub fn words<'a, S: AsStr>(alloc: Global, words: &'a [S]) -> Result<Options<'a>, WordsFault>
    ensures ok { IfOk result (λ o. Gives (map S.text words.entry.now) o) }
    ensures err { IfErr result (λ fault. Refuses (map S.text words.entry.now) fault) }
{
    let Ok(command) = tsvd(alloc) else {
        return Err(WordsFault::Memory);
    };
    match command.try_get_matches_from(words) {
        Ok(matches) => options_of(texts_of(&matches)),
        Err(error) => Err(fault_from(error)),
    }
}
