//! Scripts: a line is read, its step taken and its reply written, and then the next one.
ghost use Rattle.std.specs.Prelude.{◌≡◌, ◌≢◌, ◌≤◌, ◌<◌, ◌^◌, Some, None, [], ◌∷◌, OnOk, OnErr, IfOk, IfErr, Ok, Err, length, take, ◌+◌, false};
ghost use Rattle.std.specs.Io.KnownBytes.{Keeps};
ghost use Rattle.values.specs.Tables.{Schema};
ghost use Rattle.statement.specs.Line.{line_says};
ghost use Rattle.lines.specs.Partial.{Fits};
ghost use Rattle.values.specs.declared.refusal.Refusal.{Refusal as Why};
ghost use Rattle.scripts.specs.First.{history_of, refusal_in, first_refusal, LeadsTo, RefusesFirst, IsRefusedFirst, IsUnled, is_first};
ghost use Rattle.histories.specs.History.{History};
ghost use Rattle.interleaving.specs.SystemState.{Stands};
ghost use Rattle.scripts.specs.Transcript.{IsRun, IsCut, IsStopped, IsRunAfter, IsCutAfter, IsStoppedAfter};
ghost use Rattle.scripts.specs.Script.{said_by, IsRead, IsAt, AnswersLine, BreaksLine, TakesBytes, BreaksBytes, EndsScript, BreaksEnd, IsIdle};

use interleaving::System;
use lines::{CHUNK, LineBuffer, MOST_READS, line_length};
use statement::{
    Line, WriteFault, asked_steps_fit, print_refusal, print_reply, read_line, write_all,
};
use std::alloc::Global;
use std::io::{Read, Write};
use steps::{Reply, Step};
use values::{Instant, Mem, Refusal, Schema};

/// Why a run stopped before the end of its script.
#[derive(Debug, PartialEq, Eq, Drop)]
pub enum RunFault {
    /// A step before the script's was refused.
    First(Refusal),
    /// The reader failed, or gave no end in 2^32 reads.
    Read,
    /// The writer failed.
    Write,
    /// Memory ran out before anything was read.
    Memory,
}

/// A run: the store, the last reading of the clock, and the line as far as it was read.
#[derive(Drop)]
pub(crate) struct Script {
    pub(crate) system: System,
    pub(crate) reading: Instant,
    pub(crate) line: LineBuffer,
}

/// Reads the line, whose line feed is still on it.
pub(crate) fn read(alloc: Global, script: &Script) -> Result<Line, Refusal>
    ensures { IsRead result script.now }
{
    match script.line.get() {
        None => Err(Refusal::LineTooLong),
        Some(bytes) => read_line(alloc, bytes, script.system.schema(), script.reading),
    }
}

/// Takes what a line says, and writes the reply.
fn answer<W: Write>(
    writer: &mut W,
    script: &mut Script,
    line: Result<Line, Refusal>,
) -> Result<(), WriteFault>
    requires { IsRead line script.old }
    ensures ok { OnOk result (AnswersLine
        (W.contents writer.old) (W.contents writer.new) script.old script.new) }
    ensures err { OnErr result (BreaksLine
        (W.contents writer.old) (W.contents writer.new) script.old) }
{
    match line {
        Ok(Line::Nothing) => Ok(()),
        Ok(Line::Clock(reading)) => {
            script.reading = reading;
            write_all(writer, b"ok\n")
        }
        Ok(Line::Step(step)) => take_step(writer, script, step),
        Err(refusal) => refuse(writer, script, &refusal),
    }
}

/// Takes a step, and writes the reply.
fn take_step<W: Write>(writer: &mut W, script: &mut Script, step: Step) -> Result<(), WriteFault>
    requires { said_by script.old ≡ Ok (Line.Step step) }
    ensures ok { OnOk result (AnswersLine
        (W.contents writer.old) (W.contents writer.new) script.old script.new) }
    ensures err { OnErr result (BreaksLine
        (W.contents writer.old) (W.contents writer.new) script.old) }
{
    asked_steps_fit();
    let reply = script.system.step_that_fits(step);
    print_reply(writer, &reply)
}

/// Writes why a line was refused.
fn refuse<W: Write>(writer: &mut W, script: &Script, refusal: &Refusal) -> Result<(), WriteFault>
    requires { IsRead (Err refusal.now) script.now }
    ensures ok { OnOk result (AnswersLine
        (W.contents writer.old) (W.contents writer.new) script.now script.now) }
    ensures err { OnErr result (BreaksLine
        (W.contents writer.old) (W.contents writer.new) script.now) }
{
    print_refusal(writer, refusal)
}

/// Ends the line: writes its reply, and begins the next one.
fn end_line<W: Write>(alloc: Global, writer: &mut W, script: &mut Script) -> Result<(), WriteFault>
    ensures ok { OnOk result (AnswersLine
        (W.contents writer.old) (W.contents writer.new) script.old script.new) }
    ensures err { OnErr result (BreaksLine
        (W.contents writer.old) (W.contents writer.new) script.old) }
    ensures line { OnOk result (script.new.line ≡ Some []) }
{
    let line = read(alloc, script);
    answer(writer, script, line)?;
    script.line.clear();
    Ok(())
}

/// Passes on what was written.
fn flush<W: Write>(writer: &mut W) -> Result<(), WriteFault>
    ensures { Keeps (W.contents writer.old) (W.contents writer.new) }
{
    if writer.flush().is_err() {
        return Err(WriteFault);
    }
    Ok(())
}

/// Takes a line feed, which ends the line.
fn take_feed<W: Write>(alloc: Global, writer: &mut W, script: &mut Script) -> Result<(), WriteFault>
    requires { Fits script.old.line }
    ensures ok { OnOk result (TakesBytes
        (W.contents writer.old) (W.contents writer.new) script.old script.new (10 ∷ [])) }
    ensures err { OnErr result (BreaksBytes
        (W.contents writer.old) (W.contents writer.new) script.old (10 ∷ [])) }
    ensures room { OnOk result (Fits script.new.line) }
{
    script.line.end();
    end_line(alloc, writer, script)
}

/// Takes the bytes up to and including the first line feed, or all if there is none. Returns their
/// number.
fn take_line<W: Write>(
    alloc: Global,
    writer: &mut W,
    script: &mut Script,
    bytes: &[u8],
) -> Result<usize, WriteFault>
    requires { Fits script.old.line }
    ensures ok { IfOk result (λ n. TakesBytes
        (W.contents writer.old) (W.contents writer.new) script.old script.new (take n bytes.now)) }
    ensures err { OnErr result (BreaksBytes
        (W.contents writer.old) (W.contents writer.new) script.old bytes.now) }
    ensures within { IfOk result (λ n. n ≤ length bytes.now) }
    ensures some { IfOk result (λ n. 0 < length bytes.now → 0 < n) }
    ensures room { OnOk result (Fits script.new.line) }
{
    let n = line_length(bytes);
    script.line.add(bytes.split_at(n).0);
    if n == bytes.len() {
        return Ok(n);
    }
    match take_feed(alloc, writer, script) {
        Ok(()) => Ok(n + 1),
        Err(fault) => Err(fault),
    }
}

/// Takes the next bytes of the script, and flushes the replies to the lines that they end.
fn feed<W: Write>(
    alloc: Global,
    writer: &mut W,
    script: &mut Script,
    bytes: &[u8],
) -> Result<(), WriteFault>
    requires { Fits script.old.line }
    ensures ok { OnOk result (TakesBytes
        (W.contents writer.old) (W.contents writer.new) script.old script.new bytes.now) }
    ensures err { OnErr result (BreaksBytes
        (W.contents writer.old) (W.contents writer.new) script.old bytes.now) }
    ensures room { OnOk result (Fits script.new.line) }
{
    let mut rest = bytes;
    while !rest.is_empty() {
        match take_line(alloc, writer, script, rest) {
            Ok(n) => rest = rest.split_at(n).1,
            Err(fault) => return Err(fault),
        }
    }
    flush(writer)
}

/// Ends the script: a last line without a line feed is answered where it has a byte, and its reply
/// flushed.
fn finish<W: Write>(alloc: Global, writer: &mut W, script: &mut Script) -> Result<(), WriteFault>
    requires { Fits script.old.line }
    ensures ok { OnOk result (EndsScript
        (W.contents writer.old) (W.contents writer.new) script.old script.new) }
    ensures err { OnErr result (BreaksEnd
        (W.contents writer.old) (W.contents writer.new) script.old) }
{
    if !script.line.has_byte() {
        return Ok(());
    }
    match end_line(alloc, writer, script) {
        Ok(()) => flush(writer),
        Err(fault) => Err(fault),
    }
}

/// Makes a run at the beginning of its script.
pub(crate) fn begin(alloc: Global, system: System) -> Mem<Script>
    ensures system { IfOk result (λ s. s.system ≡ system) }
    ensures reading { IfOk result (λ s. s.reading ≡ 0) }
    ensures line { IfOk result (λ s. s.line ≡ Some []) }
{
    let line = LineBuffer::new(alloc)?;
    Ok(Script {
        system,
        reading: 0,
        line,
    })
}

/// Returns the refusal in a reply, if it is one.
pub(crate) fn refusal_in(reply: Reply) -> Option<Refusal>
    ensures { result ≡ refusal_in reply }
{
    match reply {
        Reply::Refused(refusal) => Some(refusal),
        _ => None,
    }
}

/// Takes steps in turn, up to the first that is refused, or at which memory ran out. Then those
/// before it are taken; it is not said what the system stands for.
pub fn take_all(system: &mut System, first: Vec<Step>) -> Result<(), Refusal>
    ensures all { OnOk result (LeadsTo system.old system.new first.items) }
    ensures some { IfErr result (λ refusal. RefusesFirst system.old first.items refusal) }
{
    for step in first {
        let reply = system.step(step);
        match refusal_in(reply) {
            None => {}
            Some(refusal) => return Err(refusal),
        }
    }
    Ok(())
}

/// Makes a store that took these steps.
///
/// `First` if one was refused, or memory ran out at it; otherwise `Memory`.
pub fn lead(alloc: Global, schema: Schema, first: Vec<Step>) -> Result<System, RunFault>
    ensures stands { IfOk result (λ s. Stands schema s (history_of first.items)) }
    ensures taken { OnOk result (first_refusal schema [] first.items ≡ None) }
    ensures err { IfErr result (λ fault. IsUnled schema first.items fault) }
{
    let mut system = match System::new(alloc, schema) {
        Ok(system) => system,
        Err(_) => return Err(RunFault::Memory),
    };
    match take_all(&mut system, first) {
        Ok(()) => Ok(system),
        Err(refusal) => Err(RunFault::First(refusal)),
    }
}

/// Runs a script over a store as it is; otherwise like `run_script`. It is never `First`.
pub fn run_script_in<I: Read, W: Write>(
    alloc: Global,
    system: System,
    reader: &mut I,
    writer: &mut W,
) -> Result<System, RunFault>
    ensures done { IfOk result (λ s. (first : Schema) (h : History) → Stands first system h
        → IsRunAfter first line_says h s
        (I.remaining reader.old) (I.remaining reader.new)
        (W.contents writer.old) (W.contents writer.new)) }
    ensures read { result ≡ Err RunFault.Read
        → (first : Schema) (h : History) → Stands first system h
        → IsCutAfter first line_says h
        (I.remaining reader.old) (I.remaining reader.new)
        (W.contents writer.old) (W.contents writer.new) }
    ensures write { result ≡ Err RunFault.Write
        → (first : Schema) (h : History) → Stands first system h
        → IsStoppedAfter first line_says h
        (I.remaining reader.old) (I.remaining reader.new)
        (W.contents writer.old) (W.contents writer.new) }
    ensures memory { result ≡ Err RunFault.Memory → IsIdle
        (I.remaining reader.old) (I.remaining reader.new)
        (W.contents writer.old) (W.contents writer.new) }
    ensures first { IfErr result (λ fault. is_first fault ≡ false) }
{
    let Ok(mut script) = begin(alloc, system) else {
        return Err(RunFault::Memory);
    };
    let mut chunk = [0u8; CHUNK];
    for _turn in 0..MOST_READS {
        let n = match reader.read(&mut chunk) {
            Ok(n) => n,
            Err(_) => return Err(RunFault::Read),
        };
        if n == 0 {
            return match finish(alloc, writer, &mut script) {
                Ok(()) => Ok(script.system),
                Err(_) => Err(RunFault::Write),
            };
        }
        match feed(alloc, writer, &mut script, chunk.split_at(n).0) {
            Ok(()) => {}
            Err(_) => return Err(RunFault::Write),
        }
    }
    Err(RunFault::Read)
}

/// Takes steps, for which nothing is written, and then runs a script as `run_script` does.
///
/// At `First` a step before the script's was refused, or memory ran out at it; nothing was read or
/// written. The other faults are those of `run_script`, with the transcript after these steps.
pub fn run_script_after<I: Read, W: Write>(
    alloc: Global,
    first: Vec<Step>,
    reader: &mut I,
    writer: &mut W,
    schema: Schema,
) -> Result<System, RunFault>
    ensures done { IfOk result (λ system.
        IsRunAfter schema line_says (history_of first.items) system
        (I.remaining reader.old) (I.remaining reader.new)
        (W.contents writer.old) (W.contents writer.new)) }
    ensures taken { OnOk result (first_refusal schema [] first.items ≡ None) }
    ensures read { result ≡ Err RunFault.Read
        → IsCutAfter schema line_says (history_of first.items)
        (I.remaining reader.old) (I.remaining reader.new)
        (W.contents writer.old) (W.contents writer.new) }
    ensures write { result ≡ Err RunFault.Write
        → IsStoppedAfter schema line_says (history_of first.items)
        (I.remaining reader.old) (I.remaining reader.new)
        (W.contents writer.old) (W.contents writer.new) }
    ensures memory { result ≡ Err RunFault.Memory → IsIdle
        (I.remaining reader.old) (I.remaining reader.new)
        (W.contents writer.old) (W.contents writer.new) }
    ensures first { (refusal : Why) → result ≡ Err (RunFault.First refusal)
        → IsRefusedFirst schema first.items refusal × IsIdle
        (I.remaining reader.old) (I.remaining reader.new)
        (W.contents writer.old) (W.contents writer.new) }
{
    match lead(alloc, schema, first) {
        Ok(system) => run_script_in(alloc, system, reader, writer),
        Err(fault) => Err(fault),
    }
}

/// Runs a script over a schema: reads the reader to its end, and writes one reply for each line
/// that is not blank and no comment, each before the next line is taken. The replies are flushed
/// before the next read, and at the end.
///
/// The transcript of what was read was written, and nothing else, whatever the reader. At `Read`
/// the replies to the lines that ended are written, and at `Write` a prefix of the transcript of
/// what was read. At `Memory` nothing was read or written.
pub fn run_script<I: Read, W: Write>(
    alloc: Global,
    reader: &mut I,
    writer: &mut W,
    schema: Schema,
) -> Result<System, RunFault>
    ensures done { IfOk result (λ system. IsRun schema line_says system
        (I.remaining reader.old) (I.remaining reader.new)
        (W.contents writer.old) (W.contents writer.new)) }
    ensures read { result ≡ Err RunFault.Read → IsCut schema line_says
        (I.remaining reader.old) (I.remaining reader.new)
        (W.contents writer.old) (W.contents writer.new) }
    ensures write { result ≡ Err RunFault.Write → IsStopped schema line_says
        (I.remaining reader.old) (I.remaining reader.new)
        (W.contents writer.old) (W.contents writer.new) }
    ensures memory { result ≡ Err RunFault.Memory → IsIdle
        (I.remaining reader.old) (I.remaining reader.new)
        (W.contents writer.old) (W.contents writer.new) }
    ensures first { (refusal : Why) → result ≡ Err (RunFault.First refusal)
        → (refusal ≡ Refusal.Memory) × IsIdle
        (I.remaining reader.old) (I.remaining reader.new)
        (W.contents writer.old) (W.contents writer.new) }
{
    run_script_after(alloc, Vec::new(alloc), reader, writer, schema)
}
