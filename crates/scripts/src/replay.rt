//! Scripts that are replayed: their lines are taken in turn, nothing is written, and none may be refused.
ghost use Rattle.std.specs.Prelude.{◌≡◌, ◌≤◌, ◌<◌, ◌+◌, Some, [], ◌∷◌, OnOk, IfOk, IfErr, Ok, length, take, true, false};
ghost use Rattle.values.specs.Tables.{Schema};
ghost use Rattle.steps.specs.Idle.{is_idle};
ghost use Rattle.histories.specs.History.{History, has_open};
ghost use Rattle.interleaving.specs.SystemState.{Stands};
ghost use Rattle.lines.specs.Partial.{Fits};
ghost use Rattle.statement.specs.Line.{line_says};
ghost use Rattle.scripts.specs.Replay.{IsReplayed, IsUnreplayed};
ghost use Rattle.scripts.specs.Script.{IsRead, said_by};
ghost use Rattle.scripts.specs.Replaying.{EndsReplay, PassesLine, RefusesLine, StopsAtEnd, StopsAtLine, StopsIn, TakesOn};

use crate::script::{Script, begin, read, refusal_in};
use interleaving::System;
use lines::{CHUNK, MOST_READS, line_length};
use statement::{Line, asked_steps_fit};
use std::alloc::Global;
use std::io::Read;
use steps::Step;
use values::Refusal;

/// Why a script was not replayed.
#[derive(Debug, PartialEq, Eq, Drop)]
pub enum ReplayFault {
    /// The line with this number, from 1, was refused for this, or memory ran out at it.
    Refused(u64, Refusal),
    /// A session has a transaction open at the script's end.
    Open,
    /// The reader failed, gave no end in 2^32 reads, or gave more lines than there are numbers.
    Read,
    /// Memory ran out before anything was read.
    Memory,
}

/// A replay: the run of its script, and how many lines were taken.
#[derive(Drop)]
struct Replaying {
    script: Script,
    taken: u64,
}

/// Takes what a line says.
fn pass(script: &mut Script, line: Result<Line, Refusal>) -> Result<(), Refusal>
    requires { IsRead line script.old }
    ensures ok { OnOk result (PassesLine script.old script.new) }
    ensures err { IfErr result (λ refusal. RefusesLine refusal script.old) }
{
    match line {
        Ok(Line::Nothing) => Ok(()),
        Ok(Line::Clock(reading)) => {
            script.reading = reading;
            Ok(())
        }
        Ok(Line::Step(step)) => pass_step(script, step),
        Err(refusal) => Err(refusal),
    }
}

/// Takes a step.
fn pass_step(script: &mut Script, step: Step) -> Result<(), Refusal>
    requires { said_by script.old ≡ Ok (Line.Step step) }
    ensures ok { OnOk result (PassesLine script.old script.new) }
    ensures err { IfErr result (λ refusal. RefusesLine refusal script.old) }
{
    asked_steps_fit();
    let reply = script.system.step_that_fits(step);
    match refusal_in(reply) {
        None => Ok(()),
        Some(refusal) => Err(refusal),
    }
}

/// Ends the line: takes and counts it, and begins the next one.
fn end_line(alloc: Global, replay: &mut Replaying) -> Result<(), ReplayFault>
    ensures ok { OnOk result (PassesLine replay.old.script replay.new.script) }
    ensures taken { OnOk result (replay.new.taken ≡ replay.old.taken + 1) }
    ensures line { OnOk result (replay.new.script.line ≡ Some []) }
    ensures err { IfErr result (λ fault. StopsAtLine fault replay.old) }
{
    let Some(number) = replay.taken.checked_add(1) else {
        return Err(ReplayFault::Read);
    };
    let line = read(alloc, &replay.script);
    match pass(&mut replay.script, line) {
        Ok(()) => {}
        Err(refusal) => return Err(ReplayFault::Refused(number, refusal)),
    }
    replay.script.line.clear();
    replay.taken = number;
    Ok(())
}

/// Takes a line feed, which ends the line.
fn take_feed(alloc: Global, replay: &mut Replaying) -> Result<(), ReplayFault>
    requires { Fits replay.old.script.line }
    ensures ok { OnOk result (TakesOn replay.old replay.new (10 ∷ [])) }
    ensures err { IfErr result (λ fault. StopsIn fault replay.old (10 ∷ [])) }
    ensures room { OnOk result (Fits replay.new.script.line) }
{
    replay.script.line.end();
    end_line(alloc, replay)
}

/// Takes the bytes up to and including the first line feed, or all if there is none. Returns their
/// number.
fn take_line(alloc: Global, replay: &mut Replaying, bytes: &[u8]) -> Result<usize, ReplayFault>
    requires { Fits replay.old.script.line }
    ensures ok { IfOk result (λ n. TakesOn replay.old replay.new (take n bytes.now)) }
    ensures err { IfErr result (λ fault. StopsIn fault replay.old bytes.now) }
    ensures within { IfOk result (λ n. n ≤ length bytes.now) }
    ensures some { IfOk result (λ n. 0 < length bytes.now → 0 < n) }
    ensures room { OnOk result (Fits replay.new.script.line) }
{
    let n = line_length(bytes);
    replay.script.line.add(bytes.split_at(n).0);
    if n == bytes.len() {
        return Ok(n);
    }
    match take_feed(alloc, replay) {
        Ok(()) => Ok(n + 1),
        Err(fault) => Err(fault),
    }
}

/// Takes the next bytes of the script.
fn feed(alloc: Global, replay: &mut Replaying, bytes: &[u8]) -> Result<(), ReplayFault>
    requires { Fits replay.old.script.line }
    ensures ok { OnOk result (TakesOn replay.old replay.new bytes.now) }
    ensures err { IfErr result (λ fault. StopsIn fault replay.old bytes.now) }
    ensures room { OnOk result (Fits replay.new.script.line) }
{
    let mut rest = bytes;
    while !rest.is_empty() {
        match take_line(alloc, replay, rest) {
            Ok(n) => rest = rest.split_at(n).1,
            Err(fault) => return Err(fault),
        }
    }
    Ok(())
}

/// Ends the script: a last line without a line feed is taken where it has a byte.
fn finish(alloc: Global, replay: &mut Replaying) -> Result<(), ReplayFault>
    ensures ok { OnOk result (EndsReplay replay.old replay.new) }
    ensures err { IfErr result (λ fault. StopsAtEnd fault replay.old) }
{
    if !replay.script.line.has_byte() {
        return Ok(());
    }
    end_line(alloc, replay)
}

/// Takes the lines of a script in turn over a store as it is, and writes nothing: none of them may
/// be refused, and at the end no session may have a transaction open.
///
/// The reader is read to its end, and the store stands for what all lines leave. At `Refused` the
/// line is the first that is refused, by what the lines before it leave, or memory ran out at it; at
/// `Open` no line is refused; at `Memory` nothing was read.
pub fn replay_script<I: Read>(
    alloc: Global,
    system: System,
    reader: &mut I,
) -> Result<System, ReplayFault>
    ensures done { IfOk result (λ s. (first : Schema) (h : History) → Stands first system h
        → IsReplayed first line_says h s (I.remaining reader.old) (I.remaining reader.new)) }
    ensures fault { IfErr result (λ fault. (first : Schema) (h : History) → Stands first system h
        → IsUnreplayed fault first line_says h (I.remaining reader.old) (I.remaining reader.new)) }
{
    let Ok(script) = begin(alloc, system) else {
        return Err(ReplayFault::Memory);
    };
    let mut replay = Replaying { script, taken: 0 };
    let mut chunk = [0u8; CHUNK];
    for _turn in 0..MOST_READS {
        let n = match reader.read(&mut chunk) {
            Ok(n) => n,
            Err(_) => return Err(ReplayFault::Read),
        };
        if n == 0 {
            return match finish(alloc, &mut replay) {
                Ok(()) => close(replay.script.system),
                Err(fault) => Err(fault),
            };
        }
        match feed(alloc, &mut replay, chunk.split_at(n).0) {
            Ok(()) => {}
            Err(fault) => return Err(fault),
        }
    }
    Err(ReplayFault::Read)
}

/// Returns a store in which no session has a transaction open.
fn close(system: System) -> Result<System, ReplayFault>
    ensures ok { IfOk result (λ s. (s ≡ system) × ((first : Schema) (h : History)
        → Stands first system h → is_idle (has_open h) ≡ true)) }
    ensures err { IfErr result (λ fault. (fault ≡ ReplayFault.Open) × ((first : Schema) (h : History)
        → Stands first system h → is_idle (has_open h) ≡ false)) }
{
    if system.is_idle() {
        Ok(system)
    } else {
        Err(ReplayFault::Open)
    }
}
