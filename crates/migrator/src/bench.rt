//! The workers, and the channels between them and the round.
use crate::fault::Cause;
use crate::name::RoundName;
use crate::stop::Stop;
use crate::task::{Done, Task};
use crossbeam_channel::{Receiver, Sender};
use sessions::{Gate, Place, pass_gate};
use std::alloc::{AllocError, Global};
use std::sync::Wait;

/// What a worker answers: what it has packed, or why it has not, and then it has ended.
pub(crate) type Answer<N> = Result<Done<N>, Stop>;

/// The round's ends of the channels.
#[derive(Drop)]
pub(crate) struct Desk<N: RoundName> {
    pub(crate) tasks: Sender<Task<N>, Global>,
    pub(crate) answers: Receiver<Answer<N>, Global>,
}

impl<N: RoundName> Desk<N> {
    /// Returns why all workers have ended, once no task can be sent: the cause of the first that
    /// did not pack.
    pub(crate) fn why_ended<R: Wait>(&self, rt: &R) -> Cause {
        for answer in self.answers.iter(rt) {
            if let Err(stop) = answer {
                return Cause::from(stop);
            }
        }
        Cause::Worker
    }
}

/// A worker's ends.
#[derive(Drop)]
pub(crate) struct Bench<N: RoundName> {
    who: u8,
    tasks: Receiver<Task<N>, Global>,
    answers: Sender<Answer<N>, Global>,
}

/// Makes the ends of a round and of its workers, numbered from 1. Both channels hold as many
/// messages as there are workers: while no more tasks than that are unanswered, no end waits for
/// room.
pub(crate) fn make_ends<N: RoundName>(
    alloc: Global,
    workers: u8,
) -> Result<(Desk<N>, Vec<Bench<N>>), AllocError> {
    let room = usize::from(workers);
    let (to_workers, tasks) = crossbeam_channel::bounded::<Task<N>, Global>(alloc, room)?;
    let (to_round, answers) = crossbeam_channel::bounded::<Answer<N>, Global>(alloc, room)?;
    let mut benches = Vec::with_capacity(alloc, room)?;
    for place in 0..workers {
        let bench = Bench {
            who: place + 1,
            tasks: tasks.clone()?,
            answers: to_round.clone()?,
        };
        benches.push(bench).map_err(AllocError::from)?;
    }
    let desk = Desk {
        tasks: to_workers,
        answers,
    };
    Ok((desk, benches))
}

/// Answers each task that comes, until there are no more, or until one is not packed.
pub(crate) fn work<N: RoundName, R: Wait, G: Gate>(
    rt: &R,
    alloc: Global,
    gate: &G,
    bench: Bench<N>,
) {
    for task in bench.tasks.iter(rt) {
        if !take(rt, alloc, gate, &bench, task) {
            return;
        }
    }
}

/// Answers a task, and says whether the worker goes on.
fn take<N: RoundName, R: Wait, G: Gate>(
    rt: &R,
    alloc: Global,
    gate: &G,
    bench: &Bench<N>,
    task: Task<N>,
) -> bool {
    let answer = pass_and_pack(rt, alloc, gate, bench.who, task);
    let goes_on = answer.is_ok();
    bench.answers.send(rt, answer).is_ok() && goes_on
}

/// Passes the gate as a worker, and packs.
pub(crate) fn pass_and_pack<N: RoundName, R: Wait, G: Gate>(
    rt: &R,
    alloc: Global,
    gate: &G,
    who: u8,
    task: Task<N>,
) -> Answer<N> {
    pass_gate(gate, rt, who, Place::Pack)?;
    Ok(task.pack(alloc)?)
}
