//! Gates that workers pass.
use sessions::{Gate, Place};
use std::sync::{Mutex, Wait};

/// Whom a gate lets pass, to pack.
#[derive(Clone, Copy, PartialEq, Eq)]
pub(crate) enum Rule {
    /// So many, and then it gives up.
    Few(u32),
    /// The workers from 1 to the last one.
    UpTo(u8),
    /// The workers 1 and 2, once both have come to it.
    Both,
    /// Anyone, once it was come to twice.
    Twice,
    /// Worker 1, where no other comes to it meanwhile.
    Alone,
    /// Nobody.
    Nobody,
}

/// Who has come to a gate: how many, and whether worker 1, worker 2, and any but worker 1.
#[derive(Clone, Copy)]
struct Comers {
    count: u32,
    first: bool,
    second: bool,
    other: bool,
}

/// A gate of a rule.
#[derive(Drop)]
pub(crate) struct WorkerGate {
    rule: Rule,
    comers: Mutex<Comers>,
}

impl WorkerGate {
    pub(crate) fn new(rule: Rule) -> WorkerGate {
        WorkerGate {
            rule,
            comers: Mutex::new(Comers {
                count: 0,
                first: false,
                second: false,
                other: false,
            }),
        }
    }

    /// Notes that a worker has come; how many have then.
    fn note<R: Wait>(&self, rt: &R, who: u8) -> u32 {
        let mut comers = self.comers.lock(rt);
        let before = *comers;
        let count = before.count.saturating_add(1);
        *comers = Comers {
            count,
            first: before.first || who == 1,
            second: before.second || who == 2,
            other: before.other || who != 1,
        };
        count
    }

    /// Whether those have come whom the gate looks for, or do before it has looked so often.
    fn sees_them<R: Wait>(&self, rt: &R, looks: u32) -> bool {
        for _ in 0..looks {
            let comers = *self.comers.lock(rt);
            let is_seen = match self.rule {
                Rule::Both => comers.first && comers.second,
                Rule::Twice => comers.count >= 2,
                Rule::Alone => comers.other,
                Rule::Few(_) | Rule::UpTo(_) | Rule::Nobody => false,
            };
            if is_seen {
                return true;
            }
        }
        false
    }
}

impl Gate for WorkerGate {
    fn pass<R: Wait>(&self, rt: &R, who: u8, place: Place) -> bool {
        if place != Place::Pack {
            return false;
        }
        let count = self.note(rt, who);
        match self.rule {
            Rule::Few(most) => count <= most,
            Rule::UpTo(last) => 1 <= who && who <= last,
            Rule::Both | Rule::Twice => self.sees_them(rt, 200_000_000),
            Rule::Alone => who == 1 && !self.sees_them(rt, 200_000),
            Rule::Nobody => self.sees_them(rt, 1_000_000),
        }
    }
}
