//! Engines: a worker's seat at a board.

ghost use Rattle.std.specs.Prelude.{◌≡◌, ◌≤◌, [], ◌∷◌, None, Some, IfOk, IfSome, OnErr};
ghost use Rattle.kw_bits.specs.Faults.{last_count, one_more};
ghost use Rattle.attempt_log.specs.Entries.{settle_entry, submit_entry};
ghost use Rattle.attempt_log.specs.Seats.{Grown, HandsBack, IfJob, SeesLast, SeesMore, gives_job, has_finished, is_finished, last_task, one_more_if};
ghost use Rattle.attempt_log.specs.Setting.{FitsItself, IsFor, DesignAndStimulus, attempt_of, task_of};

use crate::entry::{Settled, Submitted};
use crate::job::JobAnswer;
use crate::traced::Attempt;
use kw_bits::NoMemory;

/// A rule in a cycle.
#[derive(Clone, Copy, Debug, PartialEq, Eq)]
pub struct Task {
    pub cycle: u32,
    pub rule: u32,
}

/// What a seat counts of its calls. A count goes up to u64::MAX, where it stands.
#[derive(Debug, Drop)]
pub struct Counts {
    /// The task of the last job that was given.
    pub task: Option<Task>,
    /// How often a job was asked for.
    pub asked: u64,
    /// How often one was given.
    pub given: u64,
    /// How often a call returned that the board has finished.
    pub ended: u64,
}

impl Counts {
    /// Of a seat that wasn't asked yet.
    pub fn new() -> Counts
        ensures { result ≡ record { task = None; asked = 0; given = 0; ended = 0 } }
    {
        Counts {
            task: None,
            asked: 0,
            given: 0,
            ended: 0,
        }
    }

    /// Counts a call of `job` with this answer.
    pub fn count(&mut self, answer: &Result<JobAnswer, NoMemory>)
        ensures task { IfOk answer.now (λ told. self.new.task ≡ last_task self.old.task told) }
        ensures same_task { OnErr answer.now (self.new.task ≡ self.old.task) }
        ensures asked { self.new.asked ≡ one_more self.old.asked }
        ensures given { IfOk answer.now (λ told. self.new.given ≡ one_more_if (gives_job told) self.old.given) }
        ensures none_given { OnErr answer.now (self.new.given ≡ self.old.given) }
        ensures ended { IfOk answer.now (λ told. self.new.ended ≡ one_more_if (has_finished told) self.old.ended) }
        ensures none_ended { OnErr answer.now (self.new.ended ≡ self.old.ended) }
    {
        self.asked = self.asked.saturating_add(1);
        match answer {
            Ok(JobAnswer::Job(job)) => {
                self.task = Some(Task {
                    cycle: job.cycle,
                    rule: job.rule,
                });
                self.given = self.given.saturating_add(1);
            }
            Ok(JobAnswer::Finished) => self.ended = self.ended.saturating_add(1),
            _ => {}
        }
    }

    /// Counts a settle with this answer.
    pub fn count_settle(&mut self, settled: &Settled)
        ensures task { self.new.task ≡ self.old.task }
        ensures asked { self.new.asked ≡ self.old.asked }
        ensures given { self.new.given ≡ self.old.given }
        ensures ended { self.new.ended ≡ one_more_if (is_finished settled.now) self.old.ended }
    {
        if let Settled::Finished = settled {
            self.ended = self.ended.saturating_add(1);
        }
    }

    /// No count is past its last value.
    pub fn are_counts(&self)
        ensures asked { self.now.asked ≤ last_count }
        ensures given { self.now.given ≤ last_count }
        ensures ended { self.now.ended ≤ last_count }
    {
        is_count(self.asked);
        is_count(self.given);
        is_count(self.ended);
    }
}

// A count of 64 bits is at most the last one.
fn is_count(count: u64)
    ensures { count ≤ last_count }
{}

/// A worker's place at a board. What its calls answer is for its kind to say; here is what a worker needs of each.
pub trait BoardSeat {
    ghost use Rattle.std.specs.Prelude.{ℕ, List, Option};
    ghost use Rattle.attempt_log.specs.Setting.{DesignAndStimulus};
    ghost use Rattle.attempt_log.specs.declared.entry.Entry.{Entry};
    ghost use Rattle.attempt_log.specs.declared.seat.Task.{Task};

    /// What it keeps beside its worker's number, in every call.
    ghost Origin: { Type 0 };

    ghost origin: { Self → Origin };

    /// The worker's number.
    ghost number: { Self → ℕ };

    /// The design and the stimulus that its jobs and attempts are for, if it exposes them.
    ghost setting: { Self → Option DesignAndStimulus };

    /// The task of the last job that it gave.
    ghost task: { Self → Option Task };

    /// How often it was asked for a job, how often it gave one, and how often a call returned that the board has
    /// finished. No count is past its last value, as `worker` ensures, so none ever falls.
    ghost asked: { Self → ℕ };

    ghost given: { Self → ℕ };

    ghost ended: { Self → ℕ };

    /// The board's history as far as it has seen it, if it exposes it.
    ghost seen: { Self → Option (List Entry) };

    /// The entries that it made itself, if it exposes them.
    ghost own: { Self → Option (List Entry) };

    /// A job, by a number that tells candidates apart; it may be any. Out of memory, it was asked all the same.
    fn job(&mut self, pick: u64) -> Result<JobAnswer, NoMemory>
        ensures fits { IfOk result (λ told. IfJob told FitsItself) }
        ensures is_for { IfSome (setting self.old) (λ s. IfOk result (λ told. IfJob told (λ job. IsFor s (attempt_of job)))) }
        ensures number { number self.new ≡ number self.old }
        ensures origin { origin self.new ≡ origin self.old }
        ensures setting { setting self.new ≡ setting self.old }
        ensures task { IfOk result (λ told. task self.new ≡ last_task (task self.old) told) }
        ensures same_task { OnErr result (task self.new ≡ task self.old) }
        ensures asked { asked self.new ≡ one_more (asked self.old) }
        ensures given { IfOk result (λ told. given self.new ≡ one_more_if (gives_job told) (given self.old)) }
        ensures none_given { OnErr result (given self.new ≡ given self.old) }
        ensures ended { IfOk result (λ told. ended self.new ≡ one_more_if (has_finished told) (ended self.old)) }
        ensures none_ended { OnErr result (ended self.new ≡ ended self.old) }
        ensures seen { SeesMore (seen self.old) (seen self.new) }
        ensures own { own self.new ≡ own self.old };

    /// Hands in the attempt at the task of the last job. A refused one is handed back.
    fn submit(&mut self, attempt: Attempt) -> Submitted
        requires task { task self.old ≡ Some (task_of attempt) }
        requires is_for { IfSome (setting self.old) (λ s. IsFor s attempt) }
        ensures number { number self.new ≡ number self.old }
        ensures origin { origin self.new ≡ origin self.old }
        ensures setting { setting self.new ≡ setting self.old }
        ensures task { task self.new ≡ task self.old }
        ensures asked { asked self.new ≡ asked self.old }
        ensures given { given self.new ≡ given self.old }
        ensures ended { ended self.new ≡ ended self.old }
        ensures handed_back { HandsBack attempt result }
        ensures seen { SeesLast (seen self.old) (submit_entry (number self.old) attempt result) (seen self.new) }
        ensures own { Grown (own self.old) (submit_entry (number self.old) attempt result ∷ []) (own self.new) };

    /// Settles the head, or closes the cycle at the end of its path.
    fn settle(&mut self) -> Settled
        ensures number { number self.new ≡ number self.old }
        ensures origin { origin self.new ≡ origin self.old }
        ensures setting { setting self.new ≡ setting self.old }
        ensures task { task self.new ≡ task self.old }
        ensures asked { asked self.new ≡ asked self.old }
        ensures given { given self.new ≡ given self.old }
        ensures ended { ended self.new ≡ one_more_if (is_finished result) (ended self.old) }
        ensures seen { SeesLast (seen self.old) (settle_entry (number self.old) result) (seen self.new) }
        ensures own { Grown (own self.old) (settle_entry (number self.old) result ∷ []) (own self.new) };

    /// The worker's number. Each count is one of 64 bits.
    fn worker(&self) -> u32
        ensures number { result ≡ number self.now }
        ensures asked { asked self.now ≤ last_count }
        ensures given { given self.now ≤ last_count }
        ensures ended { ended self.now ≤ last_count };
}
