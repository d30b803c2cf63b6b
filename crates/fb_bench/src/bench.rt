//! The workbench: its texts, its entries and its history, and the calls that change them.
ghost use Rattle.std.specs.Prelude.{◌≡◌};
ghost use Rattle.fb_entries.specs.{Jobs.Reads.{stale, is_current}, Jobs.Values.{all_seen, seen_of}};
ghost use Rattle.fb_bench.specs.Records.{job_in};

mod state;

use crate::answers::{Answered, Taken};
use crate::commit::{Outcome, Present, RecordedCall, first_changes, outcome_of, record_with_room};
use crate::found::{keep_all, shares_of};
use crate::peek::Shown;
use crate::request::{Request, call_of_result, reply_of_job};
use crate::stale::first_stale;
use fb_entries::index::Index;
use fb_entries::jobs::{Finished, Job, Key, Read, current_nets, current_reads, locality};
use fb_entries::library::{Change, Library, Spot};
use fb_entries::{Entries, Marks};
use fb_history::{
    Asked, Call, CheckpointRefused, Committed, Delivered, GivenBack, History, Limits, Record,
    Refused, Reply, Start, TextChange,
};
use fb_text::Name;
use std::alloc::{AllocError, Global};
use std::collections::BTreeMap;
use std::marker::Model;
use std::sync::Arc;

/// The workbench of one thread. All of its state follows from its history and from what that begins with.
pub struct Bench {
    alloc: Global,
    history: History,
    library: Library,
    commits: u64,
    entries: Entries,
    index: Index,
    // how many keys the last commit that was done has reached
    reached: u64,
}

impl Drop for Bench {
    fn drop(self) {
        let Self {
            alloc: _,
            history: _,
            library: _,
            commits: _,
            entries: _,
            index: _,
            reached: _,
        } = self;
    }
}

impl Model for Bench {
    ghost use Rattle.fb_history.specs.BenchView.{BenchView};

    ghost Value = { BenchView };

    ghost use Rattle.fb_bench.specs.Consistent.{IsConsistent};

    ghost view = { λ it. it.history };

    ghost invariant = { λ it. IsConsistent it.library it.commits it.entries it.index it.history };
}

impl Bench {
    ghost use Rattle.std.specs.Prelude.{◌≡◌, ◌+◌, ◌<◌, ◌^◌, ◌↔◌, true, false, Some, Ok, Err, IfOk, IfErr, OnOk, OnErr, IsTrue, is_some, length, slice_get, count_by};
    ghost use Rattle.std.specs.{Option.{option_map}, List.Sorted.{IsStrictlySortedBy}};
    ghost use Rattle.fb_entries.specs.{Jobs.KeyOrder.{key_cmp}, Jobs.Values.{all_seen}, Indexed.{IsIndexOf}};
    ghost use Rattle.fb_entries.specs.Library.Texts.{held, revision_of};
    ghost use Rattle.fb_history.specs.Machine.{ToTake, ToDeliver, ToGiveBack, ToAsk, OfCommit, OfTake, OfDeliver, OfGiveBack, OfAsk, shown, next, deliver_answer, keys_of};
    ghost use Rattle.fb_history.specs.declared.answers.Delivered.TheVariants.{Accepted};
    ghost use Rattle.fb_history.specs.BenchView.{IsOrigin, IsFull, new_bench, state_of, reply_at, recorded, record_of, record_numbered, all_turns, last_number, pages_after, calls_of, IsReplay, AreTurns};
    ghost use Rattle.fb_history.specs.{Events.{last_event_of}, Records.{records_in}, Checkpoints.{checking, checkpointed, ChecksAs}, Due.{is_due}, Laws.{entry_after}};
    ghost use Rattle.fb_bench.specs.{Records.{call_of, reply_of, shown_in, job_in, commit_of}, Refusals.{IsFullRefusal, round_as}};
    ghost use Rattle.fb_bench.specs.{Requests.{call_for, reply_in}, Calls.{Fits, ServesRound}, Solo.{IsCallStep, IsOpenCall}, Headline.{LeavesState, ShowsEntry}, Peeks.{shown_by, is_pending}};

    /// An empty workbench. It keeps the allocator for all its calls.
    pub fn new(alloc: Global, limits: Limits) -> Bench
        ensures { result ≡ new_bench limits.units limits.history }
    {
        Bench {
            alloc,
            history: History::new(alloc, limits),
            library: Library::new(alloc),
            commits: 0,
            entries: Entries::new(alloc),
            index: Index::new(alloc),
            reached: 0,
        }
    }

    /// Whether there is something to take: a key that is pending and not handed out.
    pub fn has_work(&self) -> bool
        ensures { result ≡ is_some (next (state_of self.now)) }
    {
        self.next().is_some()
    }

    /// What is known of a key: what is answered, and what is recorded, with a share of the key.
    fn shown(&self, key: Key) -> Result<(Asked, Reply, Arc<Key>), AllocError>
        ensures answer { IfOk result (λ made. shown_in made.0 ≡ shown (state_of self.now) key) }
        ensures stored { IfOk result (λ made. reply_of made.1 ≡ OfAsk (shown (state_of self.now) key)) }
        ensures key { IfOk result (λ made. made.2.value ≡ key) }
    {
        let Some(entry) = self.entries.get(&key) else {
            let own = Arc::new(self.alloc, key)?;
            return Ok((Asked::NoSuchKey, Reply::NoSuchKey, own));
        };
        let shared = entry.share_of(self.alloc, key)?;
        match entry.value() {
            None => Ok((Asked::Pending, Reply::Pending, shared)),
            Some(kept) => {
                let answer = kept.value().clone()?;
                let stored = kept.value().clone()?;
                Ok((Asked::Value(answer), Reply::Value(stored), shared))
            }
        }
    }

    /// What is known of a key: its value, which is what the present texts give from scratch, or that it is pending, if and only if no current result has come
    /// since the last commit that made or reached it.
    #[tactic(auto, using(crate::proofs::Headline::leaves_state))]
    pub fn ask(&mut self, caller: u32, key: Key) -> Result<Asked, Refused>
        ensures step { OnOk result (self.new ≡ recorded self.old caller (ToAsk key)) }
        ensures answer { IfOk result
            (λ asked. OfAsk (shown_in asked) ≡ reply_at self.old (ToAsk key)) }
        ensures shows { IfOk result
            (λ asked. ShowsEntry self.old (ToAsk key) (OfAsk (shown_in asked))) }
        ensures refused { IfOk result
            (λ asked. LeavesState self.old (OfAsk (shown_in asked)) self.new) }
        ensures full { IsFullRefusal self.old.log result }
        ensures err { OnErr result (self.new ≡ self.old) }
    {
        // For the proof: the start of the history is one of which the law of entries holds.
        self.begins();
        let (answer, _share) = self.ask_recorded(caller, key)?;
        Ok(answer)
    }

    /// As `ask`, with a share of the record.
    fn ask_recorded(&mut self, caller: u32, key: Key) -> Result<(Asked, Arc<Record>), Refused>
        ensures step { OnOk result (self.new ≡ recorded self.old caller (ToAsk key)) }
        ensures answer { IfOk result
            (λ made. OfAsk (shown_in made.0) ≡ reply_at self.old (ToAsk key)) }
        ensures share { IfOk result (λ made. made.1.value ≡ record_of self.old caller (ToAsk key)) }
        ensures full { IsFullRefusal self.old.log result }
        ensures err { OnErr result (self.new ≡ self.old) }
    {
        if self.history.is_full() {
            return Err(Refused::HistoryFull);
        }
        let (answer, stored, shared) = self.shown(key)?;
        let share = self.history.push(caller, Call::Ask(shared), stored)?;
        Ok((answer, share))
    }

    /// What is known of a key, lent and not recorded. It is pending exactly while no current result
    /// has come since the last commit that made or reached the key, and else it is the value that the
    /// present texts give from scratch.
    pub fn peek(&self, key: &Key) -> Shown<'_>
        ensures shown { shown_by result ≡ shown (state_of self.now) key.now }
        ensures due { is_pending result ≡ is_due self.now key.now }
        ensures entry { shown_by result
            ≡ entry_after self.now.origin (calls_of self.now.log) key.now }
    {
        self.lent(key)
    }

    fn lent(&self, key: &Key) -> Shown<'_>
        ensures shown { shown_by result ≡ shown (state_of self.now) key.now }
        ensures begins { IsOrigin self.now.origin }
    {
        match self.entries.get(key) {
            None => Shown::NoSuchKey,
            Some(entry) => match entry.value() {
                None => Shown::Pending,
                Some(kept) => Shown::Value(kept.value()),
            },
        }
    }

    /// The same, shared.
    pub(crate) fn known(&self, key: &Key) -> Result<Asked, AllocError>
        ensures { IfOk result (λ asked. shown_in asked ≡ shown (state_of self.now) key.now) }
    {
        match self.entries.get(key) {
            None => Ok(Asked::NoSuchKey),
            Some(entry) => match entry.value() {
                None => Ok(Asked::Pending),
                Some(kept) => Ok(Asked::Value(kept.value().clone()?)),
            },
        }
    }

    /// The least key that is pending and not handed out.
    fn next(&self) -> Option<Key>
        ensures { result ≡ next (state_of self.now) }
    {
        self.entries.first_ready()
    }

    /// Hands out a job for the least key that is pending and not handed out.
    pub fn take(&mut self, caller: u32) -> Result<Taken, Refused>
        ensures step { OnOk result (self.new ≡ recorded self.old caller ToTake) }
        ensures answer { IfOk result (λ taken. OfTake (job_in taken) ≡ reply_at self.old ToTake) }
        ensures full { IsFullRefusal self.old.log result }
        ensures err { OnErr result (self.new ≡ self.old) }
    {
        let (answer, _share) = self.take_recorded(caller)?;
        Ok(answer)
    }

    /// As `take`, with a share of the record.
    fn take_recorded(&mut self, caller: u32) -> Result<(Taken, Arc<Record>), Refused>
        ensures step { OnOk result (self.new ≡ recorded self.old caller ToTake) }
        ensures answer { IfOk result (λ made. OfTake (job_in made.0) ≡ reply_at self.old ToTake) }
        ensures share { IfOk result (λ made. made.1.value ≡ record_of self.old caller (ToTake)) }
        ensures full { IsFullRefusal self.old.log result }
        ensures err { OnErr result (self.new ≡ self.old) }
    {
        if self.history.is_full() {
            return Err(Refused::HistoryFull);
        }
        match self.next() {
            None => {
                let share = self.history.push(caller, Call::Take, Reply::Nothing)?;
                Ok((Taken::Nothing, share))
            }
            Some(key) => {
                let (job, answer) = self.job_for(key)?;
                let share = self.hand_out(caller, &key, answer)?;
                Ok((Taken::Job(job), share))
            }
        }
    }

    /// A job for the key that is next, and the answer that is recorded of it.
    fn job_for(&self, key: Key) -> Result<(Job, Reply), AllocError>
        requires { Some key ≡ next (state_of self.now) }
        ensures job { IfOk result (λ made. OfTake (Some made.0) ≡ reply_at self.now ToTake) }
        ensures answer { IfOk result (λ made. reply_of made.1 ≡ reply_at self.now ToTake) }
    {
        // For the proof: the key is named before the call gets it.
        let wanted = key;
        let job = Job::for_kept(self.alloc, &self.library, wanted, &self.entries)?;
        let shared = self.shared_key(job.key())?;
        let answer = reply_of_job(shared, &job)?;
        Ok((job, answer))
    }

    /// Records that the key that is next is handed out.
    fn hand_out(&mut self, caller: u32, key: &Key, answer: Reply) -> Result<Arc<Record>, AllocError>
        requires room { length self.old.log.records < self.old.log.limit }
        requires next { Some key.now ≡ next (state_of self.old) }
        requires answer { reply_of answer ≡ reply_at self.old ToTake }
        ensures step { OnOk result (self.new ≡ recorded self.old caller ToTake) }
        ensures share { IfOk result (λ it. it.value ≡ record_of self.old caller ToTake) }
        ensures err { OnErr result (self.new ≡ self.old) }
    {
        let share = self.history.push(caller, Call::Take, answer)?;
        self.entries.hand_out(key);
        Ok(share)
    }

    /// Changes the texts, or gives the first reason against that. More than sixteen changes are too many,
    /// and only the first seventeen are recorded then.
    #[tactic(auto, using(crate::proofs::Headline::leaves_state))]
    pub fn commit(&mut self, caller: u32, changes: &[Change]) -> Result<Committed, Refused>
        ensures step { OnOk result (self.new ≡ recorded self.old caller (commit_of changes.now)) }
        ensures answer { IfOk result
            (λ answer. OfCommit answer ≡ reply_at self.old (commit_of changes.now)) }
        ensures refused { IfOk result
            (λ answer. LeavesState self.old (OfCommit answer) self.new) }
        ensures full { IsFullRefusal self.old.log result }
        ensures err { OnErr result (self.new ≡ self.old) }
    {
        let (answer, _share) = self.commit_recorded(caller, changes)?;
        Ok(answer)
    }

    /// As `commit`, with a share of the record.
    fn commit_recorded(
        &mut self,
        caller: u32,
        changes: &[Change],
    ) -> Result<(Committed, Arc<Record>), Refused>
        ensures step { OnOk result (self.new ≡ recorded self.old caller (commit_of changes.now)) }
        ensures answer { IfOk result
            (λ made. OfCommit made.0 ≡ reply_at self.old (commit_of changes.now)) }
        ensures share { IfOk result
            (λ made. made.1.value ≡ record_of self.old caller (commit_of changes.now)) }
        ensures full { IsFullRefusal self.old.log result }
        ensures err { OnErr result (self.new ≡ self.old) }
    {
        if self.history.is_full() {
            return Err(Refused::HistoryFull);
        }
        let number = self.commits + 1;
        let most_units = self.history.most_units();
        let changes = first_changes(changes);
        let call = Call::Commit(TextChange::of_changes(self.alloc, changes)?);
        let present = Present {
            library: &self.library,
            index: &self.index,
            entries: &self.entries,
        };
        let outcome = outcome_of(self.alloc, most_units, number, &present, changes)?;
        match outcome {
            Outcome::Refused(refused) => {
                let stored = Reply::of_commit(self.alloc, refused)?;
                let share = self.history.push(caller, call, stored)?;
                Ok((refused, share))
            }
            Outcome::Done { library, found } => {
                let stored = Reply::of_commit(self.alloc, Committed::Done(number))?;
                let recorded = RecordedCall {
                    caller,
                    call,
                    answer: stored,
                };
                let share = record_with_room(
                    self.alloc,
                    &mut self.entries,
                    &mut self.history,
                    &found.renewal,
                    recorded,
                )?;
                self.reached = found.renewal.renewed.len() as u64;
                self.index = self.entries.carry_out(found);
                self.library = library;
                self.commits = number;
                // For the proof: a key that the commit does not reach keeps its value.
                locality();
                Ok((Committed::Done(number), share))
            }
        }
    }

    /// Accepts a result, if its key waits for one and all that it has read is unchanged.
    #[tactic(auto, using(crate::proofs::Headline::leaves_state))]
    pub fn deliver(&mut self, caller: u32, finished: &Finished) -> Result<Delivered, Refused>
        ensures step { OnOk result (self.new ≡ recorded self.old caller (ToDeliver finished.now)) }
        ensures answer { IfOk result
            (λ answer. OfDeliver answer ≡ reply_at self.old (ToDeliver finished.now)) }
        ensures refused { IfOk result
            (λ answer. LeavesState self.old (OfDeliver answer) self.new) }
        ensures full { IsFullRefusal self.old.log result }
        ensures err { OnErr result (self.new ≡ self.old) }
    {
        let (answer, _share) = self.deliver_recorded(caller, finished)?;
        Ok(answer)
    }

    /// As `deliver`, with a share of the record.
    fn deliver_recorded(
        &mut self,
        caller: u32,
        finished: &Finished,
    ) -> Result<(Delivered, Arc<Record>), Refused>
        ensures step { OnOk result (self.new ≡ recorded self.old caller (ToDeliver finished.now)) }
        ensures answer { IfOk result
            (λ made. OfDeliver made.0 ≡ reply_at self.old (ToDeliver finished.now)) }
        ensures share { IfOk result
            (λ made. made.1.value ≡ record_of self.old caller (ToDeliver finished.now)) }
        ensures full { IsFullRefusal self.old.log result }
        ensures err { OnErr result (self.new ≡ self.old) }
    {
        if self.history.is_full() {
            return Err(Refused::HistoryFull);
        }
        match self.judged(finished.key(), finished.reads()) {
            Delivered::Accepted => {
                let share = self.take_in(caller, finished)?;
                Ok((Delivered::Accepted, share))
            }
            refused => {
                let call = self.delivery_of(finished)?;
                let stored = refused;
                let reply = Reply::of_delivery(self.alloc, stored)?;
                let share = self.history.push(caller, call, reply)?;
                Ok((refused, share))
            }
        }
    }

    /// The call that delivers a result, as it is recorded.
    fn delivery_of(&self, finished: &Finished) -> Result<Call, AllocError>
        ensures { IfOk result (λ call. call_of call ≡ ToDeliver finished.now) }
    {
        let shared = self.shared_key(finished.key())?;
        call_of_result(shared, finished)
    }

    /// Records a result that is accepted, and keeps its value and the nets that were found on the way.
    fn take_in(&mut self, caller: u32, finished: &Finished) -> Result<Arc<Record>, AllocError>
        requires room { length self.old.log.records < self.old.log.limit }
        requires accepted { Accepted ≡ deliver_answer (state_of self.old) finished.now }
        ensures step { OnOk result (self.new ≡ recorded self.old caller (ToDeliver finished.now)) }
        ensures share { IfOk result
            (λ it. it.value ≡ record_of self.old caller (ToDeliver finished.now)) }
        ensures err { OnErr result (self.new ≡ self.old) }
    {
        // For the proof: a result whose reads are current has the value of the present texts, and so have the nets found on its way.
        let _reads = finished.reads();
        current_reads();
        current_nets();
        let shared = self.shared_key(finished.key())?;
        let derivation = finished.derivation(shared.clone()?)?;
        let call = call_of_result(shared, finished)?;
        let found = shares_of(self.alloc, finished.found())?;
        let answer = Reply::Accepted;
        let share = self.history.push(caller, call, answer)?;
        let key = finished.key();
        self.entries.keep(&key, derivation);
        keep_all(&mut self.entries, found);
        Ok(share)
    }

    /// Takes a job, runs it and delivers its result, which is accepted, since all that it has read is unchanged. False if there is nothing to take.
    pub fn work_once(&mut self, caller: u32) -> Result<bool, Refused>
        ensures round { ServesRound (IsCallStep caller) self.old (round_as result) self.new }
        ensures full { IsFull self.old.log → result ≡ Err Refused.HistoryFull }
        ensures open { IsOpenCall self.new (round_as result) }
    {
        let Taken::Job(job) = self.take(caller)? else {
            return Ok(false);
        };
        if self.history.is_full() {
            return Err(Refused::HistoryFull);
        }
        let finished = job.run(self.alloc)?;
        self.take_in(caller, &finished)?;
        Ok(true)
    }

    /// Whether the key is handed out.
    pub fn is_out(&self, key: &Key) -> bool
        ensures { result ≡ (state_of self.now).out key.now }
    {
        match self.entries.get(key) {
            None => false,
            Some(entry) => entry.out,
        }
    }

    /// Whether the key waits for a result.
    fn waits(&self, key: &Key) -> bool
        ensures { result ≡ (state_of self.now).pending key.now }
    {
        match self.entries.get(key) {
            None => false,
            Some(entry) => entry.value().is_none(),
        }
    }

    /// A share of the key: that of its entry, if it has one.
    fn shared_key(&self, key: Key) -> Result<Arc<Key>, AllocError>
        ensures { IfOk result (λ shared. shared.value ≡ key) }
    {
        match self.entries.get(&key) {
            None => Ok(Arc::new(self.alloc, key)?),
            Some(entry) => entry.share_of(self.alloc, key),
        }
    }

    /// The call that gives a key back, as it is recorded.
    fn giving_back(&self, key: Key) -> Result<Call, AllocError>
        ensures { IfOk result (λ call. call_of call ≡ ToGiveBack key) }
    {
        Ok(Call::GiveBack(self.shared_key(key)?))
    }

    /// Clears the mark that a key is handed out.
    #[tactic(auto, using(crate::proofs::Headline::leaves_state))]
    pub fn give_back(&mut self, caller: u32, key: Key) -> Result<GivenBack, Refused>
        ensures step { OnOk result (self.new ≡ recorded self.old caller (ToGiveBack key)) }
        ensures answer { IfOk result
            (λ answer. OfGiveBack answer ≡ reply_at self.old (ToGiveBack key)) }
        ensures refused { IfOk result
            (λ answer. LeavesState self.old (OfGiveBack answer) self.new) }
        ensures full { IsFullRefusal self.old.log result }
        ensures err { OnErr result (self.new ≡ self.old) }
    {
        let (answer, _share) = self.give_back_recorded(caller, key)?;
        Ok(answer)
    }

    /// As `give_back`, with a share of the record.
    fn give_back_recorded(
        &mut self,
        caller: u32,
        key: Key,
    ) -> Result<(GivenBack, Arc<Record>), Refused>
        ensures step { OnOk result (self.new ≡ recorded self.old caller (ToGiveBack key)) }
        ensures answer { IfOk result
            (λ made. OfGiveBack made.0 ≡ reply_at self.old (ToGiveBack key)) }
        ensures share { IfOk result
            (λ made. made.1.value ≡ record_of self.old caller (ToGiveBack key)) }
        ensures full { IsFullRefusal self.old.log result }
        ensures err { OnErr result (self.new ≡ self.old) }
    {
        if self.history.is_full() {
            return Err(Refused::HistoryFull);
        }
        if !self.is_out(&key) {
            let call = self.giving_back(key)?;
            let answer = Reply::GivenBack(GivenBack::NothingOut);
            let share = self.history.push(caller, call, answer)?;
            return Ok((GivenBack::NothingOut, share));
        }
        let share = if self.waits(&key) {
            self.make_ready(caller, &key)?
        } else {
            self.clear_out(caller, &key)?
        };
        Ok((GivenBack::Returned, share))
    }

    /// Records that a key is given back that waits for a result, and lets it be taken again.
    fn make_ready(&mut self, caller: u32, key: &Key) -> Result<Arc<Record>, AllocError>
        requires room { length self.old.log.records < self.old.log.limit }
        requires out { (state_of self.old).out key.now ≡ true }
        requires waits { (state_of self.old).pending key.now ≡ true }
        ensures step { OnOk result (self.new ≡ recorded self.old caller (ToGiveBack key.now)) }
        ensures share { IfOk result
            (λ it. it.value ≡ record_of self.old caller (ToGiveBack key.now)) }
        ensures err { OnErr result (self.new ≡ self.old) }
    {
        let call = self.giving_back(*key)?;
        self.entries.make_ready(key)?;
        let answer = Reply::GivenBack(GivenBack::Returned);
        match self.history.push(caller, call, answer) {
            Ok(share) => {
                self.entries.bring_back(key);
                Ok(share)
            }
            Err(error) => {
                self.entries.unmake_ready(key);
                Err(error)
            }
        }
    }

    /// Records that a key is given back that has a value.
    fn clear_out(&mut self, caller: u32, key: &Key) -> Result<Arc<Record>, AllocError>
        requires room { length self.old.log.records < self.old.log.limit }
        requires out { (state_of self.old).out key.now ≡ true }
        requires kept { (state_of self.old).pending key.now ≡ false }
        ensures step { OnOk result (self.new ≡ recorded self.old caller (ToGiveBack key.now)) }
        ensures share { IfOk result
            (λ it. it.value ≡ record_of self.old caller (ToGiveBack key.now)) }
        ensures err { OnErr result (self.new ≡ self.old) }
    {
        let call = self.giving_back(*key)?;
        let answer = Reply::GivenBack(GivenBack::Returned);
        let share = self.history.push(caller, call, answer)?;
        self.entries.bring_back(key);
        Ok(share)
    }

    /// Makes the present state what the history begins from, with new limits, and gives the number of all calls so far. Texts, values, pending
    /// keys and handed-out marks stay unchanged; the records go, and their memory is given back to the allocator. It is no call itself,
    /// and is not recorded.
    pub fn checkpoint(&mut self, limits: Limits) -> Result<u64, CheckpointRefused>
        ensures answer { ChecksAs (checking limits self.old) result }
        ensures kept { OnOk result (self.new ≡ checkpointed limits self.old) }
        ensures err { OnErr result (self.new ≡ self.old) }
    {
        match self.begin_anew(limits) {
            Ok((before, records)) => {
                drop(records);
                Ok(before)
            }
            Err(refused) => Err(refused),
        }
    }

    /// As `checkpoint`, with the records that were made since the last start, so that the holder of a lock can drop them later.
    pub fn begin_anew(
        &mut self,
        limits: Limits,
    ) -> Result<(u64, Vec<Arc<Record>>), CheckpointRefused>
        ensures before { IfOk result (λ made. ChecksAs (checking limits self.old) (Ok made.0)) }
        ensures refused { IfErr result
            (λ refused. ChecksAs (checking limits self.old) (Err refused)) }
        ensures records { IfOk result
            (λ made. records_in made.1.items ≡ self.old.log.records) }
        ensures kept { OnOk result (self.new ≡ checkpointed limits self.old) }
        ensures err { OnErr result (self.new ≡ self.old) }
    {
        let count = self.library.len() as u64;
        if limits.units() < count {
            return Err(CheckpointRefused::UnitsOver(count));
        }
        if u64::MAX - limits.history() < self.history.last_number() {
            return Err(CheckpointRefused::NumbersOver);
        }
        let library = self.library.copy()?;
        let Marks { pending, out } = self.entries.marks(self.alloc)?;
        let restarted = self
            .history
            .restart(limits, library, self.commits, pending, out)?;
        Ok(restarted)
    }

    /// Makes any call. It gives a share of the record, and the answer, which is of the call's kind.
    #[tactic(auto, using(crate::proofs::Headline::leaves_state, crate::proofs::Headline::shows_entry))]
    pub fn perform(
        &mut self,
        caller: u32,
        request: &Request<'_>,
    ) -> Result<(Arc<Record>, Answered), Refused>
        ensures step { OnOk result (self.new ≡ recorded self.old caller (call_for request.now)) }
        ensures share { IfOk result
            (λ made. made.0.value ≡ record_of self.old caller (call_for request.now)) }
        ensures answer { IfOk result
            (λ made. reply_in made.1 ≡ reply_at self.old (call_for request.now)) }
        ensures fits { IfOk result (λ made. Fits (call_for request.now) (reply_in made.1)) }
        ensures shows { IfOk result
            (λ made. ShowsEntry self.old (call_for request.now) (reply_in made.1)) }
        ensures refused { IfOk result (λ made. LeavesState self.old (reply_in made.1) self.new) }
        ensures full { IsFullRefusal self.old.log result }
        ensures err { OnErr result (self.new ≡ self.old) }
    {
        // For the proof: the start of the history is one of which the law of entries holds.
        self.begins();
        match request {
            Request::Commit(changes) => {
                let (answer, share) = self.commit_recorded(caller, *changes)?;
                Ok((share, Answered::Commit(answer)))
            }
            Request::Take => {
                let (answer, share) = self.take_recorded(caller)?;
                Ok((share, Answered::Take(answer)))
            }
            Request::Deliver(finished) => {
                let (answer, share) = self.deliver_recorded(caller, *finished)?;
                Ok((share, Answered::Deliver(answer)))
            }
            Request::GiveBack(key) => {
                let (answer, share) = self.give_back_recorded(caller, *key)?;
                Ok((share, Answered::GiveBack(answer)))
            }
            Request::Ask(key) => {
                let (answer, share) = self.ask_recorded(caller, *key)?;
                Ok((share, Answered::Ask(answer)))
            }
        }
    }

    fn begins(&self)
        ensures { IsOrigin self.now.origin }
    {
        let _history = &self.history;
    }

    /// Whether a result is accepted, by what the library has now.
    fn judged(&self, key: Key, reads: &[Read]) -> Delivered
        ensures { result ≡ deliver_answer (state_of self.now)
            (record { key = key; reads = all_seen reads.now }) }
    {
        match self.entries.get(&key) {
            None => Delivered::NoSuchKey,
            Some(entry) => {
                if entry.value().is_some() {
                    return Delivered::NotPending;
                }
                match first_stale(&self.library, reads) {
                    Some(name) => Delivered::Stale(name),
                    None => Delivered::Accepted,
                }
            }
        }
    }
}
