//! The calls of a part, made one after the other.
use crate::calls::{are_same, execute, has_paid_up_to, run, says};
use crate::counting::CountingGate;
use crate::meeting::meets;
use crate::memory::is_whole_or_refused;
use crate::parts::{batch_named, first_word, loaded, made, number_of, push_batches};
use executor::path::Path;
use executor::{Executor, Record, Refusal};
use requests::request::Batch;
use std::alloc::Global;
use std::thread::Threads;
use workers::NoGate;

/// What a call answers: one number or two, of which the second is 0 where there is one; or a refusal.
type Answer = Result<(u64, u64), Refusal>;

/// What the calls of a part are about, and what they gave.
#[derive(Drop)]
struct Player<'a> {
    alloc: Global,
    /// The text in which batches and images are found.
    text: &'a str,
    executor: Option<Executor>,
    /// The one that was opened before.
    other: Option<Executor>,
    gate: CountingGate,
    records: Vec<Record>,
}

/// Whether a call answers what is wanted. None where memory is refused.
fn is_answer(answer: Answer, wanted: &str) -> Option<bool> {
    match answer {
        Ok((first, second)) => {
            let (one, other) = wanted.split_once(' ').unwrap_or((wanted, "0"));
            Some(number_of(one) == first && number_of(other) == second)
        }
        Err(Refusal::Memory) => None,
        Err(refusal) => Some(refusal.name() == wanted),
    }
}

impl Player<'_> {
    fn open(&mut self, opened: Option<Executor>) -> Option<bool> {
        self.other = self.executor.take();
        self.executor = opened;
        self.executor.is_some().then_some(true)
    }

    /// The record of this number, counted from 1.
    fn record(&self, number: &str) -> Option<&Record> {
        self.records.get(number_of(number).checked_sub(1)? as usize)
    }

    /// The numbers of the last batch and of the next request.
    fn state(&self) -> Option<Answer> {
        let executor = self.executor.as_ref()?;
        Some(Ok((executor.sequence(), executor.next_number())))
    }

    fn execute<R: Threads + Sync>(
        &mut self,
        rt: &R,
        words: &str,
        is_counted: bool,
    ) -> Option<Answer> {
        let (count, name) = first_word(words);
        let batch = batch_named(self.alloc, self.text, name)?;
        self.execute_batch(rt, number_of(count) as usize, &batch, is_counted)
    }

    fn execute_batch<R: Threads + Sync>(
        &mut self,
        rt: &R,
        count: usize,
        batch: &Batch,
        is_counted: bool,
    ) -> Option<Answer> {
        let executor = self.executor.as_mut()?;
        let executed = if is_counted {
            self.gate = CountingGate::new();
            execute(rt, self.alloc, executor, batch, count, &self.gate)
        } else {
            execute(rt, self.alloc, executor, batch, count, &NoGate)
        };
        match executed {
            Ok(record) => self.keep(record),
            Err(refusal) => Some(Err(refusal)),
        }
    }

    fn keep(&mut self, record: Record) -> Option<Answer> {
        let numbers = (record.sequence, record.first);
        self.records.push(record).ok()?;
        Some(Ok(numbers))
    }

    fn run<R: Threads + Sync>(&mut self, rt: &R, words: &str) -> Option<Answer> {
        let executor = self.executor.as_mut()?;
        let mut batches = Vec::new(self.alloc);
        push_batches(self.alloc, self.text, words, &mut batches)?;
        match run(rt, self.alloc, executor, &batches)? {
            (count, None) => Some(Ok((count as u64, 0))),
            (_, Some(Refusal::Memory)) => None,
            (count, Some(refusal)) => Some(Ok((count as u64, u64::from(refusal.code())))),
        }
    }

    fn commit(&mut self) -> Option<Answer> {
        match self.executor.as_mut()?.commit() {
            Ok(sequence) => Some(Ok((sequence, 0))),
            Err(refusal) => Some(Err(refusal)),
        }
    }

    fn go_back(&mut self, number: &str) -> Option<Answer> {
        match self.executor.as_mut()?.rollback_to(number_of(number)) {
            Ok(()) => self.state(),
            Err(refusal) => Some(Err(refusal)),
        }
    }

    fn has_token(&self, number: &str) -> Option<bool> {
        Some(self.executor.as_ref()?.token() == self.record(number)?.token)
    }

    fn has_replies(&self, words: &str) -> Option<bool> {
        let (number, rest) = first_word(words);
        let (skipped, wanted) = first_word(rest);
        says(self.alloc, self.record(number)?, number_of(skipped), wanted)
    }

    fn has_same(&self, words: &str) -> Option<bool> {
        let (number, other) = first_word(words);
        are_same(self.alloc, self.record(number)?, self.record(other)?)
    }

    fn meets<R: Threads + Sync>(&mut self, rt: &R, name: &str) -> Option<bool> {
        let batch = batch_named(self.alloc, self.text, name)?;
        meets(rt, self.alloc, self.executor.as_mut()?, &batch)
    }

    fn is_whole<R: Threads + Sync>(&mut self, rt: &R, words: &str) -> Option<bool> {
        let executor = self.executor.as_mut()?;
        let other = self.other.as_mut()?;
        let mut batches = Vec::new(self.alloc);
        push_batches(self.alloc, self.text, words, &mut batches)?;
        is_whole_or_refused(rt, self.alloc, executor, other, &batches)
    }

    /// What a call of the executor answers. None where memory is refused.
    fn answer<R: Threads + Sync>(&mut self, rt: &R, word: &str, rest: &str) -> Option<Answer> {
        match word {
            "execute" => self.execute(rt, rest, false),
            "count" => self.execute(rt, rest, true),
            "run" => self.run(rt, rest),
            "commit" => self.commit(),
            "back" => self.go_back(rest),
            "state" => self.state(),
            _ => None,
        }
    }

    /// Whether what is said of the calls before holds. None where memory is refused.
    fn holds<R: Threads + Sync>(&mut self, rt: &R, word: &str, rest: &str) -> Option<bool> {
        match word {
            "token" => self.has_token(rest),
            "told" => Some(self.gate.has_counted(number_of(rest))),
            "parallel" => Some(self.record(rest)?.path == Path::Parallel),
            "reran" => Some(self.record(rest)?.path == Path::Reran),
            "replies" => self.has_replies(rest),
            "same" => self.has_same(rest),
            "paid" => has_paid_up_to(self.executor.as_ref()?, number_of(rest)),
            "meet" => self.meets(rt, rest),
            "whole" => self.is_whole(rt, rest),
            _ => None,
        }
    }

    /// Whether a line holds: a call answers what stands behind it.
    fn follow<R: Threads + Sync>(&mut self, rt: &R, line: &str) -> Option<bool> {
        let (word, rest) = first_word(line);
        if word == "make" {
            let (customers, items) = first_word(rest);
            let opened = made(rt, self.alloc, number_of(customers), number_of(items));
            return self.open(opened);
        }
        if word == "load" {
            let opened = loaded(rt, self.alloc, self.text, rest);
            return self.open(opened);
        }
        match line.split_once(" -> ") {
            Some((call, wanted)) => {
                let (word, rest) = first_word(call);
                is_answer(self.answer(rt, word, rest)?, wanted)
            }
            None => self.holds(rt, word, rest),
        }
    }

    fn follow_all<R: Threads + Sync>(&mut self, rt: &R, lines: &str) -> Option<bool> {
        let mut all = true;
        for line in lines.lines() {
            all = self.follow(rt, line)? && all;
        }
        Some(all)
    }
}

/// Whether all lines of a part hold. None where memory is refused.
pub fn is_shown<R: Threads + Sync>(rt: &R, alloc: Global, text: &str, lines: &str) -> Option<bool> {
    let mut player = Player {
        alloc,
        text,
        executor: None,
        other: None,
        gate: CountingGate::new(),
        records: Vec::new(alloc),
    };
    player.follow_all(rt, lines)
}
