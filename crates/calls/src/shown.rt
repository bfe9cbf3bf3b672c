// Answers as a program prints them.
ghost use Rattle.std.specs.Prelude.{Some as SomeOf};
ghost use Rattle.calls.specs.Shown.{answer_text, data_text, edit_text, line_text, lock_text};

use crate::data::{DataAnswer, EditAnswer};
use crate::lock_answer::LockAnswer;
use crate::transcript::Answer;
use rows::trip::Trip;
use std::fmt;
use tables::refusal::Refusal;

impl fmt::Display for LockAnswer {
    ghost output = { λ a. SomeOf (lock_text a) };

    fn fmt<W: fmt::Write>(&self, f: &mut fmt::Formatter<W>) -> fmt::Result {
        match *self {
            LockAnswer::Granted(lock) => write!(f, "granted {lock}"),
            LockAnswer::Wait(holder) => write!(f, "wait {holder}"),
            LockAnswer::Withdraw(holder) => write!(f, "withdraw {holder}"),
        }
    }
}

impl fmt::Display for EditAnswer {
    ghost output = { λ a. SomeOf (edit_text a) };

    fn fmt<W: fmt::Write>(&self, f: &mut fmt::Formatter<W>) -> fmt::Result {
        match *self {
            EditAnswer::Added => write!(f, "added"),
            EditAnswer::Already => write!(f, "already"),
            EditAnswer::Dropped => write!(f, "dropped"),
            EditAnswer::Absent => write!(f, "absent"),
            EditAnswer::Changed => write!(f, "changed"),
            EditAnswer::Taken => write!(f, "taken"),
        }
    }
}

impl fmt::Display for DataAnswer<Trip> {
    ghost output = { λ a. SomeOf (data_text a) };

    fn fmt<W: fmt::Write>(&self, f: &mut fmt::Formatter<W>) -> fmt::Result {
        match *self {
            DataAnswer::Total(count, sum) => write!(f, "total {count} {sum}"),
            DataAnswer::Next(None) => write!(f, "none"),
            DataAnswer::Next(Some(trip)) => {
                let (van, day, second) = (trip.van(), trip.day(), trip.second());
                let (cell, metres) = (trip.cell(), trip.metres());
                write!(f, "next {van} {day} {second} {cell} {metres}")
            }
            DataAnswer::Edit(answer) => write!(f, "{answer}"),
        }
    }
}

// The answer's word with its numbers.
impl fmt::Display for Answer<Trip> {
    ghost output = { λ a. SomeOf (answer_text a) };

    fn fmt<W: fmt::Write>(&self, f: &mut fmt::Formatter<W>) -> fmt::Result {
        match *self {
            Answer::Job(job) => write!(f, "job {job}"),
            Answer::Lock(answer) => write!(f, "{answer}"),
            Answer::Turned(turn) => write!(f, "turn {turn}"),
            Answer::Released => write!(f, "released"),
            Answer::Closed(turn, locks) => write!(f, "closed {turn} {locks}"),
            Answer::Withdrawn(locks, entries) => write!(f, "withdrawn {locks} {entries}"),
            Answer::Data(answer) => write!(f, "{answer}"),
        }
    }
}

// A line of the output: the position of a call, counted from 1, and what it was answered.
#[derive(Clone, Copy)]
pub struct Line {
    pub position: usize,
    pub reply: Result<Answer<Trip>, Refusal>,
}

impl fmt::Display for Line {
    ghost output = { λ l. SomeOf (line_text l.position l.reply) };

    fn fmt<W: fmt::Write>(&self, f: &mut fmt::Formatter<W>) -> fmt::Result {
        let position = self.position;
        match self.reply {
            Ok(answer) => write!(f, "{position} {answer}"),
            Err(refusal) => write!(f, "{position} {refusal}"),
        }
    }
}
