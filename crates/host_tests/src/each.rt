//! One row for many cases: what stands in it is answered once for each number of a range.
use crate::runs::{self, Runs};
use serde_json::Value as Json;
use std::alloc::Global;
use std::sync::Wait;
use std::test::Fail;
use std::thread::Threads;
use test_rows::{Telling, count, row_of};

// Where the rows begin in the case, and how many there may be.
const ROWS: usize = 3;

const MOST: usize = 16;

// The numbers from one on, that have the same answer.
#[derive(Drop)]
struct Group {
    since: u64,
    answer: String,
}

impl Group {
    // Tells the answer of these numbers, of which this is the last.
    fn tell(&self, line: &mut Telling, last: u64) {
        if !line.is_empty() {
            line.say("\n");
        }
        if self.since == last {
            line.tell(format!(in line.alloc(); "{}: ", last));
        } else {
            line.tell(format!(in line.alloc(); "{} to {}: ", self.since, last));
        }
        line.say(self.answer.as_str());
    }

    // Adds the answer of the next number: where it is another one, those before it are told.
    fn add(&mut self, line: &mut Telling, number: u64, answer: String) {
        if self.answer.as_str() != answer.as_str() {
            self.tell(line, number.saturating_sub(1));
            self.since = number;
            self.answer = answer;
        }
    }
}

// The case of this text with the number in place of each text "#".
fn case_at(alloc: Global, text: &str, number: u64) -> Result<Json, Fail> {
    let digits = format!(in alloc; "{number}")?;
    let text = text.replace(alloc, "\"#\"", digits.as_str())?;
    match row_of(alloc, text.as_str()) {
        Some(case) => Ok(case),
        None => Err("no rows")?,
    }
}

// What the rows of the case answer with this number, a space behind each that says something.
fn answer_at<T: Threads + Wait + Copy + Send + Sync>(
    rt: &T,
    alloc: Global,
    runs: &mut Runs,
    text: &str,
    number: u64,
) -> Result<String, Fail> {
    let case = case_at(alloc, text, number)?;
    let mut line = Telling::new(alloc);
    for at in ROWS..ROWS + MOST {
        let Some(row) = case.get(at) else {
            break;
        };
        runs::answer(rt, alloc, runs, row, &mut line)?;
        if !line.is_empty() {
            line.say(" ");
        }
    }
    line.into_text()
}

/// `each FIRST LAST ROW..`: the rows once for each number from the first to the last one, which stands in place of each text "#". Numbers behind
/// each other that have the same answer are told on one line.
pub(crate) fn answer<T: Threads + Wait + Copy + Send + Sync>(
    rt: &T,
    alloc: Global,
    runs: &mut Runs,
    row: &Json,
    line: &mut Telling,
) -> Result<(), Fail> {
    let text = row.to_string(alloc)?;
    let (first, last) = (count(row, 1), count(row, 2));
    let mut group = Group {
        since: first,
        answer: answer_at(rt, alloc, runs, text.as_str(), first)?,
    };
    for number in first.saturating_add(1)..=last {
        let answer = answer_at(rt, alloc, runs, text.as_str(), number)?;
        group.add(line, number, answer);
    }
    group.tell(line, last);
    Ok(())
}
