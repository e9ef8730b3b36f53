//! The rows of files: each is asked, those that hold are counted, and any other is printed with the answer that came.

use crate::axes::{self, Axis};
use crate::text::Text;
use std::alloc::Global;
use std::{env, fs, io};

/// The questions that rows may ask.
pub trait Questions {
    /// Answers the words of a question, with the texts of the columns behind it.
    fn answer(&self, alloc: Global, words: &[&str], columns: &[&str], answer: &mut Text);
}

/// Answers a row's parts: the words of its question, and its columns.
fn answer_parts<Q: Questions>(questions: &Q, alloc: Global, parts: &[&str], answer: &mut Text) {
    if let [question, columns @ ..] = parts {
        if let Ok(words) = question.split_whitespace().collect::<Vec<&str>>(alloc) {
            questions.answer(alloc, &words, columns, answer);
        }
    }
}

/// Answers what stands between a row's name and its answer.
fn answer_row<Q: Questions>(questions: &Q, alloc: Global, row: &str, answer: &mut Text) {
    if let Ok(parts) = row.split('|').collect::<Vec<&str>>(alloc) {
        answer_parts(questions, alloc, &parts, answer);
    }
}

/// Asks a row anew, and says whether its answer came; prints another.
fn holds<Q: Questions>(rt: &HostRuntime, questions: &Q, row: &str) -> io::Result<bool> {
    let (left, wanted) = row.split_once(" = ").unwrap_or((row, ""));
    let (name, question) = left.split_once(": ").unwrap_or(("", left));
    let mut answer = Text::new(rt.alloc());
    answer_row(questions, rt.alloc(), question, &mut answer);
    let came = answer.as_str();
    if came != wanted.trim() {
        println!(rt; "{name}: {came}")?;
        return Ok(false);
    }
    Ok(true)
}

/// How many rows were asked, and how many of them hold.
#[derive(Clone, Copy)]
struct Count {
    asked: u64,
    held: u64,
}

impl Count {
    /// No rows.
    const NONE: Count = Count { asked: 0, held: 0 };

    /// With those of a line.
    fn with(self, line: Count) -> Count {
        Count {
            asked: self.asked.saturating_add(line.asked),
            held: self.held.saturating_add(line.held),
        }
    }
}

/// Asks a row for each value of each axis that it has a name of.
fn ask_each<Q: Questions>(
    rt: &HostRuntime,
    questions: &Q,
    axes: &[Axis<'_>],
    line: &str,
) -> io::Result<Count> {
    let mut rows = Vec::new(rt.alloc());
    rows.push(String::from_str(rt.alloc(), line)?)?;
    let mut count = Count::NONE;
    for _ in 0..u64::MAX {
        let Some(row) = rows.pop() else {
            break;
        };
        match axes::axis_in(axes, row.as_str()) {
            Some(axis) => axes::push_each(rt.alloc(), &mut rows, row.as_str(), axis)?,
            None => {
                let held = u64::from(holds(rt, questions, row.as_str())?);
                count = count.with(Count { asked: 1, held });
            }
        }
    }
    Ok(count)
}

/// Asks a line's rows, and says how many they are where the line has axes.
fn ask_line<Q: Questions>(
    rt: &HostRuntime,
    questions: &Q,
    axes: &[Axis<'_>],
    line: &str,
) -> io::Result<Count> {
    let count = ask_each(rt, questions, axes, line)?;
    if count.asked != 1 {
        let (name, _) = line.split_once(": ").unwrap_or(("", line));
        let (asked, held) = (count.asked, count.held);
        println!(rt; "{name}: {held} of {asked} rows hold")?;
    }
    Ok(count)
}

/// How many rows of a text hold.
fn count_held<Q: Questions>(rt: &HostRuntime, questions: &Q, text: &str) -> io::Result<u64> {
    let mut axes = Vec::new(rt.alloc());
    let mut count = Count::NONE;
    for line in text.lines() {
        if axes::is_axis(line) {
            axes::read(rt.alloc(), &mut axes, line)?;
        } else if !line.is_empty() && !line.starts_with('#') {
            count = count.with(ask_line(rt, questions, &axes, line)?);
        }
    }
    Ok(count.held)
}

/// Asks the rows of each file that an argument names, and prints how many of them hold.
pub fn run<Q: Questions>(rt: &HostRuntime, questions: &Q) -> io::Result<()> {
    for name in env::args(rt)?.skip(1) {
        let text = fs::read_to_string(rt, name.as_str())?;
        let held = count_held(rt, questions, text.as_str())?;
        println!(rt; "{name}: {held} rows hold")?;
    }
    Ok(())
}
