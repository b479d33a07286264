//! Numbers as they are shown.
use std::alloc::{AllocError, Global};

/// Numbers that rise or fall by one, from the first to the last.
#[derive(Clone, Copy)]
struct Run {
    first: usize,
    last: usize,
}

impl Run {
    /// The run with one number more, unless that doesn't go on with it.
    fn extended(self, number: usize) -> Option<Run> {
        let rises = self.first <= self.last && number.checked_sub(1) == Some(self.last);
        let falls = self.last <= self.first && self.last.checked_sub(1) == Some(number);
        if rises || falls {
            Some(Run {
                first: self.first,
                last: number,
            })
        } else {
            None
        }
    }
}

/// A line of numbers, with the run that may go on.
#[derive(Drop)]
pub struct Shown {
    alloc: Global,
    line: String,
    run: Option<Run>,
}

impl Shown {
    pub fn new(alloc: Global) -> Shown {
        Shown {
            alloc,
            line: String::new(alloc),
            run: None,
        }
    }

    /// A line of these numbers alone.
    pub fn of(alloc: Global, numbers: &[usize]) -> Result<String, AllocError> {
        let mut shown = Shown::new(alloc);
        for number in numbers {
            shown.add(*number)?;
        }
        shown.into_line()
    }

    /// Puts a word at the end.
    pub fn add_word(&mut self, word: &str) -> Result<(), AllocError> {
        self.end_run()?;
        push_word(&mut self.line, word)
    }

    /// Puts a number at the end.
    pub fn add(&mut self, number: usize) -> Result<(), AllocError> {
        let run = match self.run {
            Some(run) => run.extended(number),
            None => None,
        };
        if run.is_none() {
            self.end_run()?;
        }
        self.run = Some(run.unwrap_or(Run {
            first: number,
            last: number,
        }));
        Ok(())
    }

    fn end_run(&mut self) -> Result<(), AllocError> {
        let Some(run) = self.run.take() else {
            return Ok(());
        };
        let (first, last) = (run.first, run.last);
        let word = match first.abs_diff(last) {
            0 => format!(in self.alloc; "{first}")?,
            1 => format!(in self.alloc; "{first} {last}")?,
            _ => format!(in self.alloc; "{first}..{last}")?,
        };
        push_word(&mut self.line, word.as_str())
    }

    pub fn into_line(mut self) -> Result<String, AllocError> {
        self.end_run()?;
        Ok(self.line)
    }
}

fn push_word(line: &mut String, word: &str) -> Result<(), AllocError> {
    if !line.is_empty() {
        line.push(' ')?;
    }
    line.push_str(word)
}
