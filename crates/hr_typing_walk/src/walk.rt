use crate::rule::Rule;
use crate::written::{Head, TypeMark, Written};
use hr_base::{Binder, Item, Text};
use hr_tree::Layout;
use std::alloc::{AllocError, Global};
use std::mem;

/// A walk over a module's tree: what its names are bound to, the number of the next lexeme, and what was met so far.
/// Where memory is wanted the walk goes on without what it met, and says so at its end: so that nothing in it returns
/// early.
#[derive(Drop)]
pub struct Walk<'a> {
    alloc: Global,
    entries: &'a [Option<Binder>],
    at: usize,
    is_short: bool,
    rules: Vec<Rule>,
    aside: Vec<Vec<Rule>>,
    marks: Vec<TypeMark>,
    written: Vec<Written>,
}

impl<'a> Walk<'a> {
    /// A walk over a tree whose lexemes are bound to these entries.
    pub fn new(alloc: Global, entries: &'a [Option<Binder>]) -> Walk<'a> {
        Walk {
            alloc,
            entries,
            at: 0,
            is_short: false,
            rules: Vec::new(alloc),
            aside: Vec::new(alloc),
            marks: Vec::new(alloc),
            written: Vec::new(alloc),
        }
    }

    pub fn alloc(&self) -> Global {
        self.alloc
    }

    /// What the lexemes are bound to.
    pub fn entries(&self) -> &'a [Option<Binder>] {
        self.entries
    }

    /// The number of the next lexeme.
    pub fn at(&self) -> usize {
        self.at
    }

    /// What was written of types, or want of memory.
    pub fn finish(self) -> Result<Vec<Written>, AllocError> {
        let Walk {
            is_short,
            written,
            ..
        } = self;
        if is_short {
            return Err(AllocError);
        }
        Ok(written)
    }

    /// Passes so many lexemes.
    pub fn pass(&mut self, count: usize) {
        self.at = self.at.saturating_add(count);
    }

    /// Passes a lexeme, and answers its number.
    pub fn next(&mut self) -> usize {
        let at = self.at;
        self.pass(1);
        at
    }

    /// Passes a lexeme that may be there.
    pub fn maybe(&mut self, item: &Option<Item>) {
        if item.is_some() {
            self.pass(1);
        }
    }

    /// Passes a brace of a block that has some.
    pub fn brace(&mut self, layout: &Layout) {
        match layout {
            Layout::Implicit { col: _ } => {}
            Layout::Explicit(_, _) => self.pass(1),
        }
    }

    /// Notes whether memory was wanted.
    pub fn note(&mut self, done: Result<(), AllocError>) {
        if done.is_err() {
            self.is_short = true;
        }
    }

    /// Adds a rule.
    pub fn put(&mut self, rule: Rule) {
        if self.rules.push(rule).is_err() {
            self.is_short = true;
        }
    }

    /// Adds what is written of types.
    pub fn write(&mut self, written: Written) {
        if self.written.push(written).is_err() {
            self.is_short = true;
        }
    }

    /// How many rules there are.
    pub fn count(&self) -> usize {
        self.rules.len()
    }

    /// The rules behind the first so many, which are taken away.
    pub fn take_from(&mut self, count: usize) -> Vec<Rule> {
        let from = count.min(self.rules.len());
        match self.rules.split_off(from) {
            Ok(rules) => rules,
            Err(_) => {
                self.is_short = true;
                Vec::new(self.alloc)
            }
        }
    }

    /// Adds rules.
    pub fn put_all(&mut self, rules: Vec<Rule>) {
        let mut rules = rules;
        let done = self.rules.append(&mut rules);
        self.note(done);
    }

    /// Lays the rules behind the first so many aside.
    pub fn lay_aside(&mut self, count: usize) {
        let rules = self.take_from(count);
        if self.aside.push(rules).is_err() {
            self.is_short = true;
        }
    }

    /// Adds the rules that were laid aside last.
    pub fn fetch(&mut self) {
        if let Some(rules) = self.aside.pop() {
            self.put_all(rules);
        }
    }

    /// Adds a type variable to the type that is read.
    pub fn put_variable(&mut self, lexeme: usize, text: &Text) {
        match text.clone() {
            Ok(text) => self.put_mark(TypeMark::Variable(lexeme, text)),
            Err(_) => self.is_short = true,
        }
    }

    /// Adds a constructor to the type that is read.
    pub fn put_applied(&mut self, lexeme: usize, head: Head, arguments: usize) {
        self.put_mark(TypeMark::Applied(lexeme, head, arguments));
    }

    fn put_mark(&mut self, mark: TypeMark) {
        if self.marks.push(mark).is_err() {
            self.is_short = true;
        }
    }

    /// The parts of the type that was read.
    pub fn take_marks(&mut self) -> Vec<TypeMark> {
        mem::replace(&mut self.marks, Vec::new(self.alloc))
    }
}
