//! Trees as they are written.

use hr_base::{Item, Seq};
use hr_tree::Layout;
use std::alloc::{AllocError, Global};

/// What is written.
#[derive(Drop)]
pub struct Shown {
    text: String,
    has_nodes: bool,
}

impl Shown {
    pub fn new(alloc: Global, has_nodes: bool) -> Shown {
        Shown {
            text: String::new(alloc),
            has_nodes,
        }
    }

    pub fn into_text(self) -> String {
        let Shown { text, .. } = self;
        text
    }

    /// A word, behind a blank where one stands before it.
    pub fn word(&mut self, word: &[u8]) -> Result<(), AllocError> {
        if !self.text.is_empty() {
            self.text.push(' ')?;
        }
        for byte in word {
            self.text.push(char::from(*byte))?;
        }
        Ok(())
    }

    pub fn item(&mut self, item: &Item) -> Result<(), AllocError> {
        self.word(item.lexeme.text.as_slice())
    }

    pub fn maybe(&mut self, item: &Option<Item>) -> Result<(), AllocError> {
        match item {
            None => Ok(()),
            Some(item) => self.item(item),
        }
    }

    pub fn items(&mut self, items: &Seq<Item>) -> Result<(), AllocError> {
        for item in items.as_slice() {
            self.item(item)?;
        }
        Ok(())
    }

    /// A node begins.
    pub fn open(&mut self, name: &[u8]) -> Result<(), AllocError> {
        if self.has_nodes {
            self.word(name)
        } else {
            Ok(())
        }
    }

    /// A node ends.
    pub fn close(&mut self) -> Result<(), AllocError> {
        if self.has_nodes {
            self.text.push('>')?;
        }
        Ok(())
    }

    /// A block begins.
    pub fn begin(&mut self, layout: &Layout) -> Result<(), AllocError> {
        match layout {
            Layout::Explicit(left, _) => self.item(left),
            Layout::Implicit { col } => {
                self.word(b"{")?;
                write!(self.text, "{col}:")?;
                Ok(())
            }
        }
    }

    /// A block ends.
    pub fn end(&mut self, layout: &Layout) -> Result<(), AllocError> {
        match layout {
            Layout::Explicit(_, right) => self.item(right),
            Layout::Implicit { .. } => self.word(b"}"),
        }
    }
}
