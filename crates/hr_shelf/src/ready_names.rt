ghost use Rattle.std.specs.Prelude.{◌≡◌, ◌++◌, [], IfOk, OnOk, OnErr, Contains, string_bytes, codes};
ghost use Rattle.std.specs.List.{list_any};
ghost use Rattle.std.specs.Str.{bytes_eq};
ghost use Rattle.hr_shelf.specs.System.{with_name};

use crate::entries::place_named;
use crate::seen::Seen;
use hr_base::Text;
use std::alloc::{AllocError, Global};
use std::marker::Model;

/// A file that was read: the path under which its new bytes are written first, and how it was seen.
#[derive(Drop)]
pub(crate) struct Held {
    pub beside: String,
    pub seen: Seen,
}

/// Names of files that were read. Contracts see the list of the names.
#[derive(Drop)]
pub(crate) struct ReadyNames {
    list: Vec<(Text, Held)>,
}

impl Model for ReadyNames {
    ghost use Rattle.std.specs.Prelude.{◌≡◌, ◌++◌, ℕ, List, map, All, string_bytes, codes};

    ghost Value = { List (List ℕ) };

    ghost view = { λ s. map (λ entry. entry.0) s.list.items };

    ghost invariant = { λ s. All (λ entry. string_bytes entry.1.beside ≡ entry.0 ++ codes ".hare") s.list.items };
}

impl ReadyNames {
    pub fn new(alloc: Global) -> ReadyNames
        ensures { result ≡ [] }
    {
        ReadyNames {
            list: Vec::new(alloc),
        }
    }

    /// Adds a name, or notes how the file of one that is there was seen now.
    pub fn add(&mut self, alloc: Global, name: &str, seen: Seen) -> Result<(), AllocError>
        ensures added { OnOk result (self.new ≡ with_name self.old name.now) }
        ensures stays { OnErr result (self.new ≡ self.old) }
    {
        if let Some(place) = place_named(&self.list, name.as_bytes()) {
            self.list[place].1.seen = seen;
            return Ok(());
        }
        let beside = path_beside(alloc, name)?;
        let name = Text::from_slice(alloc, name.as_bytes())?;
        self.list.push((name, Held { beside, seen }))?;
        Ok(())
    }

    /// Notes how the file of a name was seen now.
    pub fn see(&mut self, name: &str, seen: Seen)
        ensures { self.new ≡ self.old }
    {
        if let Some(place) = place_named(&self.list, name.as_bytes()) {
            self.list[place].1.seen = seen;
        }
    }

    /// What is held for a name.
    pub fn of(&self, name: &str) -> &Held
        requires { Contains self.now name.now }
        ensures { string_bytes result.now.beside ≡ name.now ++ codes ".hare" }
    {
        let place = place_named(&self.list, name.as_bytes()).unwrap();
        &self.list[place].1
    }

    /// Whether the name is there.
    pub fn has(&self, name: &str) -> bool
        ensures { result ≡ list_any (bytes_eq name.now) self.now }
    {
        place_named(&self.list, name.as_bytes()).is_some()
    }

    /// Whether the file is one of those that were read, under whatever name.
    pub fn has_file(&self, file: &Seen) -> bool {
        self.list.iter().any(|(_, held)| held.seen.is_file_of(file))
    }
}

/// The name, followed by `.hare`.
fn path_beside(alloc: Global, name: &str) -> Result<String, AllocError>
    ensures { IfOk result (λ path. string_bytes path ≡ name.now ++ codes ".hare") }
{
    let mut path = String::from_str(alloc, name)?;
    path.push_str(".hare")?;
    Ok(path)
}
