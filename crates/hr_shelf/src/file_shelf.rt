ghost use Rattle.std.specs.Prelude.{◌≡◌, ◌≤◌, ◌≢◌, ◌↔◌, ◌++◌, [], None, IfOk, IsErr, OnOk, OnErr, Contains, length, codes};
ghost use Rattle.std.specs.IoError.{error_kind};
ghost use Rattle.hr_shelf.specs.Outside.{StaysReady};
ghost use Rattle.hr_shelf.specs.System.{after_read, after_replace, with_name};

use crate::ready_names::ReadyNames;
use crate::replacing::exchange;
use crate::seen::Seen;
use crate::stream::read_within;
use crate::{Failed, ReadError, Shelf};
use std::alloc::Global;
use std::fs::{File, OpenFile};
use std::io;
use std::io::ErrorKind;
use std::marker::Model;
use std::os::unix::io::AsFd;
use std::rt::Files;

/// The files of the system. Contracts see the names that are ready and the counts of refusals.
#[derive(Drop)]
pub struct FileShelf<R: Files + Drop> {
    files: R,
    ready: ReadyNames,
    calls: u64,
    read_faults: u64,
    replace_faults: u64,
}

impl<R: Files + Drop> Model for FileShelf<R> {
    ghost use Rattle.hr_shelf.specs.System.{FileState};

    ghost Value = { FileState };

    ghost view = { λ s. record { ready = s.ready; calls = s.calls; read_faults = s.read_faults; replace_faults = s.replace_faults } };
}

impl<R: Files + Drop> FileShelf<R> {
    /// The files that `files` gives, by their paths.
    pub fn new(alloc: Global, files: R) -> FileShelf<R>
        ensures { result ≡ record { ready = []; calls = 0; read_faults = 0; replace_faults = 0 } }
    {
        FileShelf {
            files,
            ready: ReadyNames::new(alloc),
            calls: 0,
            read_faults: 0,
            replace_faults: 0,
        }
    }
}

impl<R: Files + Drop> FileShelf<R> {
    /// The bytes of a file, which is ready then.
    fn take(&mut self, alloc: Global, name: &str, limit: usize) -> Result<Vec<u8>, ReadError>
        ensures within { IfOk result (λ bytes. length bytes.items ≤ limit) }
        ensures readied { OnOk result (self.new ≡ record self.old { ready = with_name self.old.ready name.now }) }
        ensures stays { OnErr result (self.new ≡ self.old) }
    {
        let (bytes, seen) = read_file(alloc, &self.files, name, limit)?;
        match self.ready.add(alloc, name, seen) {
            Ok(()) => Ok(bytes),
            Err(_) => Err(ReadError::Memory),
        }
    }
}

impl<R: Files + Drop> Shelf for FileShelf<R>
where
    R::File: AsFd,
{
    ghost store = { λ s. record { told = None; read_faults = λ _. s.read_faults; replace_faults = s.replace_faults; ready = s.ready; calls = s.calls } };

    fn read(&mut self, alloc: Global, name: &str, limit: usize) -> Result<Vec<u8>, ReadError>
        ensures within { IfOk result (λ bytes. length bytes.items ≤ limit) }
        ensures after { self.new ≡ after_read result self.old name.now }
        ensures gets_ready { OnOk result (Contains self.new.ready name.now) }
        ensures stays_ready { StaysReady self.old.ready self.new.ready }
        ensures never_falls { self.old.read_faults ≤ self.new.read_faults }
    {
        self.calls = self.calls.saturating_add(1);
        match self.take(alloc, name, limit) {
            Ok(bytes) => Ok(bytes),
            Err(refusal) => {
                self.read_faults = self.read_faults.saturating_add(1);
                Err(refusal)
            }
        }
    }

    fn replace(&mut self, name: &str, bytes: Vec<u8>) -> Result<(), Failed>
        requires { Contains self.old.ready name.now }
        ensures after { self.new ≡ after_replace result self.old }
        ensures never_falls { self.old.replace_faults ≤ self.new.replace_faults }
        ensures spared { Contains self.old.ready (name.now ++ codes ".hare") → IsErr result }
    {
        self.calls = self.calls.saturating_add(1);
        match exchange(&self.files, &self.ready, name, &bytes) {
            Ok(seen) => {
                self.ready.see(name, seen);
                Ok(())
            }
            Err(_) => {
                self.replace_faults = self.replace_faults.saturating_add(1);
                Err(Failed)
            }
        }
    }
}

/// The bytes of the file at the path, at most `limit` of them, and how the file was seen before they
/// were read.
fn read_file<R: Files>(
    alloc: Global,
    files: &R,
    path: &str,
    limit: usize,
) -> Result<(Vec<u8>, Seen), ReadError>
    ensures { IfOk result (λ read. length read.0.items ≤ limit) }
{
    let mut file = File::open(files, path).map_err(|error| refusal_of(&error))?;
    let seen = file.metadata().map_err(|_| ReadError::Failed)?;
    let bytes = read_within(alloc, &mut file, limit)?;
    Ok((bytes, Seen::of(&seen)))
}

/// Why a file was not opened.
fn refusal_of(error: &io::Error) -> ReadError
    ensures absent { (result ≡ ReadError.Absent) ↔ (error_kind error.now ≡ ErrorKind.NotFound) }
    ensures failed { error_kind error.now ≢ ErrorKind.NotFound → result ≡ ReadError.Failed }
{
    if error.kind() == ErrorKind::NotFound {
        ReadError::Absent
    } else {
        ReadError::Failed
    }
}
