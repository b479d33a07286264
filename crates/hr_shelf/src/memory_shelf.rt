ghost use Rattle.std.specs.Prelude.{◌≡◌, ◌≤◌, ◌↔◌, Some, Ok, IfOk, IfErr, IsTrue, IsErr, OnOk, OnErr, Contains};
ghost use Rattle.std.specs.Option.{option_copied};
ghost use Rattle.std.specs.FinMap as map;
ghost use Rattle.hr_shelf.specs.Outside.{StaysReady};
ghost use Rattle.hr_shelf.specs.Memory.{new_shelf, with_file, names, read_answer, Refused, after_read, after_replace, shelf_fails};

use crate::calls::Calls;
use crate::entries::place_named;
use crate::{Failed, ReadError, Shelf};
use hr_base::{Seq, Text};
use std::alloc::{AllocError, Global};
use std::marker::Model;

/// Files in memory. The calls of a list fail.
#[derive(Debug, Drop)]
pub struct MemoryShelf {
    files: Vec<(Text, Seq<u8>)>,
    calls: Calls,
    read_faults: u64,
    replace_faults: u64,
}

impl Model for MemoryShelf {
    ghost use Rattle.std.specs.FinMap as map;
    ghost use Rattle.hr_shelf.specs.Memory.{ShelfState, shelf_code};

    ghost Value = { ShelfState };

    ghost coded = { shelf_code };

    ghost view = { λ s. record { files = map.from_entries s.files.items; failing = s.calls.failing; calls = s.calls.made; read_faults = s.read_faults; replace_faults = s.replace_faults } };
}

impl MemoryShelf {
    /// A shelf without files. `failing` has the numbers of the calls of `read` and `replace` that
    /// are to fail; both are numbered together, the first call being 1.
    pub fn new(alloc: Global, failing: Seq<u32>) -> Result<MemoryShelf, AllocError>
        ensures { IfOk result (λ shelf. shelf ≡ new_shelf failing) }
    {
        Ok(MemoryShelf {
            files: Vec::new(alloc),
            calls: Calls { made: 0, failing },
            read_faults: 0,
            replace_faults: 0,
        })
    }

    /// Sets the bytes of a name. This is no call that is counted.
    pub fn put(&mut self, alloc: Global, name: &str, bytes: Vec<u8>) -> Result<(), AllocError>
        ensures puts { OnOk result (self.new ≡ with_file self.old name.now bytes.items) }
        ensures stays { OnErr result (self.new ≡ self.old) }
    {
        let bytes = Seq { list: bytes };
        if let Some(place) = place_named(&self.files, name.as_bytes()) {
            self.files[place].1 = bytes;
            return Ok(());
        }
        let name = Text::from_slice(alloc, name.as_bytes())?;
        self.files.push((name, bytes))?;
        Ok(())
    }

    /// The bytes of a name.
    pub fn bytes(&self, name: &str) -> Option<&[u8]>
        ensures { option_copied result ≡ map.get self.now.files name.now }
    {
        let place = place_named(&self.files, name.as_bytes())?;
        Some(self.files[place].1.as_slice())
    }
}

impl Shelf for MemoryShelf {
    ghost store = { λ s. record { told = Some s.files; read_faults = λ _. s.read_faults; replace_faults = s.replace_faults; ready = names s; calls = s.calls } };

    fn read(&mut self, alloc: Global, name: &str, limit: usize) -> Result<Vec<u8>, ReadError>
        ensures answer { IfOk result (λ bytes. read_answer self.old name.now limit ≡ Ok bytes.items) }
        ensures refused { IfErr result (λ error. Refused (read_answer self.old name.now limit) error) }
        ensures after { self.new ≡ after_read self.old }
        ensures gets_ready { OnOk result (Contains (names self.new) name.now) }
        ensures never_falls { self.old.read_faults ≤ self.new.read_faults }
    {
        if self.calls.count() {
            self.read_faults = self.read_faults.saturating_add(1);
            return Err(ReadError::Failed);
        }
        let bytes = self.bytes(name).ok_or(ReadError::Absent)?;
        if bytes.len() > limit {
            return Err(ReadError::TooLong);
        }
        bytes.to_vec(alloc).map_err(|_| ReadError::Memory)
    }

    fn replace(&mut self, name: &str, bytes: Vec<u8>) -> Result<(), Failed>
        requires { Contains (names self.old) name.now }
        ensures fails { IsErr result ↔ IsTrue (shelf_fails self.old) }
        ensures after { self.new ≡ after_replace self.old name.now bytes.items }
        ensures stays_ready { StaysReady (names self.old) (names self.new) }
        ensures never_falls { self.old.replace_faults ≤ self.new.replace_faults }
    {
        if self.calls.count() {
            self.replace_faults = self.replace_faults.saturating_add(1);
            return Err(Failed);
        }
        let place = place_named(&self.files, name.as_bytes()).unwrap();
        self.files[place].1 = Seq { list: bytes };
        Ok(())
    }
}

#[cfg(test)]
mod tests {
    use crate::{Failed, MemoryShelf, ReadError, Shelf};
    use hr_base::Seq;
    use std::test::Fail;

    #[test]
    fn listed_calls_fail_and_the_others_see_the_map(rt: HostRuntime) -> Result<(), Fail> {
        let failing = Seq {
            list: vec![in rt.alloc(); 1, 5]?,
        };
        let mut shelf = MemoryShelf::new(rt.alloc(), failing)?;
        assert_eq!(rt; shelf.bytes("A.hs"), None);
        shelf.put(rt.alloc(), "A.hs", b"old".to_vec(rt.alloc())?)?;
        shelf.put(rt.alloc(), "A.hs", b"a = 1".to_vec(rt.alloc())?)?;
        shelf.put(rt.alloc(), "B.hs", b"b = 2".to_vec(rt.alloc())?)?;

        let listed = shelf.read(rt.alloc(), "A.hs", 5);
        assert_eq!(rt; listed.err(), Some(ReadError::Failed));
        let long = shelf.read(rt.alloc(), "A.hs", 4);
        assert_eq!(rt; long.err(), Some(ReadError::TooLong));
        let absent = shelf.read(rt.alloc(), "C.hs", 5);
        assert_eq!(rt; absent.err(), Some(ReadError::Absent));
        let read = shelf.read(rt.alloc(), "A.hs", 5)?;
        assert_eq!(rt; read.as_slice(), b"a = 1".as_slice());

        let listed = shelf.replace("A.hs", b"a = 3".to_vec(rt.alloc())?);
        assert_eq!(rt; listed, Err(Failed));
        assert_eq!(rt; shelf.bytes("A.hs"), Some(b"a = 1".as_slice()));
        let replaced = shelf.replace("A.hs", b"a = 3".to_vec(rt.alloc())?);
        assert_eq!(rt; replaced, Ok(()));
        assert_eq!(rt; shelf.bytes("A.hs"), Some(b"a = 3".as_slice()));
        assert_eq!(rt; shelf.bytes("B.hs"), Some(b"b = 2".as_slice()));
        Ok(())
    }
}
