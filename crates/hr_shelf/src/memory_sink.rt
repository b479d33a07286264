ghost use Rattle.std.specs.Prelude.{◌≡◌, ◌≤◌, ◌↔◌, Some, IfOk, IsTrue, IsErr};
ghost use Rattle.hr_shelf.specs.Memory.{new_sink, sink_refuses, after_write};

use crate::calls::Calls;
use crate::{Failed, Sink};
use hr_base::Seq;
use std::alloc::{AllocError, Global};
use std::marker::Model;

/// A sink in memory that holds so many bytes at most, and refuses the calls of a list.
#[derive(Debug, Drop)]
pub struct MemorySink {
    bytes: Vec<u8>,
    capacity: usize,
    calls: Calls,
    faults: u64,
}

impl Model for MemorySink {
    ghost use Rattle.std.specs.Prelude.{◌≤◌, length};
    ghost use Rattle.std.specs.Vec.{vec_capacity};
    ghost use Rattle.hr_shelf.specs.Memory.{SinkState};

    ghost Value = { SinkState };

    ghost view = { λ s. record { bytes = s.bytes.items; capacity = s.capacity; failing = s.calls.failing; calls = s.calls.made; faults = s.faults } };

    ghost invariant = { λ s. (length s.bytes.items ≤ s.capacity) × (s.capacity ≤ vec_capacity s.bytes) };
}

impl MemorySink {
    /// An empty sink with room for `capacity` bytes. `failing` has the numbers of the calls of
    /// `write` that are to fail, the first call being 1.
    pub fn new(alloc: Global, capacity: usize, failing: Seq<u32>) -> Result<MemorySink, AllocError>
        ensures { IfOk result (λ sink. sink ≡ new_sink capacity failing) }
    {
        Ok(MemorySink {
            bytes: Vec::with_capacity(alloc, capacity)?,
            capacity,
            calls: Calls { made: 0, failing },
            faults: 0,
        })
    }

    /// The bytes written so far.
    pub fn written(&self) -> &[u8]
        ensures { result.now ≡ self.now.bytes }
    {
        self.bytes.as_slice()
    }
}

impl Sink for MemorySink {
    ghost output = { λ s. record { written = Some s.bytes; faults = s.faults; pieces = s.calls } };

    fn write(&mut self, bytes: &[u8]) -> Result<(), Failed>
        ensures refuses { IsErr result ↔ IsTrue (sink_refuses self.old bytes.now) }
        ensures after { self.new ≡ after_write self.old bytes.now }
        ensures never_falls { self.old.faults ≤ self.new.faults }
    {
        let fails = self.calls.count();
        if fails || bytes.len() > self.capacity - self.bytes.len() {
            self.faults = self.faults.saturating_add(1);
            return Err(Failed);
        }
        self.bytes.extend_from_slice(bytes).map_err(|_| Failed)
    }
}

#[cfg(test)]
mod tests {
    use crate::{Failed, MemorySink, Sink};
    use hr_base::Seq;
    use std::test::Fail;

    #[test]
    fn pieces_that_fit_are_appended_and_listed_calls_fail(rt: HostRuntime) -> Result<(), Fail> {
        let failing = Seq {
            list: vec![in rt.alloc(); 2]?,
        };
        let mut sink = MemorySink::new(rt.alloc(), 5, failing)?;
        assert_eq!(rt; sink.write(b"abc"), Ok(()));
        assert_eq!(rt; sink.write(b"d"), Err(Failed));
        assert_eq!(rt; sink.write(b"def"), Err(Failed));
        assert_eq!(rt; sink.write(b"de"), Ok(()));
        assert_eq!(rt; sink.write(b""), Ok(()));
        assert_eq!(rt; sink.written(), b"abcde".as_slice());
        Ok(())
    }
}
