ghost use Rattle.std.specs.Prelude.{◌≡◌, ◌≤◌, None};
ghost use Rattle.hr_shelf.specs.System.{after_write};

use crate::stream::write_whole;
use crate::{Failed, Sink};
use std::io;
use std::marker::Model;

/// The standard output. Contracts see the numbers of its refusals and of the pieces that it was offered.
#[derive(Drop)]
pub struct StdSink<P: Print + Drop> {
    out: P,
    faults: u64,
    pieces: u64,
}

impl<P: Print + Drop> Model for StdSink<P> {
    ghost use Rattle.hr_shelf.specs.System.{StdState};

    ghost Value = { StdState };

    ghost view = { λ s. record { faults = s.faults; pieces = s.pieces } };
}

impl<P: Print + Drop> StdSink<P> {
    /// The standard output that `out` stands for.
    pub fn new(out: P) -> StdSink<P>
        ensures { result ≡ record { faults = 0; pieces = 0 } }
    {
        StdSink {
            out,
            faults: 0,
            pieces: 0,
        }
    }
}

impl<P: Print + Drop> Sink for StdSink<P> {
    ghost output = { λ s. record { written = None; faults = s.faults; pieces = s.pieces } };

    fn write(&mut self, bytes: &[u8]) -> Result<(), Failed>
        ensures after { self.new ≡ after_write result self.old }
        ensures never_falls { self.old.faults ≤ self.new.faults }
    {
        self.pieces = self.pieces.saturating_add(1);
        match write_whole(&mut io::writer(&self.out), bytes) {
            Ok(()) => Ok(()),
            Err(Failed) => {
                self.faults = self.faults.saturating_add(1);
                Err(Failed)
            }
        }
    }
}

#[cfg(test)]
mod tests {
    use crate::{Failed, Sink, StdSink};
    use std::fmt::Display;
    use std::io;

    // Takes nothing.
    struct Full;

    impl Drop for Full {
        fn drop(self) {
            let Full = self;
        }
    }

    impl Print for Full {
        fn print<D: Display + Drop>(&self, _value: D) -> io::Result<()> {
            Ok(())
        }

        fn println<D: Display + Drop>(&self, _value: D) -> io::Result<()> {
            Ok(())
        }

        fn write_all(&self, _bytes: &[u8]) -> io::Result<()> {
            Ok(())
        }

        fn write_some(&self, _bytes: &[u8]) -> io::Result<usize> {
            Ok(0)
        }
    }

    #[test]
    fn a_write_that_takes_nothing_is_refused(rt: HostRuntime) {
        let mut out = StdSink::new(&rt);
        assert_eq!(rt; out.write(b"1 rename: done\n"), Ok(()));
        let mut full = StdSink::new(Full);
        assert_eq!(rt; full.write(b""), Ok(()));
        assert_eq!(rt; full.write(b"1"), Err(Failed));
    }
}
