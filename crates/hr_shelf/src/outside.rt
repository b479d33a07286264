ghost use Rattle.std.specs.Prelude.{◌≡◌, ◌≤◌, ◌+◌, length, IfOk, IfErr, OnOk, OnErr};
ghost use Rattle.hr_shelf.specs.Outside.{Store, Output, Rose, NoneFalls, HasBytes, MayRefuse, replaced, IsReady, StaysReady, appended, AppendsPrefix};

use std::alloc::Global;
use thiserror::Error;

/// Why a file was not read.
#[derive(Clone, Copy, Debug, Error, PartialEq, Eq)]
pub enum ReadError {
    #[error("there is no such file")]
    Absent,
    #[error("the file is longer than the limit")]
    TooLong,
    #[error("the file could not be read")]
    Failed,
    #[error("out of memory")]
    Memory,
}

/// A replace or a write that was refused.
#[derive(Clone, Copy, Debug, Error, PartialEq, Eq)]
#[error("the write was refused")]
pub struct Failed;

/// Files by name. A shelf that tells its contents (`told`) is a finite map from names to bytes.
/// No count of faults ever falls; a name is `ready` for `replace` once it was read.
pub trait Shelf {
    ghost store: { Self → Store };

    /// The bytes of a file, at most `limit` of them.
    fn read(&mut self, alloc: Global, name: &str, limit: usize) -> Result<Vec<u8>, ReadError>
        ensures bytes { IfOk result (λ bytes. HasBytes (store self.old).told name.now bytes.items) }
        ensures within { IfOk result (λ bytes. length bytes.items ≤ limit) }
        ensures gets_ready { OnOk result (IsReady (store self.new).ready name.now) }
        ensures cause { IfErr result (λ error. MayRefuse error (store self.old).told name.now limit (Rose ((store self.old).read_faults name.now) ((store self.new).read_faults name.now))) }
        ensures stays { (store self.new).told ≡ (store self.old).told }
        ensures stays_ready { StaysReady (store self.old).ready (store self.new).ready }
        ensures never_falls { NoneFalls (store self.old).read_faults (store self.new).read_faults }
        ensures other_count { (store self.new).replace_faults ≡ (store self.old).replace_faults }
        ensures counted { (store self.new).calls ≤ (store self.old).calls + 1 };

    /// Puts the bytes in the place of those that a file had.
    fn replace(&mut self, name: &str, bytes: Vec<u8>) -> Result<(), Failed>
        requires { IsReady (store self.old).ready name.now }
        ensures puts { OnOk result ((store self.new).told ≡ replaced (store self.old).told name.now bytes.items) }
        ensures kept { OnOk result ((store self.new).replace_faults ≡ (store self.old).replace_faults) }
        ensures cause { OnErr result (Rose (store self.old).replace_faults (store self.new).replace_faults) }
        ensures stays { OnErr result ((store self.new).told ≡ (store self.old).told) }
        ensures stays_ready { StaysReady (store self.old).ready (store self.new).ready }
        ensures never_falls { (store self.old).replace_faults ≤ (store self.new).replace_faults }
        ensures other_count { (store self.new).read_faults ≡ (store self.old).read_faults }
        ensures counted { (store self.new).calls ≤ (store self.old).calls + 1 };
}

/// Takes the pieces of a report. A sink that tells what was `written` is the list of its bytes.
pub trait Sink {
    ghost output: { Self → Output };

    /// Appends the piece.
    fn write(&mut self, bytes: &[u8]) -> Result<(), Failed>
        ensures appends { OnOk result ((output self.new).written ≡ appended (output self.old).written bytes.now) }
        ensures kept { OnOk result ((output self.new).faults ≡ (output self.old).faults) }
        ensures cause { OnErr result (Rose (output self.old).faults (output self.new).faults) }
        ensures prefix { OnErr result (AppendsPrefix (output self.old).written (output self.new).written bytes.now) }
        ensures never_falls { (output self.old).faults ≤ (output self.new).faults }
        ensures counted { (output self.new).pieces ≤ (output self.old).pieces + 1 };
}
