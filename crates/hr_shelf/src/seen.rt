ghost use Rattle.std.specs.Prelude.{◌≡◌, ◌==◌, ◌&&◌};
ghost use Rattle.std.specs.Fs.{metadata_len};

use std::fs::Metadata;
use std::os::unix::fs::MetadataExt;

/// Which file a path led to, how long it was, and when its bytes were last changed.
#[derive(Clone, Copy, PartialEq, Eq)]
pub(crate) struct Seen {
    pub device: u64,
    pub node: u64,
    pub length: u64,
    pub changed_secs: i64,
    pub changed_nanos: i64,
}

impl Seen {
    pub fn of(metadata: &Metadata) -> Seen
        ensures { result.length ≡ metadata_len metadata.now }
    {
        Seen {
            device: metadata.dev(),
            node: metadata.ino(),
            length: metadata.len(),
            changed_secs: metadata.mtime(),
            changed_nanos: metadata.mtime_nsec(),
        }
    }

    /// Whether it is the same file, changed or not.
    pub fn is_file_of(&self, other: &Seen) -> bool
        ensures { result ≡ (self.now.device == other.now.device && self.now.node == other.now.node) }
    {
        self.device == other.device && self.node == other.node
    }
}
