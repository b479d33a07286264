ghost use Rattle.std.specs.Prelude.{◌≡◌, ◌≤◌, ◌+◌, [], ◌∷◌, ◌++◌, IfOk, IfErr, OnOk, map, length};
ghost use Rattle.std.specs.String.{string_bytes};
ghost use Rattle.hr_base.specs.Limits.{module_limit};
ghost use Rattle.hr_shelf.specs.Outside.{HasBytes, IsReady};
ghost use Rattle.hr_files.specs.declared.reading.Unread.{Unread};
ghost use Rattle.hr_files.specs.Read as spec;
ghost use Rattle.hr_files.specs.Read.{AreRead, AreReady, IsUnread, IsUnreadFile, OnlyReads};

use hr_base::{MODULE_LIMIT, Text};
use hr_shelf::{ReadError, Shelf};
use std::alloc::Global;

/// The bytes of all modules together, at most.
pub const PROJECT_LIMIT: usize = 8_388_608;

/// Why files were not read. A file is shown by the number of its name, from 0.
#[derive(Clone, Copy, Debug, PartialEq, Eq)]
pub enum Unread {
    /// It is absent, or reading it failed.
    Missing(usize),
    /// It is longer than a module may be.
    TooLong(usize),
    /// The files up to some name are too long together.
    TooLongTogether,
    Memory,
}

/// The texts of the files with these names, in their order. The sum of their lengths is tested after each read.
pub fn read_files<S: Shelf>(
    alloc: Global,
    shelf: &mut S,
    names: &[String],
) -> Result<Vec<Text>, Unread>
    ensures only { OnlyReads (S.store shelf.old) (S.store shelf.new) }
    ensures texts { IfOk result (λ texts. AreRead (map string_bytes names.now) (S.store shelf.old) texts.items) }
    ensures ready { IfOk result (λ texts. AreReady (S.store shelf.new).ready (map string_bytes names.now)) }
    ensures cause { IfErr result (IsUnread (map string_bytes names.now) (S.store shelf.old) (S.store shelf.new)) }
    ensures counted { (S.store shelf.new).calls ≤ (S.store shelf.old).calls + length names.now }
{
    let mut texts = Vec::new(alloc);
    let mut total = 0usize;
    for (file, name) in names.iter().enumerate() {
        let text = read_file(alloc, shelf, file, name.as_str())?;
        total += text.len();
        keep(&mut texts, text)?;
        if total > PROJECT_LIMIT {
            return Err(Unread::TooLongTogether);
        }
    }
    Ok(texts)
}

fn keep(texts: &mut Vec<Text>, text: Text) -> Result<(), Unread>
    ensures kept { OnOk result (texts.new.items ≡ texts.old.items ++ text ∷ []) }
    ensures memory { IfErr result (λ unread. unread ≡ Unread.Memory) }
{
    match texts.push(text) {
        Ok(()) => Ok(()),
        Err(_) => Err(Unread::Memory),
    }
}

/// The text of the file with the name of that number.
pub fn read_file<S: Shelf>(
    alloc: Global,
    shelf: &mut S,
    file: usize,
    name: &str,
) -> Result<Text, Unread>
    ensures only { OnlyReads (S.store shelf.old) (S.store shelf.new) }
    ensures text { IfOk result (λ text. HasBytes (S.store shelf.old).told name.now text) }
    ensures within { IfOk result (λ text. length text ≤ module_limit) }
    ensures ready { OnOk result (IsReady (S.store shelf.new).ready name.now) }
    ensures cause { IfErr result (IsUnreadFile file name.now (S.store shelf.old) (S.store shelf.new)) }
    ensures counted { (S.store shelf.new).calls ≤ (S.store shelf.old).calls + 1 }
{
    let bytes = match shelf.read(alloc, name, MODULE_LIMIT) {
        Ok(bytes) => bytes,
        Err(error) => return Err(told_as(file, error)),
    };
    Text::from_vec(bytes).map_err(|_| Unread::Memory)
}

fn told_as(file: usize, error: ReadError) -> Unread
    ensures { result ≡ spec.told_as file error }
{
    match error {
        ReadError::Absent | ReadError::Failed => Unread::Missing(file),
        ReadError::TooLong => Unread::TooLong(file),
        ReadError::Memory => Unread::Memory,
    }
}
