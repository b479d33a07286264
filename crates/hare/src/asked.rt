ghost use Rattle.std.specs.Prelude.{◌≡◌};
ghost use Rattle.hr_words.specs.Words.{shown};
ghost use Rattle.hare.specs.Shown as spec;

use hr_words::Request;

/// What the words ask for: the script of this name is to be run on the files of these names.
#[derive(Clone, Copy, Debug)]
pub struct Asked<'a> {
    pub script: &'a str,
    pub files: &'a [String],
    pub dry_run: bool,
    pub keep_going: bool,
}

/// The same, borrowed.
pub fn borrowed(request: &Request) -> Asked<'_>
    ensures { spec.shown result ≡ shown request.now }
{
    Asked {
        script: request.script.as_str(),
        files: request.files.as_slice(),
        dry_run: request.dry_run,
        keep_going: request.keep_going,
    }
}
