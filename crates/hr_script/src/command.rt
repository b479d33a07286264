//! The commands.
ghost use Rattle.std.specs.Prelude.{◌≡◌};
ghost use Rattle.std.specs.Option.{option_copied};
ghost use Rattle.std.specs.List.{find};
ghost use Rattle.hr_script.specs.Language.{is_built, verb_of, verb_word};
ghost use Rattle.hr_script.specs.Reader as reader;

use hr_base::{Pos, Text};

/// A command of a script. A position speaks of the text as it stands when the command runs; the index of a
/// parameter counts from 1.
#[derive(Clone, Debug, Drop)]
pub enum Command {
    Rename { module: Text, pos: Pos, new: Text },
    AddParameter { module: Text, pos: Pos, name: Text },
    RemoveParameter { module: Text, pos: Pos, index: u32 },
    LiftOne { module: Text, pos: Pos },
    LiftTop { module: Text, pos: Pos },
    Demote { module: Text, pos: Pos },
    Generalise { module: Text, pos: Pos, name: Text },
    Move { from: Text, name: Text, to: Text },
    Abstract { module: Text, name: Text },
    Undo,
}

/// What a command does, without what it does it to.
#[derive(Clone, Copy, Debug, PartialEq, Eq)]
pub enum Verb {
    Rename,
    AddParameter,
    RemoveParameter,
    LiftOne,
    LiftTop,
    Demote,
    Generalise,
    Move,
    Abstract,
    Undo,
}

impl Command {
    pub fn verb(&self) -> Verb
        ensures { result ≡ verb_of self.now }
    {
        match self {
            Command::Rename { .. } => Verb::Rename,
            Command::AddParameter { .. } => Verb::AddParameter,
            Command::RemoveParameter { .. } => Verb::RemoveParameter,
            Command::LiftOne { .. } => Verb::LiftOne,
            Command::LiftTop { .. } => Verb::LiftTop,
            Command::Demote { .. } => Verb::Demote,
            Command::Generalise { .. } => Verb::Generalise,
            Command::Move { .. } => Verb::Move,
            Command::Abstract { .. } => Verb::Abstract,
            Command::Undo => Verb::Undo,
        }
    }

    /// Whether the command is built; another one is not of the language.
    pub fn is_built(&self) -> bool
        ensures { result ≡ is_built self.now }
    {
        match self {
            Command::Rename { .. } => true,
            Command::AddParameter { .. } => false,
            Command::RemoveParameter { .. } => false,
            Command::LiftOne { .. } => false,
            Command::LiftTop { .. } => false,
            Command::Demote { .. } => false,
            Command::Generalise { .. } => false,
            Command::Move { .. } => false,
            Command::Abstract { .. } => false,
            Command::Undo => true,
        }
    }
}

impl Verb {
    /// The word that a command's line begins with.
    pub fn word(self) -> &'static str
        ensures { result.now ≡ verb_word self }
    {
        match self {
            Verb::Rename => "rename",
            Verb::AddParameter => "add-parameter",
            Verb::RemoveParameter => "remove-parameter",
            Verb::LiftOne => "lift-one",
            Verb::LiftTop => "lift-top",
            Verb::Demote => "demote",
            Verb::Generalise => "generalise",
            Verb::Move => "move",
            Verb::Abstract => "abstract",
            Verb::Undo => "undo",
        }
    }

    /// What a line does that begins with this word.
    pub(crate) fn of_word(word: &[u8]) -> Option<Verb>
        ensures { result ≡ reader.verb_named word.now }
    {
        named(&VERBS, word).copied()
    }
}

/// The verb that has the word.
fn named<'a>(verbs: &'a [Verb], word: &[u8]) -> Option<&'a Verb>
    ensures { option_copied result ≡ find (reader.has_word word.now) verbs.now }
{
    verbs.iter().find(|verb| has_word(verb, word))
}

fn has_word(verb: &Verb, word: &[u8]) -> bool
    ensures { result ≡ reader.has_word word.now verb.now }
{
    verb.word().as_bytes() == word
}

/// All of them.
const VERBS: [Verb; 10] = [
    Verb::Rename,
    Verb::AddParameter,
    Verb::RemoveParameter,
    Verb::LiftOne,
    Verb::LiftTop,
    Verb::Demote,
    Verb::Generalise,
    Verb::Move,
    Verb::Abstract,
    Verb::Undo,
];
