//! A renaming held against that of the plain form.
ghost use Rattle.std.specs.Prelude.{◌≡◌, ◌∷◌, [], IfOk, MatchOption, true};
ghost use Rattle.hare.specs.Refactorings.{IsMeant, IsNoPlainStep};
ghost use Rattle.hare.specs.Shown.{renaming_of};

use hr_base::{MODULE_LIMIT, Pos, Text};
use hr_plain::{load, rename};
use std::alloc::{AllocError, Global};

/// A renaming: the module and the position of a name, and the new name.
#[derive(Clone, Copy, Debug)]
pub struct Renaming<'a> {
    pub module: &'a str,
    pub pos: Pos,
    pub new: &'a str,
}

/// Whether the new texts are those of the plain form's renaming, where the old ones are one text of the form in which
/// it is accepted.
pub fn are_meant(
    alloc: Global,
    renaming: Renaming<'_>,
    olds: &[Text],
    news: &[Text],
) -> Result<bool, AllocError>
    ensures { IfOk result (λ are. are ≡ true → IsMeant (renaming_of renaming.entry) olds.now news.now) }
{
    match plain_step(alloc, renaming, olds)? {
        Some(text) => Ok(is_one(news, &text)),
        None => Ok(true),
    }
}

/// Whether the texts are this one alone.
fn is_one(texts: &[Text], text: &Text) -> bool
    ensures { result ≡ true → texts.now ≡ text.now ∷ [] }
{
    match texts {
        [only] => only.is(text.as_slice()),
        _ => false,
    }
}

/// The text in which the renaming is carried out, if the texts are one of the plain form and it is accepted there. No
/// text of a project is longer than a module may be; one that were is answered by want of memory.
fn plain_step(
    alloc: Global,
    renaming: Renaming<'_>,
    texts: &[Text],
) -> Result<Option<Text>, AllocError>
    ensures { IfOk result (λ found. MatchOption found (IsNoPlainStep (renaming_of renaming.entry) texts.now) (λ new. IsMeant (renaming_of renaming.entry) texts.now (new ∷ []))) }
{
    let [text] = texts else {
        return Ok(None);
    };
    let length = text.len();
    if length > MODULE_LIMIT {
        return Err(AllocError);
    }
    let tree = match load(alloc, text.as_slice()) {
        Ok(tree) => tree,
        Err(error) => {
            return match error.number() {
                Some(_) => Ok(None),
                None => Err(AllocError),
            };
        }
    };
    let module = Text::from_slice(alloc, renaming.module.as_bytes())?;
    let new = Text::from_slice(alloc, renaming.new.as_bytes())?;
    match rename(alloc, &tree, &module, renaming.pos, &new) {
        Ok(text) => Ok(Some(text)),
        Err(why) => match why.number() {
            Some(_) => Ok(None),
            None => Err(AllocError),
        },
    }
}
