//! Names, operators and qualified names.
ghost use Rattle.std.specs.Prelude.{◌≡◌, ◌+◌, ◌<◌, ◌≤◌, ◌^◌, length, true, IfSome};
ghost use Rattle.std.specs.List.{list_all, prefix_len};
ghost use Rattle.hr_rules.specs.Letters.{is_in_name, is_symbol};
ghost use Rattle.hr_rules.specs.Names.{word_class};
ghost use Rattle.hr_rules.specs.Operators.{is_dash, is_dashes, run_class};
ghost use Rattle.hr_rules.specs.Runs.{begins};
ghost use Rattle.hr_lexer.specs.NameReader.{behind_dot, conid_at, name_at, symbols_at, with_qualifier, word_at};

use crate::tables::{is_reserved_operator, is_reserved_word};
use crate::taken::Taken;
use hr_base::Class;
use hr_rules::{Kind, is_in_name, is_symbol, kind_of};

/// A variable or a reserved word.
pub fn word_at(text: &[char]) -> Taken
    ensures value { result ≡ word_at text.now }
    ensures within { result.len ≤ length text.now }
    ensures some { begins is_in_name text.now ≡ true → 0 < result.len }
{
    let len = name_len(text);
    let (word, _) = text.split_at(len);
    Taken {
        class: word_class(word),
        len,
    }
}

/// An operator, unless it is a run of dashes.
pub fn symbols_at(text: &[char]) -> Option<Taken>
    ensures value { result ≡ symbols_at text.now }
    ensures within { IfSome result (λ taken. taken.len ≤ length text.now) }
    ensures some { begins is_symbol text.now ≡ true → IfSome result (λ taken. 0 < taken.len) }
{
    let len = symbols_len(text);
    let (run, _) = text.split_at(len);
    if is_dashes(run) {
        return None;
    }
    Some(Taken {
        class: run_class(run),
        len,
    })
}

/// A constructor, or a qualified name, unless its last part is a reserved word.
pub fn conid_at(text: &[char]) -> Option<Taken>
    ensures value { result ≡ conid_at text.now }
    ensures within { IfSome result (λ taken. taken.len ≤ length text.now) }
    ensures some { begins is_in_name text.now ≡ true → IfSome result (λ taken. 0 < taken.len) }
{
    let len = name_len(text);
    let (_, rest) = text.split_at(len);
    with_qualifier(len, behind_dot(rest))
}

/// A conid of `len` characters, and the name behind its dot.
fn with_qualifier(len: usize, name: Option<Taken>) -> Option<Taken>
    requires { IfSome name (λ taken. len + 1 + taken.len < 2 ^ 64) }
    ensures value { result ≡ with_qualifier len name }
    ensures some { IfSome result (λ taken. len ≤ taken.len) }
    ensures within { IfSome result (λ taken. IfSome name (λ more. taken.len ≤ len + 1 + more.len)) }
{
    let conid = Taken {
        class: Class::ConId,
        len,
    };
    let Some(name) = name else { return Some(conid) };
    let class = match name.class {
        Class::VarId => Class::QVarId,
        Class::ConId => Class::QConId,
        Class::VarSym => Class::QVarSym,
        Class::ConSym => Class::QConSym,
        Class::ReservedId => return None,
        _ => return Some(conid),
    };
    Some(Taken {
        class,
        len: len + 1 + name.len,
    })
}

/// The name behind a dot.
fn behind_dot(text: &[char]) -> Option<Taken>
    ensures value { result ≡ behind_dot text.now }
    ensures within { IfSome result (λ taken. taken.len < length text.now) }
{
    match text {
        ['.', name @ ..] => name_at(name),
        _ => None,
    }
}

/// A name without a qualifier.
fn name_at(text: &[char]) -> Option<Taken>
    ensures value { result ≡ name_at text.now }
    ensures within { IfSome result (λ taken. taken.len ≤ length text.now) }
{
    let first = *text.first()?;
    match kind_of(first) {
        Kind::Small => Some(word_at(text)),
        Kind::Large => Some(Taken {
            class: Class::ConId,
            len: name_len(text),
        }),
        Kind::Symbol => symbols_at(text),
        _ => None,
    }
}

/// How many characters of names the text begins with.
fn name_len(text: &[char]) -> usize
    ensures value { result ≡ prefix_len is_in_name text.now }
    ensures within { result ≤ length text.now }
    ensures some { begins is_in_name text.now ≡ true → 0 < result }
{
    text.iter().take_while(|c| is_in_name(**c)).count()
}

/// How many symbols the text begins with.
fn symbols_len(text: &[char]) -> usize
    ensures value { result ≡ prefix_len is_symbol text.now }
    ensures within { result ≤ length text.now }
    ensures some { begins is_symbol text.now ≡ true → 0 < result }
{
    text.iter().take_while(|c| is_symbol(**c)).count()
}

/// Whether the text is two dashes or more.
fn is_dashes(run: &[char]) -> bool
    ensures { result ≡ is_dashes run.now }
{
    run.len() > 1 && are_dashes(run)
}

/// Whether each character is a dash.
fn are_dashes(run: &[char]) -> bool
    ensures { result ≡ list_all is_dash run.now }
{
    for c in run {
        if *c != '-' {
            return false;
        }
    }
    true
}

/// The class of a word that begins with a small letter.
fn word_class(word: &[char]) -> Class
    ensures { result ≡ word_class word.now }
{
    if is_reserved_word(word) {
        Class::ReservedId
    } else {
        Class::VarId
    }
}

/// The class of an operator.
fn run_class(run: &[char]) -> Class
    ensures { result ≡ run_class run.now }
{
    if is_reserved_operator(run) {
        return Class::ReservedOp;
    }
    match run {
        [':', ..] => Class::ConSym,
        _ => Class::VarSym,
    }
}
