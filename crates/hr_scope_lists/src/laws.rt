//! Each law is the clause of a function that does nothing.
ghost use Rattle.hr_scope_lists.specs.Agree.{BindersAgree, CandidatesAgree, DoublesAgree, ExportsAgree, ScopesAgree};

/// The list of what a module exports has what it exports, and nothing else.
pub fn exports_agree()
    ensures { ExportsAgree }
{}

/// The list of what is in scope in a module has what is, and nothing else.
pub fn scopes_agree()
    ensures { ScopesAgree }
{}

/// The list of the binders that a lexeme may have has those that it may have, and nothing else.
pub fn candidates_agree()
    ensures { CandidatesAgree }
{}

/// The binder that is computed for a lexeme is what it is bound to, and none is where it is bound to none.
pub fn binders_agree()
    ensures { BindersAgree }
{}

/// The double declaration that is computed for a module is its first one, and none is where it has none.
pub fn doubles_agree()
    ensures { DoublesAgree }
{}
