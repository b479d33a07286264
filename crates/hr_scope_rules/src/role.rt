use hr_base::Space;

/// What a lexeme is to the rules of scopes. Numbers are those of lexemes of the same module, from 0.
#[derive(Clone, Copy, Debug, PartialEq, Eq)]
pub enum Role {
    /// No name, or a name that is bound to nothing: of a module, of a type variable.
    Plain,
    /// Names something from an expression, a pattern or a type.
    Uses(Space),
    /// Declares a name in its region.
    Declares(Space),
    /// The variable of an equation that goes on the declaration before it.
    GoesOn,
    /// A variable of a signature.
    Signs,
    /// An operator of a fixity declaration.
    Fixes(Space),
    /// A type variable that a type's declaration binds.
    Parameter,
    /// Named by an export item.
    Exported(Space),
    /// A constructor that an export item names with its type, which is the lexeme of that number.
    ExportedPart(usize),
    /// Named by an import list; the number is that of the lexeme that names the module.
    Imported(usize, Space),
    /// A constructor that an import list names with its type: the module's lexeme and the type's.
    ImportedPart(usize, usize),
    /// Named by a hiding list; the number is that of the lexeme that names the module.
    Hidden(usize),
}
