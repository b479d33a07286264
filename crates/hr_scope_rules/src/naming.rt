use hr_base::Space;

/// How a lexeme stands where it stands in a tree. Its role follows from this, from its class, and from the constructs
/// that are open.
#[derive(Clone, Copy, Debug, PartialEq, Eq)]
pub enum Naming {
    Plain,
    /// Named by an expression or a pattern.
    Used,
    /// Named by a type.
    Type,
    /// A variable of a pattern.
    Bound,
    /// The variable of an equation, which goes on the declaration before it or does not.
    Defined(bool),
    Signed,
    Fixed,
    /// A constructor that a type's declaration gives.
    Constructed,
    /// The name that a type's declaration gives.
    Headed,
    Parameter,
    Exported(Space),
    ExportedPart,
    /// A variable of an import list.
    Imported,
    /// A type of an import list.
    ImportedType,
    ImportedPart,
    Hidden,
}
