use hr_base::Binder;

/// What a lexeme is bound to, also where the project is refused.
#[derive(Debug, Drop)]
pub enum Found {
    /// It is no name, or one that is bound to nothing by its role.
    NoName,
    /// A name that stands for nothing.
    Nothing,
    One(Binder),
    /// A name that stands for two things or more: the first two of them.
    Several { first: Binder, second: Binder },
}
