/// How many variables, constructors and arrows one type may have, synonyms expanded. Beyond it the answer is want of
/// memory.
pub const TYPE_LIMIT: u64 = 1 << 17;

/// How many all types of a project's declarations may have together.
pub const DECLARED_LIMIT: u64 = 1 << 23;

/// How many are made for one top-level group, at most: instances, and the types that variables are bound to.
pub const GROUP_LIMIT: u64 = 1 << 24;
