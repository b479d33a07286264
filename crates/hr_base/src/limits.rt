/// The bytes of one module, at most.
pub const MODULE_LIMIT: usize = 1_048_576;
