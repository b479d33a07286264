use hr_base::{Place, Text};

/// What a command looks for and doesn't find: at the command's position, or by the command's words, the first module
/// that the project lacks, or the missing thing's name.
#[derive(Debug, Drop, PartialEq, Eq)]
pub enum Sought {
    At(Place),
    Name(Text),
}
