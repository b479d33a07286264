use hr_base::Class;

/// What is read where a lexeme begins: its class and how many characters it has.
#[derive(Clone, Copy, Debug, PartialEq, Eq)]
pub struct Taken {
    pub class: Class,
    pub len: usize,
}
