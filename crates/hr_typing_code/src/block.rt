use hr_base::Text;
use hr_typing_walk::{Rule, Signed};
use std::alloc::{AllocError, Global};

/// A definition: the lexemes that bind its names first, its rules, and its first lexeme. A function has the text of its
/// name and the number of its patterns.
#[derive(Drop)]
pub struct Definition {
    pub names: Vec<usize>,
    pub function: Option<(Text, usize)>,
    pub rules: Vec<Rule>,
    pub first: usize,
}

/// The definitions of a block in text order, and its signatures.
#[derive(Drop)]
pub struct Block {
    pub definitions: Vec<Definition>,
    pub signed: Vec<Signed>,
}

/// What a definition defines.
#[derive(Drop)]
pub enum Left {
    /// A function: its lexeme here, and its text.
    Function(usize, Text),
    /// The lexemes of a pattern's variables.
    Pattern(Vec<usize>),
}

/// What stands on the left of a definition: what it defines, the number of its patterns, and its first lexeme.
#[derive(Drop)]
pub struct Defined {
    pub left: Left,
    pub count: usize,
    pub first: usize,
}

impl Block {
    pub fn new(alloc: Global) -> Block {
        Block {
            definitions: Vec::new(alloc),
            signed: Vec::new(alloc),
        }
    }

    /// Adds a name with a signature.
    pub fn sign(&mut self, name: usize, colons: usize) -> Result<(), AllocError> {
        self.signed.push(Signed { name, colons })?;
        Ok(())
    }

    /// Adds a definition. An equation goes to the definition before it where that is of the same name.
    pub fn define(
        &mut self,
        alloc: Global,
        defined: Defined,
        rules: Vec<Rule>,
    ) -> Result<(), AllocError> {
        let Defined { left, count, first } = defined;
        match left {
            Left::Pattern(names) => self.bind(names, first, rules),
            Left::Function(name, text) => {
                if self.goes_on(&text) {
                    return self.add_equation(count, rules);
                }
                self.begin_function(alloc, name, text, count, first, rules)
            }
        }
    }

    fn bind(
        &mut self,
        names: Vec<usize>,
        first: usize,
        rules: Vec<Rule>,
    ) -> Result<(), AllocError> {
        let mut rules = rules;
        rules.push(Rule::Binding)?;
        self.definitions.push(Definition {
            names,
            function: None,
            rules,
            first,
        })?;
        Ok(())
    }

    fn begin_function(
        &mut self,
        alloc: Global,
        name: usize,
        text: Text,
        count: usize,
        first: usize,
        rules: Vec<Rule>,
    ) -> Result<(), AllocError> {
        let mut rules = rules;
        rules.push(Rule::Equation(name, count))?;
        let mut names = Vec::new(alloc);
        names.push(name)?;
        self.definitions.push(Definition {
            names,
            function: Some((text, count)),
            rules,
            first,
        })?;
        Ok(())
    }

    /// Whether an equation of this name goes on with the last definition.
    fn goes_on(&self, text: &Text) -> bool {
        match self.definitions.last() {
            Some(last) => match &last.function {
                Some((name, _)) => name.is(text.as_slice()),
                None => false,
            },
            None => false,
        }
    }

    /// A further equation of the last definition. There is no type where it has another number of patterns.
    fn add_equation(&mut self, count: usize, rules: Vec<Rule>) -> Result<(), AllocError> {
        let mut rules = rules;
        let Some(last) = self.definitions.last_mut() else {
            return Ok(());
        };
        let name = last.names.first().copied().unwrap_or(0);
        if pattern_count(last) != count {
            rules.push(Rule::Refuse)?;
        }
        rules.push(Rule::Equation(name, count))?;
        last.rules.append(&mut rules)
    }
}

/// The number of patterns of a function.
fn pattern_count(definition: &Definition) -> usize {
    match &definition.function {
        Some((_, count)) => *count,
        None => 0,
    }
}
