//! The rules, one after another.
use crate::context::Sign;
use crate::error::{Halt, lost};
use crate::machine::{Known, Machine};
use crate::sequences::Kind;
use hr_type::Mono;
use hr_typing_walk::{Rule, Signed};

impl Machine<'_> {
    pub fn run(&mut self, rules: &[Rule]) -> Result<(), Halt> {
        for rule in rules {
            self.rule(rule)?;
        }
        Ok(())
    }

    fn rule(&mut self, rule: &Rule) -> Result<(), Halt> {
        match rule {
            Rule::Use(used) => {
                let ty = self.used(*used)?;
                self.put(ty)
            }
            Rule::Literal(literal) => {
                let ty = self.literal(*literal)?;
                self.put(ty)
            }
            Rule::Variable(lexeme) => self.variable(*lexeme),
            Rule::Any => self.put_fresh(),
            Rule::Apply(count) => self.apply(*count),
            Rule::Construct(count) => self.construct(*count),
            Rule::Sequence(count, operators) => {
                self.sequence(*count, operators.as_slice(), Kind::Expressions)
            }
            Rule::PatternSequence(count, operators) => {
                self.sequence(*count, operators.as_slice(), Kind::Patterns)
            }
            Rule::Tuple(count) => self.tuple(*count),
            Rule::List(count) => self.list(*count),
            Rule::Numbers(count) => self.numbers(*count),
            Rule::LeftSection => self.left_section(),
            Rule::RightSection => self.right_section(),
            Rule::Lambda(count) => {
                let ty = self.take_function(*count)?;
                self.put(ty)
            }
            Rule::Test => self.test(),
            Rule::Same => self.same(),
            Rule::Case => self.put_fresh(),
            Rule::Alternative => self.alternative(),
            Rule::EndCase => self.end_case(),
            Rule::Generator => self.generator(),
            Rule::Equation(name, count) => self.equation(*name, *count),
            Rule::Binding => self.binding(),
            Rule::Sign(signed) => self.note_sign(*signed),
            Rule::Open(names) => self.open(names.as_slice()),
            Rule::Close => self.close(),
            Rule::OpenAnnotated => self.open_annotated(),
            Rule::Annotated(colons) => self.annotated(*colons),
            Rule::Refuse => Err(Halt::Refused),
        }
    }

    /// The variable that a lexeme of a pattern binds: that of a definition, or a new one.
    fn variable(&mut self, lexeme: usize) -> Result<(), Halt> {
        let Some(binder) = self.context.binder(lexeme) else {
            return lost();
        };
        if let Some(variable) = self.own.get(binder).copied() {
            return self.put(Mono::Var(variable));
        }
        let variable = self.fresh()?;
        self.set_known(binder, Known::One(variable))?;
        self.put(Mono::Var(variable))
    }

    fn tuple(&mut self, count: usize) -> Result<(), Halt> {
        let parts = self.take_last(count)?;
        let ty = self.context.entities.tuple_of(self.alloc, parts)?;
        self.put(ty)
    }

    fn list(&mut self, count: usize) -> Result<(), Halt> {
        let element = self.fresh()?;
        let elements = self.take_last(count)?;
        for ty in elements.as_slice() {
            self.unify(&Mono::Var(element), ty)?;
        }
        let ty = self
            .context
            .entities
            .list_of(self.alloc, Mono::Var(element))?;
        self.put(ty)
    }

    fn numbers(&mut self, count: usize) -> Result<(), Halt> {
        for _ in 0..count {
            let number = self.context.entities.number(self.alloc)?;
            let ty = self.take()?;
            self.unify(&ty, &number)?;
        }
        let number = self.context.entities.number(self.alloc)?;
        let ty = self.context.entities.list_of(self.alloc, number)?;
        self.put(ty)
    }

    fn test(&mut self) -> Result<(), Halt> {
        let ty = self.take()?;
        let test = self.context.entities.test(self.alloc)?;
        self.unify(&ty, &test)
    }

    fn same(&mut self) -> Result<(), Halt> {
        let second = self.take()?;
        let first = self.take()?;
        self.unify(&first, &second)?;
        self.put(first)
    }

    fn alternative(&mut self) -> Result<(), Halt> {
        let body = self.take()?;
        let pattern = self.take()?;
        let given = self.take()?;
        let looked = self.take()?;
        self.unify(&looked, &pattern)?;
        self.unify(&given, &body)?;
        self.put(looked)?;
        self.put(given)
    }

    fn end_case(&mut self) -> Result<(), Halt> {
        let given = self.take()?;
        let _looked = self.take()?;
        self.put(given)
    }

    fn generator(&mut self) -> Result<(), Halt> {
        let over = self.take()?;
        let pattern = self.take()?;
        let list = self.context.entities.list_of(self.alloc, pattern)?;
        self.unify(&over, &list)
    }

    fn equation(&mut self, name: usize, count: usize) -> Result<(), Halt> {
        let ty = self.take_function(count)?;
        let Some(binder) = self.context.binder(name) else {
            return lost();
        };
        match self.own.get(binder).copied() {
            Some(variable) => self.unify(&Mono::Var(variable), &ty),
            None => lost(),
        }
    }

    fn binding(&mut self) -> Result<(), Halt> {
        let body = self.take()?;
        let pattern = self.take()?;
        self.unify(&pattern, &body)
    }

    /// A local name has a signature.
    fn note_sign(&mut self, signed: Signed) -> Result<(), Halt> {
        let Some(binder) = self.context.binder(signed.name) else {
            return Ok(());
        };
        let Some(number) = self.context.number(signed.colons) else {
            return lost();
        };
        let sign = Sign {
            lexeme: signed.name,
            number,
        };
        self.set_sign(binder, sign)?;
        self.set_known(binder, Known::Signed(number))?;
        Ok(())
    }
}
