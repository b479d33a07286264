//! Which equation goes on the declaration before it.
ghost use Rattle.std.specs.Prelude.{◌≡◌};
ghost use Rattle.std.specs.Option.{option_copied};
ghost use Rattle.hr_scope_rules.specs.Outline.{declared_of, goes_on, head_text};

use hr_base::Text;
use hr_tree::{Decl, LeftHead, Operator, Variable};

/// The variable that an equation defines.
fn head_text(head: &LeftHead) -> &Text
    ensures { result.now ≡ head_text head.now }
{
    match head {
        LeftHead::Prefix(Variable::Name(name), _) => &name.lexeme.text,
        LeftHead::Prefix(Variable::Symbol(_, symbol, _), _) => &symbol.lexeme.text,
        LeftHead::Infix(_, Operator::Symbol(symbol), _) => &symbol.lexeme.text,
        LeftHead::Infix(_, Operator::Quoted(_, name, _), _) => &name.lexeme.text,
    }
}

/// The variable that an equation with patterns defines, if the declaration is one.
#[tactic(auto, using(crate::proofs::ExpressionEvents::decl_named))]
pub(crate) fn defined(decl: &Decl) -> Option<&Text>
    ensures { option_copied result ≡ (declared_of decl.now).equation }
{
    match decl {
        Decl::Equation(left, _, _) => Some(head_text(&left.head)),
        Decl::Import(_) => None,
        Decl::Synonym(..) => None,
        Decl::Data(..) => None,
        Decl::Newtype(..) => None,
        Decl::Signature(..) => None,
        Decl::Fixity(..) => None,
        Decl::Binding(..) => None,
    }
}

/// Whether the declaration is an equation that goes on the one before it.
pub(crate) fn goes_on(before: Option<&Text>, decl: &Decl) -> bool
    ensures { result ≡ goes_on (option_copied before.entry) (declared_of decl.now).equation }
{
    match (before, defined(decl)) {
        (Some(before), Some(now)) => before.as_slice() == now.as_slice(),
        (Some(_), None) => false,
        (None, _) => false,
    }
}
