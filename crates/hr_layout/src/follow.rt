//! The table of what can follow.
ghost use Rattle.std.specs.Prelude.{◌≡◌};
ghost use Rattle.hr_rules.specs.CanFollow.{begins_atom, begins_part, begins_some_part, can_follow, follows, goes_on_infix, goes_on_part, goes_on_type, has_declarations, is_body, is_comma, is_semicolon};

use hr_base::{Ending, Lexeme};
use hr_rules::{BlockKind, Role, role_of};

/// Whether the lexeme can follow a part of a block that ends so.
#[tactic(auto, unfolding(hr_rules::specs::CanFollow::can_follow))]
pub fn can_follow(ending: Ending, lexeme: &Lexeme) -> bool
    ensures { result ≡ can_follow ending lexeme.now }
{
    let role = role_of(lexeme);
    is_semicolon(role) || follows(ending, role)
}

/// Whether a lexeme of the role can begin a part of a block of the kind.
pub(crate) fn begins_part(kind: BlockKind, role: Role) -> bool
    ensures { result ≡ begins_part kind role }
{
    match role {
        Role::Name => true,
        Role::Literal => true,
        Role::OpenBracket => true,
        Role::Wildcard => true,
        Role::Tilde => true,
        Role::Minus => true,
        Role::Semicolon => true,
        Role::FixityWord => has_declarations(kind),
        Role::TopWord => is_body(kind),
        _ => false,
    }
}

/// Whether a lexeme of the role can follow, beside `;`, a part that ends so.
fn follows(ending: Ending, role: Role) -> bool
    ensures { result ≡ follows ending role }
{
    match ending {
        Ending::Nothing => begins_some_part(role),
        Ending::Applied {
            where_free,
            guarded,
        } => begins_atom(role) || goes_on_infix(role) || goes_on_part(where_free, guarded, role),
        Ending::Closed {
            where_free,
            guarded,
        } => goes_on_infix(role) || goes_on_part(where_free, guarded, role),
        Ending::Annotated {
            where_free,
            guarded,
        } => goes_on_type(role) || goes_on_part(where_free, guarded, role),
        Ending::Signature => goes_on_type(role),
        Ending::WhereBlock => false,
        Ending::Fixity => is_comma(role),
    }
}

/// Whether a lexeme of the role can begin a part of some kind of block.
fn begins_some_part(role: Role) -> bool
    ensures { result ≡ begins_some_part role }
{
    begins_part(BlockKind::Body, role)
        || begins_part(BlockKind::Declarations, role)
        || begins_part(BlockKind::Alternatives, role)
}

/// An atom begins with a name, a literal or an open bracket.
fn begins_atom(role: Role) -> bool
    ensures { result ≡ begins_atom role }
{
    matches!(role, Role::Name | Role::Literal | Role::OpenBracket)
}

/// An operator, perhaps in backquotes, or `::`.
fn goes_on_infix(role: Role) -> bool
    ensures { result ≡ goes_on_infix role }
{
    matches!(
        role,
        Role::Minus | Role::Operator | Role::Backquote | Role::DoubleColon
    )
}

/// An atomic type, which begins with a name or an open bracket, or `->`.
fn goes_on_type(role: Role) -> bool
    ensures { result ≡ goes_on_type role }
{
    matches!(role, Role::Name | Role::OpenBracket | Role::Arrow)
}

/// `where` if the part has none yet, and `|` if it is guarded.
fn goes_on_part(where_free: bool, guarded: bool, role: Role) -> bool
    ensures { result ≡ goes_on_part where_free guarded role }
{
    match role {
        Role::Where => where_free,
        Role::Bar => guarded,
        _ => false,
    }
}

fn is_comma(role: Role) -> bool
    ensures { result ≡ is_comma role }
{
    matches!(role, Role::Comma)
}

fn is_semicolon(role: Role) -> bool
    ensures { result ≡ is_semicolon role }
{
    matches!(role, Role::Semicolon)
}

/// Whether the parts of a block of the kind are declarations.
fn has_declarations(kind: BlockKind) -> bool
    ensures { result ≡ has_declarations kind }
{
    match kind {
        BlockKind::Body => true,
        BlockKind::Declarations => true,
        BlockKind::Alternatives => false,
    }
}

fn is_body(kind: BlockKind) -> bool
    ensures { result ≡ is_body kind }
{
    matches!(kind, BlockKind::Body)
}
