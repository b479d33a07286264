use hr_base::Seq;
use hr_fixity::Graded;
use hr_tables::Bindings;
use hr_tree::Module;
use hr_typing_code::ModuleRules;

/// What is known of a project before it is typed: its modules, their numbers in an order in which each stands behind
/// those that it imports, the rules that each calls for, what its names are bound to, and the graded trees of its infix
/// sequences.
#[derive(Clone, Copy)]
pub struct Resolved<'a> {
    pub modules: &'a [Module],
    pub order: &'a [usize],
    pub rules: &'a [ModuleRules],
    pub bindings: &'a Bindings,
    pub graded: &'a [Seq<Graded>],
}
