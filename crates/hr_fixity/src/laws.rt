ghost use Rattle.std.specs.Prelude.{◌≡◌};
ghost use Rattle.hr_fixity.specs.Resolved.{IsResolved};
ghost use Rattle.hr_fixity.specs.declared.sequence.Infix.{Infix};
ghost use Rattle.hr_fixity.specs.declared.tree.Graded.{Graded};

/// A law of the definitions alone: a sequence has one tree at most.
pub fn one_tree()
    ensures { (seq : Infix) (t u : Graded) → IsResolved seq t → IsResolved seq u → t ≡ u }
{}
