//! What follows from the definitions alone. Each law is the clause of a function that does nothing.
ghost use Rattle.std.specs.Prelude.{◌≡◌, ℕ, List, Contains};
ghost use Rattle.hr_graph.specs.Graph.{AreComponents, IsOrder, Mutual};

/// Each graph has one order at most.
pub fn order_is_unique()
    ensures { (nodes : ℕ) (edges : List (ℕ × ℕ)) (order other : List ℕ) → IsOrder nodes edges order → IsOrder nodes edges other → order ≡ other }
{}

/// Each graph has one list of components at most.
pub fn components_are_unique()
    ensures { (nodes : ℕ) (edges : List (ℕ × ℕ)) (components other : List (List ℕ)) → AreComponents nodes edges components → AreComponents nodes edges other → components ≡ other }
{}

/// Two nodes of one component reach each other, and a node that is reached from one and reaches it
/// lies in its component.
pub fn components_are_strong()
    ensures together { (nodes : ℕ) (edges : List (ℕ × ℕ)) (components : List (List ℕ)) (component : List ℕ) (u v : ℕ) → AreComponents nodes edges components → Contains components component → Contains component u → Contains component v → Mutual edges u v }
    ensures whole { (nodes : ℕ) (edges : List (ℕ × ℕ)) (components : List (List ℕ)) (component : List ℕ) (u v : ℕ) → AreComponents nodes edges components → Contains components component → Contains component u → Mutual edges u v → Contains component v }
{}
