//! What the clauses of connections exclude.

ghost use Rattle.std.specs.Prelude.{◌≡◌, ◌++◌, ◌∷◌, [], ℕ, List, Some};
ghost use Rattle.wires.specs.Wires.{WireEvent, Adds, came, sent};

/// Of a connection of which all is known a clause allows just one list. So what wrong bodies would
/// have to show is false: where half of two bytes is sent and both are told; where a byte that came
/// is told as another; where bytes go to the connection of another port, too, which has to be the
/// same; where the own door let nobody in.
pub fn wrong_bodies_are_refused()
    ensures exact { (h xs ys : List WireEvent) → Adds (Some h) (Some (h ++ xs)) ys → xs ≡ ys }
    ensures half { Adds (Some []) (Some (sent (65 ∷ []) ∷ [])) (sent (65 ∷ 66 ∷ []) ∷ []) → ⊥ }
    ensures altered { Adds (Some []) (Some (came (1 ∷ []) ∷ [])) (came (0 ∷ []) ∷ []) → ⊥ }
    ensures told { (h : List WireEvent) (b : List ℕ) → h ++ sent b ∷ [] ≡ h → ⊥ }
    ensures elsewhere { (given : List (List WireEvent)) (w : List WireEvent)
        → Adds (Some given) (Some given) (w ∷ []) → ⊥ }
{}
