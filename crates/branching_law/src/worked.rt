//! Worked programs, and the certificates that are found of them.

ghost use Rattle.std.specs.Prelude.{ℕ, pos, [], ◌∷◌};
ghost use Rattle.certificate_law.specs.declared.Node.TheVariants.{Branch, Bound, Farkas, Cross};
ghost use Rattle.certificate_law.specs.declared.Certificate.TheVariants.{Optimal, Infeasible, Unbounded};
ghost use Rattle.quad_solve_law.specs.Worked.{n, minus, over, slope};
ghost use Rattle.branching_law.specs.Paths.{above};
ghost use Rattle.branching_law.specs.Rounding.{IsRounding};
ghost use Rattle.branching_law.specs.Found.{Convex, IsFoundOf};
ghost use Rattle.branching_law.specs.Worked.{narrow, odd, bowl, bowl_squares, tilted, sliding};

/// A whole column between 1/5 and 4/5: rounding goes above 0, where the region is crossed. So the certificate has the branch at 0 with
/// a crossed leaf on either side. With 2x = 1 and x whole the point of the root is 1/2, and the row leaves neither side a point; a
/// budget of one strict step is enough. The bowl x^2 - x + 1/4 is least at 1/2, and both whole numbers beside it have the value 1/4;
/// the first one is the certificate's point. Where y falls without end and 2x = 1 with x whole, a search for a point finds none;
/// where x is free in 0 to 1 it finds one at once. A program without marks that falls needs no search.
pub fn worked_programs_have_their_certificates()
    ensures rounding { IsRounding narrow (above 0 (pos 0) ∷ []) }
    ensures narrow { (bases boxes : ℕ) →
        IsFoundOf narrow (Convex []) bases boxes (Infeasible (Branch 0 (pos 0) ∷ Cross 0 ∷ Cross 0 ∷ [])) }
    ensures odd { IsFoundOf odd (Convex []) 1 1 (Infeasible (Branch 0 (pos 0) ∷ Farkas (n 1 ∷ []) ∷ Farkas (minus 1 ∷ []) ∷ [])) }
    ensures bowl { IsFoundOf bowl (Convex bowl_squares) 2 1 (Optimal (n 0 ∷ []) (over 1 4) bowl_squares
        (Branch 0 (pos 0) ∷ Bound (n 0 ∷ []) [] ∷ Bound (n 1 ∷ []) [] ∷ [])) }
    ensures tilted { IsFoundOf tilted (Convex []) 2 1 (Infeasible (Branch 0 (pos 0) ∷ Farkas (n 1 ∷ []) ∷ Farkas (minus 1 ∷ []) ∷ [])) }
    ensures sliding { IsFoundOf sliding (Convex []) 2 1 (Unbounded (n 1 ∷ n 0 ∷ []) (n 0 ∷ n 1 ∷ []) []) }
    ensures slope { IsFoundOf slope (Convex []) 1 1 (Unbounded (n 0 ∷ []) (n 1 ∷ []) []) }
{}
