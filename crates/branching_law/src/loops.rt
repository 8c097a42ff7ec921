//! One turn of a search's loop: each law takes the next path that waits, and says what stands afterwards.

ghost use Rattle.std.specs.Prelude.{◌≡◌, ◌+◌, ◌<◌, ◌≤◌, ℕ, ℤ, List, [], ◌∷◌, ◌++◌, length, Option, Some, None};
ghost use Rattle.rational.specs.Rational.{ℚ};
ghost use Rattle.rational.specs.Order.{◌≤ℚ◌};
ghost use Rattle.rational.specs.Vectors.{IsSemidefinite};
ghost use Rattle.program_law.specs.declared.Square.{Square};
ghost use Rattle.program_law.specs.Region.{IsCrossedAt, IsCrossedRegion};
ghost use Rattle.program_law.specs.Program.{Program, bounds, marks};
ghost use Rattle.program_law.specs.Columns.{AreWholeOn, value};
ghost use Rattle.certificate_law.specs.declared.Node.{Node};
ghost use Rattle.certificate_law.specs.declared.Node.TheVariants.{Branch, Bound, Farkas, Cross};
ghost use Rattle.certificate_law.specs.declared.Certificate.TheVariants.{Unbounded};
ghost use Rattle.quad_solve_law.specs.Answer.{IsFound, IsEmpty, IsBest, IsFalling};
ghost use Rattle.quad_solve_law.specs.Sites.{RegionSite, IsReached};
ghost use Rattle.branching_law.specs.declared.Turn.{Turn};
ghost use Rattle.branching_law.specs.Paths.{region_of, below, above, IsFirst};
ghost use Rattle.branching_law.specs.Rounding.{IsMarked, IsRounding, under_rounding};
ghost use Rattle.branching_law.specs.Nodes.{Search, ForBest, ForPoint, IsBranch};
ghost use Rattle.branching_law.specs.Search.{IsSpentTree, branches};
ghost use Rattle.branching_law.specs.Searching.{IsSearching, IsBelowIncumbent};
ghost use Rattle.branching_law.specs.Found.{Convex, decided, IsFoundOf};
ghost use Rattle.branching_law.specs.Reached.{IsReachedPath, IsReachedSite, IsAsked};

/// Where no vector has a negative form, a search begins at the root: for the best wherever rounding has ended, and for a point where a
/// column is marked and the root's answer is a ray.
pub fn searches_begin()
    ensures best { (p : Program) (bases boxes : ℕ) (turns : List Turn) → IsSemidefinite (length p.columns) p.pairs → IsRounding p turns →
        IsSearching ForBest p bases boxes turns [] (turns ∷ []) None }
    ensures point { (p : Program) (bases boxes : ℕ) (turns : List Turn) (x d : List ℚ) → IsSemidefinite (length p.columns) p.pairs →
        IsRounding p turns → IsMarked p → (IsCrossedRegion (region_of p turns) → ⊥) → IsFalling p (region_of p turns) bases x d →
        IsSearching ForPoint p bases boxes turns [] (turns ∷ []) None }
{}

/// The next node is closed: its region is crossed, or has no point; or, in a search for the best, its least value isn't below the
/// incumbent's, or is, at a point that keeps the marks, which then is the incumbent.
pub fn nodes_are_closed()
    ensures crossed { (aim : Search) (p : Program) (bases boxes : ℕ) (turns : List Turn) (nodes : List Node) (path : List Turn)
        (rest : List (List Turn)) (incumbent : Option (List ℚ)) (j : ℕ) →
        IsSearching aim p bases boxes turns nodes (path ∷ rest) incumbent → IsFirst (IsCrossedAt (region_of p path)) j →
        IsSearching aim p bases boxes turns (nodes ++ Cross j ∷ []) rest incumbent }
    ensures empty { (aim : Search) (p : Program) (bases boxes : ℕ) (turns : List Turn) (nodes : List Node) (path : List Turn)
        (rest : List (List Turn)) (incumbent : Option (List ℚ)) (y : List ℚ) →
        IsSearching aim p bases boxes turns nodes (path ∷ rest) incumbent → (IsCrossedRegion (region_of p path) → ⊥) →
        IsEmpty p (region_of p path) bases y →
        IsSearching aim p bases boxes turns (nodes ++ Farkas y ∷ []) rest incumbent }
    ensures not_below { (p : Program) (bases boxes : ℕ) (turns : List Turn) (nodes : List Node) (path : List Turn)
        (rest : List (List Turn)) (incumbent x : List ℚ) (v : ℚ) (y : List ℚ) →
        IsSearching ForBest p bases boxes turns nodes (path ∷ rest) (Some incumbent) → (IsCrossedRegion (region_of p path) → ⊥) →
        IsBest p (region_of p path) bases x v y → value p incumbent ≤ℚ v →
        IsSearching ForBest p bases boxes turns (nodes ++ Bound x y ∷ []) rest (Some incumbent) }
    ensures better { (p : Program) (bases boxes : ℕ) (turns : List Turn) (nodes : List Node) (path : List Turn)
        (rest : List (List Turn)) (incumbent : Option (List ℚ)) (x : List ℚ) (v : ℚ) (y : List ℚ) →
        IsSearching ForBest p bases boxes turns nodes (path ∷ rest) incumbent → (IsCrossedRegion (region_of p path) → ⊥) →
        IsBest p (region_of p path) bases x v y → IsBelowIncumbent p v incumbent → AreWholeOn (marks p) x →
        IsSearching ForBest p bases boxes turns (nodes ++ Bound x y ∷ []) rest (Some x) }
{}

/// The next node is branched at its point, while the budget of branches lasts; its two paths wait in its place. Where the budget is
/// used up, there is an earned tree with one branch more.
pub fn nodes_are_branched()
    ensures best { (p : Program) (bases boxes : ℕ) (turns : List Turn) (nodes : List Node) (path : List Turn) (rest : List (List Turn))
        (incumbent : Option (List ℚ)) (x : List ℚ) (v : ℚ) (y : List ℚ) (j : ℕ) (k : ℤ) →
        IsSearching ForBest p bases boxes turns nodes (path ∷ rest) incumbent → branches nodes < boxes →
        (IsCrossedRegion (region_of p path) → ⊥) → IsBest p (region_of p path) bases x v y → IsBelowIncumbent p v incumbent →
        IsBranch p x j k →
        IsSearching ForBest p bases boxes turns (nodes ++ Branch j k ∷ [])
        ((path ++ below j k ∷ []) ∷ (path ++ above j k ∷ []) ∷ rest) incumbent }
    ensures point { (p : Program) (bases boxes : ℕ) (turns : List Turn) (nodes : List Node) (path : List Turn) (rest : List (List Turn))
        (incumbent : Option (List ℚ)) (x : List ℚ) (j : ℕ) (k : ℤ) →
        IsSearching ForPoint p bases boxes turns nodes (path ∷ rest) incumbent → branches nodes < boxes →
        (IsCrossedRegion (region_of p path) → ⊥) → IsFound p (region_of p path) bases x → IsBranch p x j k →
        IsSearching ForPoint p bases boxes turns (nodes ++ Branch j k ∷ [])
        ((path ++ below j k ∷ []) ∷ (path ++ above j k ∷ []) ∷ rest) incumbent }
    ensures best_spent { (p : Program) (bases boxes : ℕ) (turns : List Turn) (nodes : List Node) (path : List Turn)
        (rest : List (List Turn)) (incumbent : Option (List ℚ)) (x : List ℚ) (v : ℚ) (y : List ℚ) (j : ℕ) (k : ℤ) →
        IsSearching ForBest p bases boxes turns nodes (path ∷ rest) incumbent → branches nodes ≡ boxes →
        (IsCrossedRegion (region_of p path) → ⊥) → IsBest p (region_of p path) bases x v y → IsBelowIncumbent p v incumbent →
        IsBranch p x j k → IsSpentTree p bases boxes }
    ensures point_spent { (p : Program) (bases boxes : ℕ) (turns : List Turn) (nodes : List Node) (path : List Turn)
        (rest : List (List Turn)) (incumbent : Option (List ℚ)) (x : List ℚ) (j : ℕ) (k : ℤ) →
        IsSearching ForPoint p bases boxes turns nodes (path ∷ rest) incumbent → branches nodes ≡ boxes →
        (IsCrossedRegion (region_of p path) → ⊥) → IsFound p (region_of p path) bases x → IsBranch p x j k → IsSpentTree p bases boxes }
{}

/// A certificate is found where no path of a search waits: with the incumbent, or without one. In a search for a point it is found at
/// a point that keeps the marks. Where no column is marked and the answer of the bounds is a ray, it is found without a search.
pub fn searches_end()
    ensures decided { (aim : Search) (p : Program) (bases boxes : ℕ) (turns : List Turn) (nodes : List Node)
        (incumbent : Option (List ℚ)) (squares : List Square) → IsSearching aim p bases boxes turns nodes [] incumbent →
        IsFoundOf p (Convex squares) bases boxes (decided p squares incumbent (under_rounding turns nodes)) }
    ensures falling { (p : Program) (bases boxes : ℕ) (turns : List Turn) (nodes : List Node) (path : List Turn)
        (rest : List (List Turn)) (incumbent : Option (List ℚ)) (start x d : List ℚ) (squares : List Square) →
        IsSearching ForPoint p bases boxes turns nodes (path ∷ rest) incumbent → (IsCrossedRegion (region_of p path) → ⊥) →
        IsFound p (region_of p path) bases x → AreWholeOn (marks p) x → IsFalling p (region_of p turns) bases start d →
        IsFoundOf p (Convex squares) bases boxes (Unbounded x d squares) }
    ensures unmarked { (p : Program) (bases boxes : ℕ) (x d : List ℚ) (squares : List Square) → ¬ (IsMarked p) →
        (IsCrossedRegion (bounds p) → ⊥) → IsFalling p (bounds p) bases x d →
        IsFoundOf p (Convex squares) bases boxes (Unbounded x d squares) }
{}

/// The next path of a search is reached, and so are the sites of its region's calculation that the search asks for.
pub fn next_paths_are_reached()
    ensures path { (aim : Search) (p : Program) (bases boxes : ℕ) (turns : List Turn) (nodes : List Node) (path : List Turn)
        (rest : List (List Turn)) (incumbent : Option (List ℚ)) →
        IsSearching aim p bases boxes turns nodes (path ∷ rest) incumbent → IsReachedPath p bases path }
    ensures site { (aim : Search) (p : Program) (bases boxes : ℕ) (turns : List Turn) (nodes : List Node) (path : List Turn)
        (rest : List (List Turn)) (incumbent : Option (List ℚ)) (site : RegionSite) →
        IsSearching aim p bases boxes turns nodes (path ∷ rest) incumbent → (IsCrossedRegion (region_of p path) → ⊥) →
        IsAsked aim nodes site → IsReached p (region_of p path) site → IsReachedSite p bases path site }
{}
