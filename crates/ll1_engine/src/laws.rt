//! Laws of the definitions, each the contract of a function that does nothing: what crates above may rest on. A proof
//! takes the lemmas of the same content from `proofs/`.

ghost use Rattle.std.specs.Prelude.{◌≡◌, ℕ, ◌↔◌, Bool, IsTrue, List, [], ◌∷◌, ◌++◌, length, Some};
ghost use Rattle.ll1_engine.specs.declared.grammar.Row.{Row};
ghost use Rattle.ll1_engine.specs.Trees.{Trees, Derives, Nullable, Productive};
ghost use Rattle.ll1_engine.specs.Table.{IsRow, IsToken};
ghost use Rattle.ll1_engine.specs.First.{BeginsWith, InFollow};
ghost use Rattle.ll1_engine.specs.Marks.{all_in, begins_in};
ghost use Rattle.ll1_engine.specs.Closed.{AreClosed};
ghost use Rattle.ll1_engine.specs.Open.{open_around};
ghost use Rattle.ll1_engine.specs.Conditions.{IsGood};
ghost use Rattle.ll1_engine.specs.Parse.{IsAllowedTree, HasTree};

/// In a good table the ranks take no list away: what is derived has a tree that they allow.
pub fn derived_lists_have_trees()
    ensures { (g : List Row) (tokens : List ℕ) → IsGood g →
        Derives g (0 ∷ []) tokens ↔ HasTree g tokens }
{}

/// Sets that are closed under the rules of nullable, FIRST and FOLLOW hold what is nullable, in FIRST and in FOLLOW. So
/// where rows are apart by such sets, they meet the conditions.
pub fn closed_sets_hold_the_least()
    ensures nullable { (g : List Row) (nullable : ℕ → Bool) (first follow : ℕ → ℕ → Bool) →
        (xs : List ℕ) → AreClosed g nullable first follow → Nullable g xs → IsTrue (all_in nullable xs) }
    ensures first { (g : List Row) (nullable : ℕ → Bool) (first follow : ℕ → ℕ → Bool) →
        (xs : List ℕ) (t : ℕ) → AreClosed g nullable first follow → BeginsWith g xs t →
        IsTrue (begins_in (first t) nullable xs) }
    ensures follow { (g : List Row) (nullable : ℕ → Bool) (first follow : ℕ → ℕ → Bool) (x t : ℕ) →
        AreClosed g nullable first follow → InFollow g x (Some t) → IsTrue (follow t x) }
{}

/// What derives some list of tokens.
pub fn productive_symbols()
    ensures token { (g : List Row) (x : ℕ) → IsToken g x → Productive g (x ∷ []) }
    ensures row { (g : List Row) (k : ℕ) (r : Row) → IsRow g k r →
        Productive g r.right → Productive g (r.left ∷ []) }
    ensures list { (g : List Row) (xs ys : List ℕ) → Productive g xs → Productive g ys →
        Productive g (xs ++ ys) }
{}

/// In a good table what is open around a token is determined by the tokens up to it: all allowed trees of lists that
/// begin so have the same nodes there.
pub fn open_nodes_are_determined()
    ensures { (g : List Row) (before : List ℕ) (t : ℕ) (after more : List ℕ) (tree other : Trees) →
        IsGood g →
        IsAllowedTree g tree (before ++ t ∷ after) → IsAllowedTree g other (before ++ t ∷ more) →
        open_around tree (length before) ≡ open_around other (length before) }
{}

/// In a good table a list of tokens has at most one tree that the ranks allow.
pub fn tokens_have_one_tree()
    ensures { (g : List Row) (tokens : List ℕ) (tree other : Trees) → IsGood g →
        IsAllowedTree g tree tokens → IsAllowedTree g other tokens → other ≡ tree }
{}
