//! What holds of every accepted derivation, each law the contract of a function that does nothing. A proof above may cite
//! the lemmas of `AcceptedCubesLaws` and `OpenLaws`.
ghost use Rattle.refutation_checker.specs.Derivation.{Derivation};
ghost use Rattle.refutation_checker.specs.Acceptance.{IsAccepted};
ghost use Rattle.refutation_checker.specs.AcceptedCubes.{NoCubeIsPart, AreDistinct, NoneIsEmpty, AreFew};

/// No accepted cube has all literals of an earlier one, so no two are the same set of literals; none is empty.
pub fn accepted_cubes_are_distinct()
    ensures part { (d : Derivation) → IsAccepted d → NoCubeIsPart d }
    ensures distinct { (d : Derivation) → IsAccepted d → AreDistinct d }
    ensures not_empty { (d : Derivation) → IsAccepted d → NoneIsEmpty d }
{}

/// The accepted cubes over `n` inputs are fewer than `3 ^ n`.
pub fn accepted_cubes_are_few()
    ensures { (d : Derivation) → IsAccepted d → AreFew d }
{}
