//! What calls of a desk one after another do, each law the contract of a function that does nothing.
ghost use Rattle.std.specs.Prelude.{◌≡◌, ℕ, List, [], ◌∷◌, ◌++◌};
ghost use Rattle.tg_base.specs.Moment.{Opened, Output, file_after, after_read, output_after};

/// A read from the file that was opened last leaves those that were opened before it.
#[tactic(auto, using(crate::proofs::MomentLaws::after_read_last))]
pub fn reads_come_from_the_last_file()
    ensures { (files : List Opened) (file : Opened) (bytes : List ℕ)
        → after_read (files ++ file ∷ []) bytes ≡ files ++ file_after file bytes ∷ [] }
{}

/// Two pieces that an output takes one after the other are as one, and no piece is as none.
#[tactic(auto, using(crate::proofs::MomentLaws::output_after_twice, crate::proofs::MomentLaws::output_after_nothing))]
pub fn pieces_join()
    ensures twice { (output : Output) (a b : List ℕ)
        → output_after (output_after output a) b ≡ output_after output (a ++ b) }
    ensures nothing { (output : Output) → output_after output [] ≡ output }
{}
