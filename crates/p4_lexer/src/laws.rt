//! Laws of the definitions, each the contract of a function that does nothing: what crates above may rest on. A proof
//! takes the lemmas of the same content from `proofs/`.

ghost use Rattle.std.specs.Prelude.{◌≡◌, ℕ, List, ◌⊎◌};
ghost use Rattle.tg_base.specs.declared.place.Refusal.{Refusal};
ghost use Rattle.p4_lexer.specs.declared.token.Tokens.{Tokens};
ghost use Rattle.p4_lexer.specs.Parts.{Part, AreParts};
ghost use Rattle.p4_lexer.specs.Tokens.{HasTokens, IsRefused};

/// A text has tokens, or a refusal, whatever its bytes.
pub fn tokens_or_refusal_are_there()
    ensures { (text : List ℕ)
        → ((tokens : Tokens) × HasTokens text tokens)
        ⊎ ((fault : Refusal) × IsRefused text fault) }
{}

/// A text is read as parts in one way at most.
pub fn parts_are_determined()
    ensures { (text : List ℕ) (parts others : List Part) →
        AreParts text parts → AreParts text others → others ≡ parts }
{}

/// What a text is, it is alone: no two lists of tokens, no two refusals, and not both tokens and a refusal.
pub fn tokens_are_determined()
    ensures tokens { (text : List ℕ) (a b : Tokens) → HasTokens text a → HasTokens text b → a ≡ b }
    ensures refusal { (text : List ℕ) (f g : Refusal) →
        IsRefused text f → IsRefused text g → f ≡ g }
    ensures either { (text : List ℕ) (a : Tokens) (f : Refusal) →
        HasTokens text a → IsRefused text f → ⊥ }
{}
