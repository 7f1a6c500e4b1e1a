//! What holds of the grammar, as contracts of functions that do nothing.

ghost use Rattle.std.specs.Prelude.{◌≡◌, ℕ, ◌+◌, ◌<◌, List, length, take};
ghost use Rattle.ll1_engine.specs.Table.{FitsIn};
ghost use Rattle.ll1_engine.specs.Parse.{CanGoOn};
ghost use Rattle.p4_lexer.specs.declared.token.Token.{Token};
ghost use Rattle.p4_grammar.specs.Words.{terminals_of};
ghost use Rattle.p4_grammar.specs.Depth.{HasDepth, IsShallow};
ghost use Rattle.p4_grammar.specs.Derivation.{HasDerivation};
ghost use Rattle.p4_grammar.specs.Reading.{IsReading, IsReadFault};
ghost use Rattle.p4_grammar.specs.Sources.{IsSourceOf};
ghost use Rattle.p4_lexer.specs.declared.token.Tokens.{Tokens};
ghost use Rattle.p4_tree.specs.declared.declarations.Source.{Source};
ghost use Rattle.tg_base.specs.declared.place.Refusal.{Refusal};
ghost use Rattle.ll1_engine.specs.Conditions.{IsGood};
ghost use Rattle.p4_grammar.specs.declared.symbols.TheConstants.{SYMBOL_COUNT, ROW_COUNT};
ghost use Rattle.p4_grammar.specs.Rows.{grammar_rows};

/// The rows of the grammar meet the five conditions of a good table.
#[tactic(auto, using(crate::proofs::GoodTable::table_fits, crate::proofs::GoodTable::good_table))]
pub fn grammar_is_good()
    ensures good { IsGood grammar_rows }
    ensures fits { FitsIn SYMBOL_COUNT ROW_COUNT grammar_rows }
{}

/// All derivations of lists that begin with the same tokens give the last of these one depth.
pub fn a_token_has_one_depth()
    ensures { (tokens : List Token) (k d e : ℕ) →
        HasDepth tokens k d → HasDepth tokens k e → d ≡ e }
{}

/// A token has a depth exactly where some list that has a derivation begins with the tokens up to it.
pub fn tokens_that_go_on_have_a_depth()
    ensures has { (tokens : List Token) (k : ℕ) → k < length tokens →
        CanGoOn grammar_rows (take (k + 1) (terminals_of tokens)) → (d : ℕ) × HasDepth tokens k d }
    ensures begins { (tokens : List Token) (k d : ℕ) → HasDepth tokens k d →
        CanGoOn grammar_rows (take (k + 1) (terminals_of tokens)) }
{}

/// Tokens are read in one way. They have at most one tree, and at most one refusal, and not both; tokens that are not refused
/// have no token that is too deep, and are not without a derivation.
pub fn tokens_are_read_in_one_way()
    ensures tree { (tokens : Tokens) (source other : Source) →
        IsSourceOf source tokens → IsSourceOf other tokens → other ≡ source }
    ensures refusal { (tokens : Tokens) (r s : Refusal) →
        IsReadFault tokens r → IsReadFault tokens s → r ≡ s }
    ensures apart { (tokens : Tokens) (source : Source) (refusal : Refusal) →
        IsReading source tokens → ¬ IsReadFault tokens refusal }
    ensures shallow { (tokens : Tokens) →
        ((refusal : Refusal) → ¬ IsReadFault tokens refusal) → IsShallow tokens.tokens }
    ensures derived { (tokens : Tokens) →
        ((refusal : Refusal) → ¬ IsReadFault tokens refusal) → ¬ (¬ HasDerivation tokens.tokens) }
{}
