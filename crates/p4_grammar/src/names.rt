//! The names and annotations of a source, along its derivation.

ghost use Rattle.std.specs.Prelude.{◌≡◌, Some, IfOk, IsTrue};
ghost use Rattle.p4_lexer.specs.Spellings.{keyword_spelling};
ghost use Rattle.p4_grammar.specs.declared.symbols.TheConstants.{ANNOTATIONS, NAME, WORD};
ghost use Rattle.p4_grammar.specs.Ahead.{Begins, below, after};
ghost use Rattle.p4_grammar.specs.Words.{keyword_symbol, terminal_of};
ghost use Rattle.p4_grammar.specs.Names.{can_be_name, is_annotation, name_spelling, name_at, word_name, name_of, annotation_at, annotations};

use crate::cursor::Cursor;
use p4_lexer::{Keyword, Token, Word};
use p4_tree::{Annotation, AnnotationKind, Name, Text};
use sqlite_items::Items;
use std::alloc::{AllocError, Global};

/// WORD.
#[tactic(auto, using(crate::proofs::NameRows::word_row, crate::proofs::RowsOfForms::symbol_is))]
pub(crate) fn word(alloc: Global, cursor: &mut Cursor) -> Result<Name, AllocError>
    requires { Begins WORD cursor.old }
    ensures value { IfOk result (λ name. word_name (below cursor.old) ≡ Some name) }
    ensures rest { IfOk result (λ _. cursor.new ≡ after cursor.old) }
{
    cursor.enter();
    name_at(alloc, cursor.take())
}

/// NAME.
#[tactic(auto, using(crate::proofs::NameRows::name_row, crate::proofs::RowsOfForms::symbol_is))]
pub(crate) fn name(alloc: Global, cursor: &mut Cursor) -> Result<Name, AllocError>
    requires { Begins NAME cursor.old }
    ensures value { IfOk result (λ name. name_of (below cursor.old) ≡ Some name) }
    ensures rest { IfOk result (λ _. cursor.new ≡ after cursor.old) }
{
    if cursor.enter() == Some(crate::symbols::WORD) {
        return word(alloc, cursor);
    }
    name_at(alloc, cursor.take())
}

/// The name that a token is.
pub(crate) fn name_at(alloc: Global, token: &Token) -> Result<Name, AllocError>
    requires { IsTrue (can_be_name (terminal_of token.now.word)) }
    ensures { IfOk result (λ name. name_at token.now ≡ Some name) }
{
    let text = name_text(alloc, &token.word)?;
    Ok(Name {
        text,
        span: token.span,
    })
}

fn name_text(alloc: Global, word: &Word) -> Result<Text, AllocError>
    requires { IsTrue (can_be_name (terminal_of word.now)) }
    ensures { IfOk result (λ text. name_spelling word.now ≡ Some text) }
{
    match word {
        Word::Id(text) | Word::TypeName(text) | Word::Base(text) => {
            Text::from_slice(alloc, text.as_slice())
        }
        Word::Keyword(keyword) => Text::from_slice(alloc, spelling(*keyword).as_bytes()),
        _ => unreachable!(),
    }
}

fn spelling(keyword: Keyword) -> &'static str
    requires { IsTrue (can_be_name (keyword_symbol keyword)) }
    ensures { result.now ≡ keyword_spelling keyword }
{
    match keyword {
        Keyword::Actions => "actions",
        Keyword::Apply => "apply",
        Keyword::Entries => "entries",
        Keyword::Key => "key",
        Keyword::State => "state",
        _ => unreachable!(),
    }
}

/// ANNOTATIONS.
#[tactic(auto, using(crate::proofs::NameRows::annotations_row, crate::proofs::RowsOfForms::symbol_is, crate::proofs::ListLemmas::pushed, crate::proofs::AheadLemmas::nodes_opened, crate::proofs::AheadLemmas::nodes_after))]
pub(crate) fn annotations(
    alloc: Global,
    cursor: &mut Cursor,
) -> Result<Items<Annotation>, AllocError>
    requires { Begins ANNOTATIONS cursor.old }
    ensures value { IfOk result (λ all. annotations (below cursor.old) ≡ Some all) }
    ensures rest { IfOk result (λ _. cursor.new ≡ after cursor.old) }
{
    let mut all = Vec::new(alloc);
    while cursor.enter().is_some() {
        all.push(annotation_at(alloc, cursor.take())?)?;
    }
    Ok(Items::from_vec(all))
}

/// The annotation that a token is.
fn annotation_at(alloc: Global, token: &Token) -> Result<Annotation, AllocError>
    requires { IsTrue (is_annotation (terminal_of token.now.word)) }
    ensures { IfOk result (λ annotation. annotation_at token.now ≡ Some annotation) }
{
    let kind = match &token.word {
        Word::Named(text) => AnnotationKind::Named(Text::from_slice(alloc, text.as_slice())?),
        Word::DefaultOnly => AnnotationKind::DefaultOnly,
        Word::TableOnly => AnnotationKind::TableOnly,
        _ => unreachable!(),
    };
    Ok(Annotation {
        kind,
        span: token.span,
    })
}
