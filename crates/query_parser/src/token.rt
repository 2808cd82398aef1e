//! Tokens: how long one is, and which it is.

ghost use Rattle.std.specs.Prelude.{◌≡◌, ◌||◌, ◌≤◌, not, length, true, [], take, drop, Some};
ghost use Rattle.query_grammar.specs.declared.lex.Lex.TheVariants.{Begin};
ghost use Rattle.query_grammar.specs.declared.mode.Mode.TheVariants.{BeforeUnary, BeforeOperand};
ghost use Rattle.query_grammar.specs.Bytes.{is_blank};
ghost use Rattle.query_grammar.specs.Lexical.{is_prefix, is_one_of, begins_one_of, operators, words, ends_word, whole_from, may_end, lex_along};
ghost use Rattle.query_grammar.specs.Grammar.{operator_words};
ghost use Rattle.query_grammar.specs.Moves.{Kept, can_close};
ghost use Rattle.query_grammar.specs.Scanner.{begins, begins_after_unary, whole_after_unary, whole};
ghost use Rattle.query_grammar.specs.Munches.{Munches};
ghost use Rattle.query_parser.specs.inside.Stages.{mark_mode, join_token, unary_token};

use query_grammar::{Lex, Part};

/// What stands behind a unary.
#[derive(Clone, Copy)]
pub(crate) enum Join {
    /// `and`
    And,
    /// `or`
    Or,
    /// `)`
    Close,
}

/// What stands where a unary begins.
#[derive(Clone, Copy)]
pub(crate) enum Unary {
    /// `(`
    Open,
    /// `not`
    Not,
    /// A criterion.
    Criterion,
}

/// Whether a byte is a blank.
pub(crate) fn is_blank_byte(byte: u8) -> bool
    ensures { result ≡ is_blank byte }
{
    byte == b' ' || byte == b'\t' || byte == b'\r'
}

/// Whether a word ends before these bytes.
pub(crate) fn is_word_end(rest: &[u8]) -> bool
    ensures { result ≡ ends_word rest.now }
{
    match rest {
        [] => true,
        [byte, ..] => {
            is_blank_byte(*byte)
                || *byte == b'('
                || *byte == b')'
                || *byte == b'"'
                || *byte == b'\''
        }
    }
}

/// Whether the second begins with the first.
fn is_prefix_of(prefix: &[u8], text: &[u8]) -> bool
    ensures { result ≡ is_prefix prefix.now text.now }
{
    text.starts_with(prefix)
}

/// Whether an operator begins so.
fn begins_operator(word: &[u8]) -> bool
    ensures { result ≡ begins_one_of operators word.now }
{
    is_prefix_of(word, b"==")
        || is_prefix_of(word, b"!=")
        || is_prefix_of(word, b"<")
        || is_prefix_of(word, b"<=")
        || is_prefix_of(word, b">")
        || is_prefix_of(word, b">=")
        || is_prefix_of(word, b"~")
        || is_prefix_of(word, b"!~")
        || is_prefix_of(word, b"eq")
        || is_prefix_of(word, b"ne")
}

/// Whether what may stand behind a unary begins so.
fn begins_join(closable: bool, word: &[u8]) -> bool
    ensures { (k : Kept) → can_close k.waiting ≡ closable → result ≡ begins_after_unary k word.now }
{
    is_prefix_of(word, b"and") || is_prefix_of(word, b"or") || (word == b")".as_slice() && closable)
}

/// Whether what may stand behind a criterion, or else behind a unary, begins so.
fn begins_mark(tested: bool, closable: bool, word: &[u8]) -> bool
    ensures { (k : Kept) → can_close k.waiting ≡ closable → result ≡ begins (mark_mode tested) k word.now }
{
    if tested && begins_operator(word) {
        return true;
    }
    begins_join(closable, word)
}

/// How many of the first bytes are what may stand behind a criterion, or else behind a unary, or begin it.
pub(crate) fn mark_len(tested: bool, closable: bool, text: &[u8]) -> usize
    ensures munches { (k : Kept) → can_close k.waiting ≡ closable → Munches (mark_mode tested) k [] (take result text.now) (drop result text.now) }
    ensures within { result ≤ length text.now }
{
    let mut count = 0;
    while count < text.len() && begins_mark(tested, closable, &text[..count + 1]) {
        count += 1;
    }
    count
}

/// How many of the first bytes are a unary or begin one.
pub(crate) fn unary_len(text: &[u8]) -> usize
    ensures munches { (k : Kept) → Munches BeforeUnary k [] (take result text.now) (drop result text.now) }
    ensures within { result ≤ length text.now }
{
    match text {
        [] => 0,
        [byte, ..] => {
            if *byte == b'(' {
                return 1;
            }
            lex_len(Lex::Begin, text)
        }
    }
}

/// How many of the first bytes are an operand or begin one.
pub(crate) fn operand_len(text: &[u8]) -> usize
    ensures munches { (k : Kept) → Munches BeforeOperand k [] (take result text.now) (drop result text.now) }
    ensures within { result ≤ length text.now }
{
    lex_len(Lex::TextNext(Part::Operand), text)
}

/// How many bytes go on from a state.
fn lex_len(from: Lex, text: &[u8]) -> usize
    ensures length { result ≡ (lex_along from text.now).0 }
    ensures within { result ≤ length text.now }
{
    let (count, _) = from.along(text);
    count
}

/// Whether a criterion or an operand may end in this state.
fn is_last_state(state: Lex) -> bool
    ensures { result ≡ may_end state }
{
    matches!(
        state,
        Lex::InName | Lex::InWord(_) | Lex::TextDone(_) | Lex::Done
    )
}

/// Whether the bytes are all of a criterion, or of an operand.
pub(crate) fn is_whole(from: Lex, word: &[u8]) -> bool
    ensures { result ≡ whole_from from word.now }
{
    let (count, state) = from.along(word);
    count == word.len() && is_last_state(state)
}

/// Whether the bytes are a word that is no name by itself.
pub(crate) fn is_word(word: &[u8]) -> bool
    ensures { result ≡ is_one_of words word.now }
{
    word == b"not".as_slice()
        || word == b"and".as_slice()
        || word == b"or".as_slice()
        || is_operator_word(word)
}

/// Whether the bytes are an operator that is a word.
fn is_operator_word(word: &[u8]) -> bool
    ensures { result ≡ is_one_of operator_words word.now }
{
    word == b"eq".as_slice() || word == b"ne".as_slice()
}

/// Whether an operator ends before these bytes: one that is a word has to be followed by what ends a word.
pub(crate) fn is_over(word: &[u8], rest: &[u8]) -> bool
    ensures { result ≡ (not (is_one_of operator_words word.now) || ends_word rest.now) }
{
    !is_operator_word(word) || is_word_end(rest)
}

/// What the bytes are behind a unary, before these bytes.
pub(crate) fn join_of(word: &[u8], rest: &[u8]) -> Option<Join>
    ensures { join_token result ≡ whole_after_unary word.now rest.now }
{
    if word == b")".as_slice() {
        return Some(Join::Close);
    }
    if word == b"and".as_slice() && is_word_end(rest) {
        return Some(Join::And);
    }
    if word == b"or".as_slice() && is_word_end(rest) {
        return Some(Join::Or);
    }
    None
}

/// What the bytes are where a unary begins, before these bytes.
pub(crate) fn unary_of(word: &[u8], rest: &[u8]) -> Option<Unary>
    ensures token { unary_token word.now result ≡ whole BeforeUnary word.now rest.now }
    ensures whole { result ≡ Some Unary.Criterion → whole_from Begin word.now ≡ true }
{
    if word == b"(".as_slice() {
        return Some(Unary::Open);
    }
    if word == b"not".as_slice() && is_word_end(rest) {
        return Some(Unary::Not);
    }
    if is_word(word) && is_word_end(rest) {
        return None;
    }
    if is_whole(Lex::Begin, word) {
        return Some(Unary::Criterion);
    }
    None
}
