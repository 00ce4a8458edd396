//! Words: keywords, reserved words and names.

ghost use Rattle.std.specs.Prelude.{◌≡◌, ℕ, List, [], ◌∷◌, codes, bytes_eq, chars};
ghost use Rattle.std.specs.Bool.{Decides};
ghost use Rattle.std.specs.List.{list_all};
ghost use Rattle.celtokens.specs.declared.run.Kind.TheVariants as kind;
ghost use Rattle.celtokens.specs.Run.{is_in};
ghost use Rattle.celtokens.specs.Terminal.{Ident, is_reserved, word_of};
ghost use Rattle.celtokens.specs.Lexes.{Lexes};
ghost use Rattle.celtokens.specs.Seen.{terminal, meant_by};
ghost use Rattle.celtokens.specs.Word.{is_word, is_name, is_identifier};

use crate::run::{Kind, is_in};
use crate::token::Token;

/// A word as characters, as the lexer has it, or as a text.
trait Spelling: Copy {
    /// Its characters, or the bytes of the text. Those of ASCII words are the same.
    ghost letters: { Self → List ℕ };

    /// Whether it is the same word as an ASCII text.
    fn is(self, text: &str) -> bool
        ensures { result ≡ bytes_eq (letters self) text.now };
}

impl<'a> Spelling for &'a [char] {
    ghost letters = { λ s. s.now };

    fn is(self, text: &str) -> bool {
        let bytes = text.as_bytes();
        if self.len() != bytes.len() {
            return false;
        }
        for i in 0..bytes.len() {
            if self[i] != char::from(bytes[i]) {
                return false;
            }
        }
        true
    }
}

impl<'a> Spelling for &'a str {
    ghost letters = { λ s. s.now };

    fn is(self, text: &str) -> bool {
        self == text
    }
}

/// What a word is.
#[derive(Clone, Copy)]
enum Meaning {
    False,
    In,
    Null,
    True,
    Reserved,
    Name,
}

fn is_reserved<S: Spelling>(word: S) -> bool
    ensures { result ≡ is_reserved (S.letters word) }
{
    word.is("as")
        || word.is("break")
        || word.is("const")
        || word.is("continue")
        || word.is("else")
        || word.is("for")
        || word.is("function")
        || word.is("if")
        || word.is("import")
        || word.is("let")
        || word.is("loop")
        || word.is("namespace")
        || word.is("package")
        || word.is("return")
        || word.is("var")
        || word.is("void")
        || word.is("while")
}

fn meaning_of<S: Spelling>(word: S) -> Meaning
    ensures { meant_by result (S.letters word) ≡ word_of (S.letters word) }
{
    if word.is("false") {
        Meaning::False
    } else if word.is("in") {
        Meaning::In
    } else if word.is("null") {
        Meaning::Null
    } else if word.is("true") {
        Meaning::True
    } else if is_reserved(word) {
        Meaning::Reserved
    } else {
        Meaning::Name
    }
}

/// A keyword, a reserved word, or else a name.
pub(crate) fn word(name: &[char]) -> Token<'_>
    ensures { terminal result ≡ word_of name.now }
{
    match meaning_of(name) {
        Meaning::False => Token::False,
        Meaning::In => Token::In,
        Meaning::Null => Token::Null,
        Meaning::True => Token::True,
        Meaning::Reserved => Token::Reserved(name),
        Meaning::Name => Token::Ident(name),
    }
}

/// Whether the text is an identifier: a word that is neither a keyword nor reserved (CEL language definition, "Syntax"). So its
/// only token is [`Token::Ident`] with all of the text.
pub fn is_identifier(text: &str) -> bool
    ensures spelled { result ≡ is_identifier text.now }
    ensures lexed { Decides result (Lexes (chars text.now) (Ident (chars text.now) ∷ [])) }
{
    is_word(text.as_bytes()) && is_name(text)
}

fn is_name(word: &str) -> bool
    ensures { result ≡ is_name (word_of word.now) }
{
    matches!(meaning_of(word), Meaning::Name)
}

// Whether the text is a letter or `_`, followed by letters, digits and `_`.
fn is_word(text: &[u8]) -> bool
    ensures { result ≡ is_word text.now }
{
    match text.split_first() {
        Some((first, others)) => {
            (first.is_ascii_alphabetic() || *first == b'_') && are_in_word(others)
        }
        None => false,
    }
}

fn are_in_word(text: &[u8]) -> bool
    ensures { result ≡ list_all (is_in kind.InWord) text.now }
{
    text.iter()
        .all(|byte| is_in(Kind::InWord, char::from(*byte)))
}
