//! The lexical half of a reader for the Common Expression Language (CEL): characters to tokens, and what stands in front of tokens.
//!
//! [`tokens`] cuts a text into its longest lexemes, front to back, and drops blanks and comments. Its contract says that the
//! tokens it gives are the token sequence of the text by the lexical rules (`specs/Lexeme.antt`, `specs/Lexes.antt`). Where it
//! gives none, there is none, and by [`one_reading`] a text never has two. [`is_identifier`] says whether a
//! text is one name and nothing else, and takes no memory.
//!
//! What a parser asks of the tokens that are left stands here too: which operator, primary expression, suffix or separator they begin
//! with (`specs/Ahead.antt`, `specs/Operators.antt`), and which literal, with its tree ([`literal_at`], `specs/Literal.antt`).
#![tactic(auto)]

mod ahead;
mod class;
mod closing;
mod escape;
mod lexeme;
mod lexer;
mod literal;
mod number;
mod run;
mod sign;
mod text;
mod token;
mod word;

pub use ahead::{
    Separator, Start, Suffix, after, after_prefix, operator_at, prefix_at, primary_at,
    separator_at, skip, suffix_at,
};
pub use closing::{Closing, close_sign};
pub use lexer::{characters, one_reading, tokens};
pub use literal::{literal_at, text_of};
pub use sign::Sign;
pub use token::{Number, Token};
pub use word::is_identifier;
