//! The words of the command line.

ghost use Rattle.std.specs.Prelude.{◌≡◌, ◌≢◌, [], IfOk, IfErr, IsOk, OnErr};
ghost use Rattle.std.specs.IoError.{error_kind};
ghost use Rattle.std.specs.Vec.Iter.{into_iter_items};

use crate::problem::Problem;
use std::alloc::Global;
use std::env::Args;
use std::io::ErrorKind;
use std::rt::Env;
use std::{env, io};

// The words in a list.
fn listed(alloc: Global, words: Args) -> Result<Vec<String>, Problem>
    ensures words { IfOk result (λ list. list.items ≡ into_iter_items words) }
    ensures refusal { OnErr result (result ≡ Err Problem.OutOfMemory) }
{
    match words.collect::<Vec<String>>(alloc) {
        Ok(list) => Ok(list),
        Err(_) => Err(Problem::OutOfMemory),
    }
}

// The words that were read; none where one is no UTF-8.
fn words_of(alloc: Global, read: io::Result<Args>) -> Result<Vec<String>, Problem>
    ensures words { IfOk read (λ args. IfOk result (λ words. words.items ≡ into_iter_items args)) }
    ensures no_text { IfErr read (λ error. error_kind error ≡ ErrorKind.InvalidData → IfOk result (λ words. words.items ≡ []) × IsOk result) }
    ensures unread { IfErr read (λ error. error_kind error ≢ ErrorKind.InvalidData → result ≡ Err Problem.OutOfMemory) }
    ensures refusal { OnErr result (result ≡ Err Problem.OutOfMemory) }
{
    match read {
        Ok(words) => listed(alloc, words),
        Err(error) if error.kind() == ErrorKind::InvalidData => Ok(Vec::new(alloc)),
        Err(_) => Err(Problem::OutOfMemory),
    }
}

/// The words of the command line; none where one is no UTF-8, so that the usage is told.
///
/// # Errors
///
/// Out of memory.
pub fn words<R: Env + Alloc<A = Global>>(runtime: &R) -> Result<Vec<String>, Problem>
    ensures { OnErr result (result ≡ Err Problem.OutOfMemory) }
{
    words_of(runtime.alloc(), env::args(runtime))
}
