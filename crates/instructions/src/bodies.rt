//! Open bodies, with the heights of the stack that are known of their places.

ghost use Rattle.std.specs.Prelude.{
  ◌≡◌,
  IfOk,
};
ghost use Rattle.instructions.specs.Judging.{is_one};
ghost use Rattle.instructions.specs.Bodies.{
  arrival,
  joined,
  one_height,
  table_of,
  known_at,
  expecting,
  begun,
};

use std::alloc::{AllocError, Global};

/// How many outcomes the stack of a body holds where control comes to a place.
#[derive(Clone, Copy)]
pub(crate) enum Height {
    Never,
    Always(usize),
    Mixed,
}

/// A body that is open: its first place, the place after its last instruction, and the height at each of its places, its end among them,
/// as far as it is known.
#[derive(Drop)]
pub(crate) struct OpenBody {
    pub(crate) first: usize,
    pub(crate) end: usize,
    pub(crate) heights: Vec<Height>,
}

fn join(known: Height, height: usize) -> Height
    ensures { result ≡ joined known height }
{
    match known {
        Height::Never => Height::Always(height),
        Height::Always(other) => {
            if height == other {
                Height::Always(other)
            } else {
                Height::Mixed
            }
        }
        Height::Mixed => Height::Mixed,
    }
}

fn known(place: usize, body: &OpenBody) -> Height
    ensures { result ≡ known_at place (table_of body.now) }
{
    match body.heights.get(place.saturating_sub(body.first)) {
        Some(height) => *height,
        None => Height::Never,
    }
}

/// The one height with which control comes to a place of the body.
pub(crate) fn height_of(place: usize, body: &OpenBody) -> Option<usize>
    ensures { result ≡ one_height (known_at place (table_of body.now)) }
{
    match known(place, body) {
        Height::Never => None,
        Height::Always(height) => Some(height),
        Height::Mixed => None,
    }
}

/// Whether control comes to a place of the body with one outcome, always.
pub(crate) fn ends_with_one(at: usize, body: &OpenBody) -> bool
    ensures { result ≡ is_one (one_height (known_at at (table_of body.now))) }
{
    match height_of(at, body) {
        Some(height) => height == 1,
        None => false,
    }
}

/// Awaits control at a place of the body.
pub(crate) fn expect(place: usize, height: usize, body: &mut OpenBody)
    ensures { table_of body.new ≡ expecting (table_of body.old) (arrival place height) }
{
    let joined = join(known(place, body), height);
    if let Some(entry) = body.heights.get_mut(place.saturating_sub(body.first)) {
        *entry = joined;
    }
}

/// A body that control comes to at its first place, with an empty stack.
pub(crate) fn begin(alloc: Global, first: usize, end: usize) -> Result<OpenBody, AllocError>
    ensures { IfOk result (λ b. table_of b ≡ begun first end) }
{
    let mut heights = vec![in alloc; Height::Never; end.saturating_sub(first)]?;
    heights.push(Height::Never)?;
    let mut body = OpenBody {
        first,
        end,
        heights,
    };
    expect(first, 0, &mut body);
    Ok(body)
}
