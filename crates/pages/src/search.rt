//! The place of a key in a page.

ghost use Rattle.std.specs.Prelude.{◌≡◌, ◌<◌, ◌≢◌, ℕ, length, IfSome, IfNone};
ghost use Rattle.pages.specs.Page.{count, key_at, HasSlots, HasCells, HasOrder};

use crate::cells::{read_count, read_key};
use std::cmp::Ordering;

/// The place of a key, by halving: of n keys some log n are compared.
pub(crate) fn place_of(bytes: &[u8], key: &[u8]) -> Option<usize>
    requires whole { length bytes.now ≡ 32768 }
    requires slots { HasSlots bytes.now }
    requires cells { HasCells bytes.now }
    requires order { HasOrder bytes.now }
    ensures inside { IfSome result (λ i. i < count bytes.now) }
    ensures found { IfSome result (λ i. key_at i bytes.now ≡ key.now) }
    ensures absent { IfNone result ((i : ℕ) → i < count bytes.now → key_at i bytes.now ≢ key.now) }
{
    let mut low = 0;
    let mut high = read_count(bytes);
    'halves: while low < high {
        let middle = low + (high - low) / 2;
        match read_key(bytes, middle).cmp(key) {
            Ordering::Less => low = middle + 1,
            Ordering::Equal => return Some(middle),
            Ordering::Greater => high = middle,
        }
    }
    None
}
