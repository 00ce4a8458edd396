//! A page as it is read.

ghost use Rattle.std.specs.Prelude.{◌≡◌, ◌<◌, ◌≤◌, ◌↔◌, length, get_or, IsTrue, IfOk, IfErr, OnOk, IsErrOf};
ghost use Rattle.std.specs.FinMap.{find, is_sorted};
ghost use Rattle.std.specs.Option.{option_map};
ghost use Rattle.pages.specs.Page.{Entry, bytes_cmp, IsSound, SoundPage};
ghost use Rattle.pages.specs.Damage.{IsFirstDamage};
ghost use Rattle.pages.specs.declared.damage.PageDamage.{PageDamage as Damage};

use crate::cells::{read_count, read_key, read_value};
use crate::conditions::{has_cells, has_free_zeros, has_mark, has_order, has_slots};
use crate::damage::PageDamage;
use crate::search::place_of;
use std::marker::Model;

/// The bytes of a page, as keys in ascending order with what stands under each.
#[derive(Drop)]
pub struct Page<'a> {
    pub(crate) bytes: &'a [u8],
}

impl<'a> Model for Page<'a> {
    ghost use Rattle.std.specs.Prelude.{List};
    ghost use Rattle.pages.specs.Page.{Entry, entries_in, IsSound};

    ghost Value = { List Entry };

    ghost view = { λ page. entries_in page.bytes.now };

    ghost invariant = { λ page. IsSound page.bytes.now };
}

/// What is wrong with the bytes, if they are no page.
pub(crate) fn check_bytes(bytes: &[u8]) -> Result<(), PageDamage>
    ensures sound { OnOk result (IsSound bytes.now) }
    ensures damage { IfErr result (IsFirstDamage bytes.now) }
{
    if !has_mark(bytes) {
        return Err(PageDamage::Mark);
    }
    if !has_slots(bytes) {
        return Err(PageDamage::Slots);
    }
    if !has_cells(bytes) {
        return Err(PageDamage::Cells);
    }
    if !has_order(bytes) {
        return Err(PageDamage::Order);
    }
    if !has_free_zeros(bytes) {
        return Err(PageDamage::FreeBytes);
    }
    Ok(())
}

impl<'a> Page<'a> {
    /// The page that the bytes are. Takes no memory.
    ///
    /// # Errors
    ///
    /// The first of the five damages that the bytes have; bytes with none are a page.
    pub fn check(bytes: &'a [u8]) -> Result<Page<'a>, PageDamage>
        ensures found { IfOk result (SoundPage bytes.now) }
        ensures ascending { IfOk result (λ page. IsTrue (is_sorted bytes_cmp page)) }
        ensures damage { (damage : Damage) → IsErrOf result damage ↔ IsFirstDamage bytes.now damage }
    {
        check_bytes(bytes)?;
        Ok(Page { bytes })
    }

    /// How many keys there are, at least one.
    pub fn len(&self) -> usize
        ensures len { result ≡ length self.now }
        ensures some { 1 ≤ result }
        ensures ascending { IsTrue (is_sorted bytes_cmp self.now) }
    {
        read_count(self.bytes)
    }

    /// A key, by its place.
    pub fn key(&self, i: usize) -> &'a [u8]
        requires { i < length self.now }
        ensures { (d : Entry) → result.now ≡ (get_or self.now i d).0 }
    {
        read_key(self.bytes, i)
    }

    /// What stands under a key, by its place.
    pub fn cell(&self, i: usize) -> &'a [u8]
        requires { i < length self.now }
        ensures { (d : Entry) → result.now ≡ (get_or self.now i d).1 }
    {
        read_value(self.bytes, i)
    }
    /// What stands under a key. The key is looked for by halving: of n keys some log n are compared.
    pub fn find(&self, key: &[u8]) -> Option<&'a [u8]>
        ensures { option_map (λ cell. cell.now) result ≡ find bytes_cmp key.now self.now }
    {
        match place_of(self.bytes, key) {
            Some(i) => Some(read_value(self.bytes, i)),
            None => None,
        }
    }
}
