//! A page that owns its bytes.

ghost use Rattle.std.specs.Prelude.{◌≡◌, ◌↔◌, IfOk, IsErrOf};
ghost use Rattle.pages.specs.Page.{SoundPage};
ghost use Rattle.pages.specs.Damage.{IsFirstDamage};
ghost use Rattle.pages.specs.declared.damage.PageDamage.{PageDamage as Damage};

use crate::damage::PageDamage;
use crate::page::{Page, check_bytes};
use std::marker::Model;

/// A page with its bytes, which were checked once: what is looked up in it is not checked again.
#[derive(Drop)]
pub struct OwnedPage {
    bytes: Vec<u8>,
}

impl Model for OwnedPage {
    ghost use Rattle.std.specs.Prelude.{List};
    ghost use Rattle.pages.specs.Page.{Entry, entries_in, IsSound};

    ghost Value = { List Entry };

    ghost view = { λ page. entries_in page.bytes.items };

    ghost invariant = { λ page. IsSound page.bytes.items };
}

impl OwnedPage {
    /// The page that the bytes are. Takes no memory.
    ///
    /// # Errors
    ///
    /// The first of the five damages that the bytes have; bytes with none are a page.
    pub fn check(bytes: Vec<u8>) -> Result<OwnedPage, PageDamage>
        ensures found { IfOk result (SoundPage bytes.items) }
        ensures damage { (damage : Damage) → IsErrOf result damage ↔ IsFirstDamage bytes.items damage }
    {
        check_bytes(&bytes)?;
        Ok(OwnedPage { bytes })
    }

    /// The page, as it is read.
    pub fn page(&self) -> Page<'_>
        ensures { result ≡ self.now }
    {
        Page { bytes: &self.bytes }
    }
}
