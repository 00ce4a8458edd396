use std::fmt;
use std::fmt::{Display, Formatter};

/// What is wrong with bytes that are no page: the first of these.
#[derive(Clone, Copy)]
pub enum PageDamage {
    /// They are not 32768 bytes that begin with a page's mark.
    Mark,
    /// There is no cell, the two bytes behind the number of cells are not zero, or a slot has no cell that ends where the one before
    /// begins.
    Slots,
    /// A cell has no room for its key.
    Cells,
    /// A key is not above the one before it.
    Order,
    /// A byte between the slots and the cells is not zero.
    FreeBytes,
}

impl Display for PageDamage {
    ghost use Rattle.std.specs.Prelude.{Some};
    ghost use Rattle.pages.specs.Damage.{damage_text};

    ghost output = { λ damage. Some (damage_text damage) };

    fn fmt<W: fmt::Write>(&self, f: &mut Formatter<W>) -> fmt::Result {
        f.write_str(match self {
            PageDamage::Mark => "no page",
            PageDamage::Slots => "damaged slots",
            PageDamage::Cells => "damaged cells",
            PageDamage::Order => "keys out of order",
            PageDamage::FreeBytes => "free bytes in use",
        })
    }
}
