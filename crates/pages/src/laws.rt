//! Laws of pages.

ghost use Rattle.pages.specs.Laws.{OneList, OnePage};

/// A law: a page's bytes stand for one list of keys with what stands under them.
pub fn one_list()
    ensures { OneList }
{}

/// A law: a page's bytes follow from its keys and what stands under them.
pub fn one_page()
    ensures { OnePage }
{}
