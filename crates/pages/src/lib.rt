//! Pages of a store's file: an ascending list of keys, with what stands under each, in 32768 bytes.
//!
//! A page begins with its mark, the number of its cells and a slot for each, which says where the cell begins and how long it is. The
//! cells stand at the end, the first one last; the bytes between the slots and the cells are zero.
//!
//! ```text
//! let mut builder = PageBuilder::new(alloc)?;
//! builder.push(b"a", b"1")?;
//! builder.push(b"b", b"2")?;
//! let page = Page::check(builder.bytes())?;
//! let found = page.find(b"b");
//! ```
//!
//! [`Page::check`] takes exactly the bytes that are a page, and tells the first damage of others. What a [`PageBuilder`] gives is a page
//! where its keys ascend, and stands for what was pushed. A page's bytes stand for one list ([`one_list`]), and follow from it
//! ([`one_page`]). A page is read where it lies: nothing but `PageBuilder::new` takes memory. An [`OwnedPage`] keeps its bytes, and is checked once.
#![tactic(auto)]

mod builder;
mod cells;
mod conditions;
mod damage;
mod laws;
mod owned_page;
mod page;
mod search;
mod writing;

pub use builder::{Full, PageBuilder};
pub use cells::{PAGE_BYTES, PAGE_SECTORS};
pub use damage::PageDamage;
pub use laws::{one_list, one_page};
pub use owned_page::OwnedPage;
pub use page::Page;
