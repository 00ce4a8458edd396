//! Where a damaged store is damaged: which of its pages is no page, which of the entries in its pages is of nothing or has parts that do not join, which plans are not those of their
//! object's expressions, and which record of its log is one of no writes.
//!
//! A store tells which part of its file is damaged, and stops there. These calls look at the device once more, for somebody who has to mend the file.
//! Nothing is written. They answer none where they find nothing, and where the device fails or memory is refused meanwhile.
#![tactic(auto)]

mod entry_search;
mod gathering;
mod marks;
mod page_search;
mod part_search;
mod place;
mod plan_search;
mod policy_name;
mod record_search;

pub use entry_search::{damaged_entry, lone_plans};
pub use page_search::damaged_page;
pub use part_search::unjoined_part;
pub use place::{Place, damaged_entry_of, damaged_page_of, damaged_plans_of, damaged_record_of};
pub use plan_search::{other_plans_in_log, other_plans_in_pages};
pub use record_search::damaged_record;
