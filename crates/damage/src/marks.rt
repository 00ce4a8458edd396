//! The first bytes of keys in the pages, beside that of objects.

/// With this byte the keys of plans begin.
pub(crate) const PLANS_MARK: u8 = 2;

/// With this byte the keys of events begin.
pub(crate) const EVENT_MARK: u8 = 3;
