// The most entries that a list may have (document 01, "Lists").
pub const LIST_LIMIT: usize = 65536;
