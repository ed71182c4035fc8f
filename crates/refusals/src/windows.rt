// `window_of`: the part of a list from a start on.
use crate::table::Row;

// Whether the part of the list's first entries has as many entries as the row says, and those from the start on.
pub(crate) fn is_as_ordered(row: Row, list: &[u32]) -> bool {
    let start = row.first.0 as usize;
    let Some(entries) = list.get(..row.length) else {
        return false;
    };
    let part = lists::window_of(entries, start, row.window);
    if row.below == 0 {
        return part.is_empty();
    }
    let right = list
        .get(start..)
        .and_then(|rest| rest.get(..row.below as usize));
    right == Some(part)
}
