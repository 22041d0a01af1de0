//! Dropping lists whose items hold the items before them.

/// Drops the items from the last to the first. If each item holds only items before it, each drop leaves those alive,
/// so a long chain takes no more stack than a short one. Public only for the crate above.
pub fn drop_last_first<T: Drop>(mut items: Vec<T>) {
    for _ in 0..items.len() {
        if let Some(last) = items.pop() {
            drop(last);
        }
    }
}
