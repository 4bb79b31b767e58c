//! What a test says of a call of which a request may be refused.

/// The answer that `Rationed::refuse_each` asks for: nothing if a request was refused and the call
/// did what it should then; else whether it did what it should.
pub(crate) fn unless_refused(is_right: bool, is_refused: bool) -> Option<bool> {
    if is_right && is_refused {
        None
    } else {
        Some(is_right)
    }
}
