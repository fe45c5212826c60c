//! Two tries of the same, of which one may be out of memory: any one allocation is refused (`rt try --test --fail-alloc N`).

/// Returns whether one of two tries succeeded, and the other did too or was out of memory. A try that was out of memory has no
/// answer, and any other try has whether it succeeded.
pub fn one_is_as_usual(first: Option<bool>, second: Option<bool>) -> bool {
    matches!(
        (first, second),
        (Some(true), None | Some(true)) | (None, Some(true))
    )
}
