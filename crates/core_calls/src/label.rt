//! The label of a session.
ghost use Rattle.std.specs.Prelude.{◌≡◌, ◌+◌, ◌≤◌, length};
ghost use Rattle.own_model.specs.Routes.{label_with};

use arrayvec::ArrayVec;

/// The most bytes of a session's label: four names of 32 bytes and a client's label of 64 bytes, separated by arrows of 4
/// bytes.
pub const LONGEST_LABEL: usize = 208;

/// The most bytes of the label under which a component opens sessions: four names of 32 bytes, separated by ` -> `.
pub const LONGEST_CLIENT: usize = 140;

/// Returns the name, an arrow and the given label, or the name alone if the given label is empty.
pub fn label_of(name: &[u8], given: &[u8]) -> ArrayVec<u8, LONGEST_LABEL>
    requires { length name.now + 4 + length given.now ≤ LONGEST_LABEL }
    ensures label { result.items ≡ label_with name.now given.now }
    ensures len { length result.items ≤ LONGEST_LABEL }
{
    let mut label = ArrayVec::<u8, LONGEST_LABEL>::new();
    let _ = label.try_extend_from_slice(name);
    if !given.is_empty() {
        let _ = label.try_extend_from_slice(b" -> ");
        let _ = label.try_extend_from_slice(given);
    }
    label
}
