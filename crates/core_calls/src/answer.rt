//! The answer to a call: its outcome and the text of its reply.
ghost use Rattle.std.specs.Prelude.{◌≡◌};
ghost use Rattle.core_calls.specs.Outcome.{rendering};

use crate::outcome::Outcome;

/// An answer to a call: the outcome, and the text of the reply, which is the outcome's rendering.
#[derive(Clone, Copy)]
pub struct Answer<'a> {
    pub outcome: Outcome,
    pub text: &'a [u8],
    ghost rendered: { text.now ≡ rendering outcome text.now },
}
