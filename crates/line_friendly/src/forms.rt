//! The arguments that the forms of calls need.
ghost use Rattle.std.specs.Prelude.{◌≡◌};
ghost use Rattle.line_friendly.specs.Forms.{are_exchanged, form_near, has_text, is_one_edit, kinds_of};

use line_grammar::CallForm;

/// The kind of an argument after a form.
#[derive(Clone, Copy)]
pub(crate) enum ArgumentKind {
    /// A number.
    Number,
    /// A number, or one with a unit.
    Size,
    /// An address.
    Address,
    /// Hexadecimal digits, or text in quotes.
    Hex,
    /// The name of a service.
    Service,
}

/// Returns the kinds of the arguments after a form, in order.
pub(crate) fn kinds_of(form: CallForm) -> &'static [ArgumentKind]
    ensures { result.now ≡ kinds_of form }
{
    match form {
        CallForm::Alloc | CallForm::New | CallForm::Snew => &[ArgumentKind::Size],
        CallForm::Free
        | CallForm::Attach
        | CallForm::Capfree
        | CallForm::Upgrade
        | CallForm::Call
        | CallForm::Close => &[ArgumentKind::Number],
        CallForm::AttachAt => &[ArgumentKind::Number, ArgumentKind::Address],
        CallForm::Detach | CallForm::Del | CallForm::Sdel => &[ArgumentKind::Address],
        CallForm::Peek => &[ArgumentKind::Address, ArgumentKind::Size],
        CallForm::Poke => &[ArgumentKind::Address, ArgumentKind::Hex],
        CallForm::Capalloc
        | CallForm::Exit
        | CallForm::Quota
        | CallForm::Reserve
        | CallForm::Request
        | CallForm::Yield => &[],
        CallForm::Open => &[ArgumentKind::Service],
    }
}

/// Returns whether a text may follow the arguments of a form.
pub(crate) fn has_text(form: CallForm) -> bool
    ensures { result ≡ has_text form }
{
    matches!(
        form,
        CallForm::Open | CallForm::Upgrade | CallForm::Call | CallForm::Request | CallForm::Yield
    )
}

/// Returns the form that may be meant by an unknown token: the first that differs by one edit.
pub(crate) fn form_near(word: &[u8]) -> Option<CallForm>
    ensures { result ≡ form_near word.now }
{
    CallForm::all()
        .iter()
        .copied()
        .find(|form| is_one_edit(form.word(), word))
}

/// Returns whether two texts differ by one byte that is left out, put in or replaced, or by the order of two neighbouring bytes.
pub fn is_one_edit(meant: &[u8], written: &[u8]) -> bool
    ensures { result ≡ is_one_edit meant.now written.now }
{
    let Some((x, xs)) = meant.split_first() else {
        return written.len() == 1;
    };
    let Some((y, ys)) = written.split_first() else {
        return meant.len() == 1;
    };
    if x == y {
        return is_one_edit(xs, ys);
    }
    xs == ys || xs == written || meant == ys || are_exchanged(meant, written)
}

// Returns whether two texts differ by the order of their first two bytes alone.
fn are_exchanged(meant: &[u8], written: &[u8]) -> bool
    ensures { result ≡ are_exchanged meant.now written.now }
{
    let [first, second, xs @ ..] = meant else {
        return false;
    };
    let [other, next, ys @ ..] = written else {
        return false;
    };
    first == next && second == other && xs == ys
}
