//! Theorems on session arguments.
ghost use Rattle.own_model.specs.SessionArgs.{ArgumentsAreReadBack};

/// States that arguments are printed in one form, and that parsing this form returns them. RAM has 64 bits, capabilities
/// have 32 bits, and a label has at most 64 quotable bytes.
pub fn arguments_are_read_back()
    ensures { ArgumentsAreReadBack }
{}
