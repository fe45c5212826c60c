//! Theorems on the log service: how bytes become lines.
ghost use Rattle.own_model.specs.LogService.{WritesAreLines, WritesAddUp};

/// States that written bytes become finished lines of at most 200 bytes without a newline, and one shorter unfinished
/// line. The division of the bytes into requests makes no difference.
pub fn writes_are_lines()
    ensures lines { WritesAreLines }
    ensures parted { WritesAddUp }
{}
