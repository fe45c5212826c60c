//! Theorems about every scenario.
ghost use Rattle.run_scenario.specs.LineSteps.{BareLinesStay};

/// States that lines without `$` that are no directives are run unchanged, numbered one after another.
pub fn bare_lines_stay()
    ensures { BareLinesStay }
{}
