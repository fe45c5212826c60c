//! Theorems on answers: the answers computed from the call history equal those of the running states, and depend on the
//! caller's own part only.
ghost use Rattle.own_model.specs.Theorems.{TranscriptIsRunning, StatesAreOwnRuns, StatesOverFirst, StatesOverLast, StatesKeepLength, InitsOverFirst, InitsOverLast, OutputOverFirst, OutputOverLast, EqualPartsEqualStates, EqualPartsEqualAnswers};
ghost use Rattle.own_model.specs.LinesOfName.{PiecesAreOutput, PiecesAreIndependent, StateIsIndependent};

/// States that the transcript, whose answers are computed from the history of calls, equals the output of the running
/// states.
pub fn transcript_is_running()
    ensures { TranscriptIsRunning }
{}

/// States that each running state is the component's own run over its own part of the calls.
pub fn states_are_own_runs()
    ensures { StatesAreOwnRuns }
{}

/// States that a line is one step of the running states, both at the start and at the end of a list of lines.
pub fn states_over_a_line()
    ensures first { StatesOverFirst }
    ensures last { StatesOverLast }
    ensures count { StatesKeepLength }
{}

/// States that the accounts of inits also advance line by line.
pub fn inits_over_a_line()
    ensures first { InitsOverFirst }
    ensures last { InitsOverLast }
{}

/// States that the output for a list of lines is that of the first line, followed by that of the others. The others start
/// from the states after the first.
pub fn output_over_a_line()
    ensures first { OutputOverFirst }
    ensures last { OutputOverLast }
{}

/// States that two lists of calls with equal parts for a component leave the component equal own states.
pub fn equal_parts_equal_states()
    ensures { EqualPartsEqualStates }
{}

/// States that a component's call has the same answer after any two lists of calls with equal parts for the component.
pub fn equal_parts_equal_answers()
    ensures { EqualPartsEqualAnswers }
{}

/// States isolation: the output for one component's lines alone is that component's part of the transcript of all lines.
/// The same holds for the component's own state.
pub fn lines_are_independent()
    ensures told { PiecesAreOutput }
    ensures alone { PiecesAreIndependent }
    ensures state { StateIsIndependent }
{}
