//! Laws over the definitions alone, each the contract of a call without a body.
ghost use Rattle.script_core.specs.Laws.{DecidedByPrefix};

/// States that a reader may stop one byte after the most that a script may have.
pub fn long_texts()
    ensures { DecidedByPrefix }
{}
