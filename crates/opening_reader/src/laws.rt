//! A law on openings. The function does nothing when it runs: its contract is the law.
ghost use Rattle.opening_reader.specs.Laws.{OneOpening};

/// Lines begin with one opening at most, which is of one kind and has one text.
pub fn openings_are_one()
    ensures { OneOpening }
{}
