//! A law on runs. The function does nothing when it runs: its contract is the law.
ghost use Rattle.carriage_model.specs.Unseen.{LastsAreUnseen};

/// A run without a limit on floats that kept last needles all the same would make the same loops and have the same verdict.
pub fn lasts_are_unseen()
    ensures { LastsAreUnseen }
{}
