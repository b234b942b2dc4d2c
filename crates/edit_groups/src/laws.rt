//! Laws on runs and on undo. The functions do nothing when they run: their contracts are the laws.
ghost use Rattle.edit_groups.specs.Laws.{EachRunFits, EachUndoGoesBack};

/// Where nothing stands behind what it undoes, an accepted undo gives the body of the version before that.
pub fn undos_go_back()
    ensures { EachUndoGoesBack }
{}

/// The entries of a legal run fit, each the document before it: so the law on undo speaks of every run.
pub fn runs_fit()
    ensures { EachRunFits }
{}
