//! Laws on what is due. The functions do nothing when they run: their contracts are the laws.
ghost use Rattle.input_answers.specs.SavedLaws.{EachSaveReplays};

/// What `save` writes is a saved text: `replay` of it tells the verdict at the end of that very journal.
pub fn saved_replays()
    ensures { EachSaveReplays }
{}
