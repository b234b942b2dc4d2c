//! Laws on histories. The functions do nothing when they run: their contracts are the laws.
ghost use Rattle.edit_sessions.specs.Laws.{EachEntryComes, EachLegalPairIsPlayed, EachPlayIsLegal};

/// Whatever the order of the sessions' turns, the journal and the replies are legal.
pub fn plays_are_legal()
    ensures { EachPlayIsLegal }
{}

/// A legal journal with its replies is what the sessions' turns give in one order: that of the versions at which the replies
/// were given, an accepted one last at its version.
pub fn legal_pairs_are_played()
    ensures { EachLegalPairIsPlayed }
{}

/// Each entry of a legal history may come behind those before it, and does what a command of its session asks.
pub fn entries_come()
    ensures { EachEntryComes }
{}
