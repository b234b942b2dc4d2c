//! A law on conversations. The function does nothing when it runs: its contract is the law.
ghost use Rattle.talk_desk.specs.LegalConversations.{EachTalkIsLegal};

/// Whatever lines are heard, and whatever may be answered to them: the journal and the replies are a legal history.
pub fn talks_are_legal()
    ensures { EachTalkIsLegal }
{}
