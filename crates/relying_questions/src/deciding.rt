//! The questions decide the verdict, what a search finds, and why it finds nothing.

ghost use Rattle.relying_questions.specs.Agreement.{FindingPrintsDecide, FindingQuestionsDecide, PrintsDecide, QuestionsDecide, WhyNotPrintsDecide, WhyNotQuestionsDecide};

/// Verifiers that answer each question about a path and statements alike give the same verdict, whatever else they accept. So whoever
/// answers the questions that `questions` lists, and hands the fingerprints of those that are answered by yes to a `ListVerifier`, gets the
/// verdict, unless a question that is answered by no has the fingerprint of another.
pub fn question_laws()
    ensures decide { QuestionsDecide }
    ensures prints { PrintsDecide }
{}

/// The same of what a search finds by statements, and of the questions that `finding_questions` lists.
pub fn finding_question_laws()
    ensures decide { FindingQuestionsDecide }
    ensures prints { FindingPrintsDecide }
{}

/// The same of why a search finds no path, as `path_search::why_not` says: the statements do not matter there.
pub fn why_not_question_laws()
    ensures decide { WhyNotQuestionsDecide }
    ensures prints { WhyNotPrintsDecide }
{}
