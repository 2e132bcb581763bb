//! What a question on messages (`record_question`) has to do with rules.

ghost use Rattle.promises.specs.QuestionLaws.{TestsSeeNoClass, FindsWhatIsKept};

/// A test never looks at the open classes. So a question has the truth that rules have, whatever the plan.
pub fn tests_see_no_class()
    ensures { TestsSeeNoClass }
{}

/// A question finds exactly the messages that the rule `if TEST { keep; } else { discard; }` keeps, whatever classes are
/// open and whatever scripts there are beside it.
pub fn a_question_finds_what_a_rule_keeps()
    ensures { FindsWhatIsKept }
{}
