//! Laws of what an object's messages name. A call costs nothing and tells its caller the law.
ghost use Rattle.object_messages.specs.Dropped.{DropsAreAnswered};
ghost use Rattle.object_messages.specs.Ends.{EndsAreNeeded, UnendedPassAsTaken};
ghost use Rattle.object_messages.specs.Exact.{LeftIsEach, PassedIsAll, PassedNamesTaken, RepliesAreExact, RepliesNameCallers};
ghost use Rattle.object_messages.specs.Fetches.{AnswersAreOwn, LeftFetchesAreOpen, NewestPassesWhole};
ghost use Rattle.object_messages.specs.Laws.{EarlyIsUnasked, NumbersAreGiven, NumbersAscend, PassedIsTaken, RepliesAreOwed};
ghost use Rattle.object_messages.specs.Unmoved.{AnswersMoveNothing, UnmovedSaysNothing};

/// Each call and fetch that was sent has a number that was given.
pub fn numbers_are_given()
    ensures { NumbersAreGiven }
{}

/// No number is given twice: they ascend.
pub fn numbers_ascend()
    ensures { NumbersAscend }
{}

/// An answer that comes too early answers nothing that was sent.
pub fn early_is_unasked()
    ensures { EarlyIsUnasked }
{}

/// An answer that is dropped is one of an ended incarnation, or another was delivered to the same call or fetch.
pub fn drops_are_answered()
    ensures { DropsAreAnswered }
{}

/// Nobody gets more replies than he made calls.
pub fn replies_are_owed()
    ensures { RepliesAreOwed }
{}

/// What passes names what was taken.
pub fn passed_is_taken()
    ensures { PassedIsTaken }
{}

/// Who called once got one reply, or is left by the newest incarnation.
pub fn replies_are_exact()
    ensures { RepliesAreExact }
{}

/// An idle object leaves each call that it hasn't answered, once, and then each that is deferred.
pub fn left_is_each()
    ensures { LeftIsEach }
{}

/// Each reply that was taken passes.
pub fn passed_is_all()
    ensures { PassedIsAll }
{}

/// Where no incarnation has ended, nothing that was sent tells of an end.
pub fn ends_are_needed()
    ensures { EndsAreNeeded }
{}

/// Where no incarnation stopped, what passes tells of an end only where what was taken does.
pub fn unended_pass_as_taken()
    ensures { UnendedPassAsTaken }
{}

/// Who is replied to is one who called, exactly he.
pub fn replies_name_callers()
    ensures { RepliesNameCallers }
{}

/// What passes replies to whom what was taken does.
pub fn passed_names_taken()
    ensures { PassedNamesTaken }
{}

/// Who was given nothing says nothing to others.
pub fn unmoved_says_nothing()
    ensures { UnmovedSaysNothing }
{}

/// Nor who was given nothing but answers.
pub fn answers_move_nothing()
    ensures { AnswersMoveNothing }
{}

/// Where an idle object leaves a call at a fetch, that one was said and isn't answered.
pub fn left_fetches_are_open()
    ensures { LeftFetchesAreOpen }
{}

/// An answer is delivered to the incarnation that it names.
pub fn answers_are_own()
    ensures { AnswersAreOwn }
{}

/// What was taken of an incarnation that hasn't stopped passes as it is.
pub fn newest_passes_whole()
    ensures { NewestPassesWhole }
{}
