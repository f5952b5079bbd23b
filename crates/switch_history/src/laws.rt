//! Laws of a run of the switch. A call costs nothing and tells its caller the law.
ghost use Rattle.switch_history.specs.Answering.{CallsAreAnsweredOnce};
ghost use Rattle.switch_history.specs.AskedOnce.{AnswersAreNoMoreThanAsks};
ghost use Rattle.switch_history.specs.Asks.{AsksAreAnsweredOnce};
ghost use Rattle.switch_history.specs.Ends.{EndsAreRouted};
ghost use Rattle.switch_history.specs.Laws.{AnswersAreAsked, CallsComeInOrder, FetchesAreNumbered, PostsFit, RequestsAreAnswered};
ghost use Rattle.switch_history.specs.Lines.{LeftHasItsLine};
ghost use Rattle.switch_history.specs.Moments.{MomentsAreInRange};
ghost use Rattle.switch_history.specs.Opened.{FetchesAreOpen};
ghost use Rattle.switch_history.specs.Placed.{PostsArePlaced};
ghost use Rattle.switch_history.specs.Unknown.{UnknownIsOnlyAnswered};

/// An answer is posted to the object that asked for it alone.
pub fn answers_are_asked()
    ensures { AnswersAreAsked }
{}

/// The calls of an object are posted once each, in the order in which they were routed.
pub fn calls_come_in_order()
    ensures { CallsComeInOrder }
{}

/// A request is posted to the object that it names, or answered at once.
pub fn requests_are_answered()
    ensures { RequestsAreAnswered }
{}

/// Fetches are numbered 1, 2, 3 and on.
pub fn fetches_are_numbered()
    ensures { FetchesAreNumbered }
{}

/// What is posted to a slot fits its object. One whose object is of no class of the script must be posted no answer.
pub fn posts_fit()
    ensures { PostsFit }
{}

/// No line tells of an end but those of routed messages that do.
pub fn ends_are_routed()
    ensures { EndsAreRouted }
{}

/// Where the ticks of lines are in range, so are the moments of what is posted.
pub fn moments_are_in_range()
    ensures { MomentsAreInRange }
{}

/// Each accepted call has exactly one line, or is left, where each object serves each of its callers once.
pub fn calls_are_answered_once()
    ensures { CallsAreAnsweredOnce }
{}

/// Each call and fetch of an object that was routed got exactly one answer, or is left, or is a fetch that is open.
pub fn asks_are_answered_once()
    ensures { AsksAreAnsweredOnce }
{}

/// Each event is posted to a slot that has an object, and each call of an object comes from one that has one.
pub fn posts_are_placed()
    ensures { PostsArePlaced }
{}

/// No call or fetch is posted more answers than it was routed times, where nobody is replied to more often than he called.
pub fn answers_are_no_more_than_asks()
    ensures { AnswersAreNoMoreThanAsks }
{}

/// A slot whose object is of no class of the script is posted answers alone.
pub fn unknown_is_only_answered()
    ensures { UnknownIsOnlyAnswered }
{}

/// A fetch that was routed and got no answer is open.
pub fn fetches_are_open()
    ensures { FetchesAreOpen }
{}

/// Each request that is left has exactly one line, and so has each accepted call in the end.
pub fn left_has_its_line()
    ensures { LeftHasItsLine }
{}
