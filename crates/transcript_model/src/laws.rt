//! Laws of the definitions in `specs/`, each the contract of a function that does nothing.
ghost use Rattle.transcript_model.specs.Examples.{TranscriptExamples};
ghost use Rattle.transcript_model.specs.Laws.{PlacesAreExact, CallsNameInstances, LongerKeeps, LegalGrows, RequestsAddRequests, AnswersAddAnswers, MarksAddNothing, NumbersAreOwn, RequestsAskInstances, NoRequestIsMadeTwice, RequestsHaveNames, CertifiedObjectsHaveNames, WhatIsKnownIsCoherent};

/// In a table of distinct names exactly these objects have these names.
pub fn places_are_exact()
    ensures { PlacesAreExact }
{}

/// The call that shows an instance stands for that instance.
pub fn calls_name_instances()
    ensures { CallsNameInstances }
{}

/// A longer transcript keeps the numbers of names, the requests, the facts, the values and the
/// notes.
pub fn longer_keeps()
    ensures { LongerKeeps }
{}

/// The front of a legal transcript is legal, and so is a legal transcript with one entry more that
/// may follow.
pub fn legal_grows()
    ensures { LegalGrows }
{}

/// A request that may follow changes nothing of what is known and noted, and is open.
pub fn requests_add_requests()
    ensures { RequestsAddRequests }
{}

/// Behind what was known and noted an answer puts what it certifies and tells, and closes its
/// request.
pub fn answers_add_answers()
    ensures { AnswersAddAnswers }
{}

/// An entry that is neither a request nor an answer changes nothing.
pub fn marks_add_nothing()
    ensures { MarksAddNothing }
{}

/// Each request of a legal transcript has a number of its own.
pub fn numbers_are_own()
    ensures { NumbersAreOwn }
{}

/// Each number up to the count of requests asks an instance of a stream of the task.
pub fn requests_ask_instances()
    ensures { RequestsAskInstances }
{}

/// No instance is asked twice after equally many tuples.
pub fn no_request_is_made_twice()
    ensures { NoRequestIsMadeTwice }
{}

/// An instance that was asked is of a stream of the task, and its inputs are in the table of names.
pub fn requests_have_names()
    ensures { RequestsHaveNames }
{}

/// What a stream's answers certify is of objects in the table of names.
pub fn certified_objects_have_names()
    ensures { CertifiedObjectsHaveNames }
{}

/// What is known after a legal transcript has each name, each fact and each value once, and its
/// facts are of objects with names.
pub fn what_is_known_is_coherent()
    ensures { WhatIsKnownIsCoherent }
{}

/// The worked examples of the definitions hold.
pub fn examples_hold()
    ensures { TranscriptExamples }
{}
