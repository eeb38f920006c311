//! The laws.

ghost use Rattle.laws.specs.Determined.{RepliesAreDetermined};
ghost use Rattle.laws.specs.Answered.{RequestsAreServed, RequestsAreServedAlone};
ghost use Rattle.laws.specs.Loads.{FiguresAreDetermined};

use route_req::{answers_agree, refusals_agree, routes_are_not_refused};
use sess_serve::{ends_are_exact, sessions_settle};

/// Over each session, a request gets its 200, its 201 or its stream, unless what it names isn't reached or isn't kept,
/// or the log refuses its write.
pub fn requests_are_served()
    ensures { RequestsAreServed }
{
    answers_agree();
    routes_are_not_refused();
}

/// Where nobody else holds the log, a request gets them if the log as it stands before it has what the request names,
/// and takes its write.
pub fn requests_are_served_alone()
    ensures { RequestsAreServedAlone }
{
    answers_agree();
    routes_are_not_refused();
}

/// Where nobody else holds the log, the same requests, each of which is answered by a reply, have the same replies, and
/// make the same log of the same log.
pub fn replies_are_determined()
    ensures { RepliesAreDetermined }
{
    answers_agree();
    refusals_agree();
    routes_are_not_refused();
}

/// Two loads of the same draws have the same figures.
pub fn figures_are_determined()
    ensures { FiguresAreDetermined }
{
    replies_are_determined();
    sessions_settle();
    ends_are_exact();
}
