//! The HTTP status of each refusal that comes before a client is asked. Want of memory has none, since nobody is told.

ghost use Rattle.std.specs.Prelude.{◌≡◌};
ghost use Rattle.api_errors.specs.Failures.{code_told};
ghost use Rattle.api_errors.specs.Options.{list_told, token_told, watch_told};
ghost use Rattle.api_errors.specs.Requests.{request_told};
ghost use Rattle.api_errors.specs.Routes.{object_told, route_told, transaction_failure};
ghost use Rattle.api_errors.specs.Selectors.{field_told, label_told, selector_told};

use crate::Reason;
use field_select::FieldNo;
use http_read::ReqNo;
use json_obj::ObjNo;
use label_select::LabelNo;
use list_rules::{AskNo, TokenNo};
use route_req::{RouteNo, TxTextNo, Unserved};
use select_all::SelNo;
use watch_rules::WatchNo;

/// That of the reply to bytes that are no request.
pub fn request_code(fault: ReqNo) -> Option<u16>
    ensures { result ≡ code_told (request_told fault) }
{
    match fault {
        ReqNo::Malformed => Some(Reason::BadRequest.code()),
        ReqNo::HeadTooLong | ReqNo::TooManyHeaders | ReqNo::BodyTooLong => {
            Some(Reason::RequestEntityTooLarge.code())
        }
        ReqNo::NeedsLength => Some(Reason::LengthRequired.code()),
        ReqNo::CutShort | ReqNo::ReadFault | ReqNo::Memory => None,
    }
}

/// That of the reply to a request that has no route.
pub fn route_code(fault: RouteNo) -> Option<u16>
    ensures { result ≡ code_told (route_told fault) }
{
    match fault {
        RouteNo::ForeignSite => Some(Reason::Forbidden.code()),
        RouteNo::MediaType => Some(Reason::UnsupportedMediaType.code()),
        RouteNo::NoPath => Some(Reason::NotFound.code()),
        RouteNo::NoMethod => Some(Reason::MethodNotAllowed.code()),
        RouteNo::Unserved(Unserved::DryRun | Unserved::Preconditions) => {
            Some(Reason::BadRequest.code())
        }
        RouteNo::Selector(fault) => selector_code(fault),
        RouteNo::List(fault) => list_code(fault),
        RouteNo::Watch(fault) => watch_code(fault),
        RouteNo::Object(fault) => object_code(fault),
        RouteNo::Operation => Some(Reason::BadRequest.code()),
        RouteNo::Transaction(fault) => transaction_code(fault),
        RouteNo::Memory => None,
    }
}

fn selector_code(fault: SelNo) -> Option<u16>
    ensures { result ≡ code_told (selector_told fault) }
{
    match fault {
        SelNo::Label(fault) => label_code(fault),
        SelNo::Field(fault) => field_code(fault),
        SelNo::Memory => None,
    }
}

fn label_code(fault: LabelNo) -> Option<u16>
    ensures { result ≡ code_told (label_told fault) }
{
    match fault {
        LabelNo::Syntax { .. } | LabelNo::BadKey { .. } | LabelNo::BadValue { .. } => {
            Some(Reason::BadRequest.code())
        }
        LabelNo::EmptySet { .. } | LabelNo::TooLong => Some(Reason::BadRequest.code()),
        LabelNo::Memory => None,
    }
}

fn field_code(fault: FieldNo) -> Option<u16>
    ensures { result ≡ code_told (field_told fault) }
{
    match fault {
        FieldNo::Syntax { .. } | FieldNo::UnknownField { .. } | FieldNo::TooLong => {
            Some(Reason::BadRequest.code())
        }
        FieldNo::Memory => None,
    }
}

fn list_code(fault: AskNo) -> Option<u16>
    ensures { result ≡ code_told (list_told fault) }
{
    match fault {
        AskNo::BadRevision | AskNo::RevisionWithContinue | AskNo::BadLimit => {
            Some(Reason::BadRequest.code())
        }
        AskNo::BadMatch | AskNo::MatchNeedsRevision | AskNo::ExactZero => {
            Some(Reason::Invalid.code())
        }
        AskNo::MatchWithContinue | AskNo::InitialEventsOnList => Some(Reason::Invalid.code()),
        AskNo::BadContinue(fault) => token_code(fault),
        AskNo::Memory => None,
    }
}

fn token_code(fault: TokenNo) -> Option<u16>
    ensures { result ≡ code_told (token_told fault) }
{
    match fault {
        TokenNo::NotToken | TokenNo::OtherList => Some(Reason::BadRequest.code()),
        TokenNo::Memory => None,
    }
}

fn watch_code(fault: WatchNo) -> Option<u16>
    ensures { result ≡ code_told (watch_told fault) }
{
    match fault {
        WatchNo::BadRevision | WatchNo::BadTimeout => Some(Reason::BadRequest.code()),
        WatchNo::MatchWithoutInitial | WatchNo::InitialNeedsNotOlder => {
            Some(Reason::Invalid.code())
        }
    }
}

fn object_code(fault: ObjNo) -> Option<u16>
    ensures { result ≡ code_told (object_told fault) }
{
    match fault {
        ObjNo::NotJson | ObjNo::Float | ObjNo::TooDeep | ObjNo::WrongKind | ObjNo::BadMeta => {
            Some(Reason::BadRequest.code())
        }
        ObjNo::Memory => None,
    }
}

fn transaction_code(fault: TxTextNo) -> Option<u16>
    ensures { result ≡ code_told (transaction_failure fault) }
{
    match fault {
        TxTextNo::NotJson | TxTextNo::Float | TxTextNo::TooDeep | TxTextNo::NotList => {
            Some(Reason::BadRequest.code())
        }
        TxTextNo::Empty | TxTextNo::TooManyItems => Some(Reason::BadRequest.code()),
        TxTextNo::BadItem { .. } | TxTextNo::BadObject { .. } | TxTextNo::Repeated { .. } => {
            Some(Reason::BadRequest.code())
        }
        TxTextNo::Memory => None,
    }
}
