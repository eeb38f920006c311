//! The reasons of failures.

ghost use Rattle.std.specs.Prelude.{◌≡◌};

/// Why a request failed, in the words of a Status.
#[derive(Clone, Copy, Debug, PartialEq, Eq)]
pub enum Reason {
    BadRequest,
    Forbidden,
    NotFound,
    MethodNotAllowed,
    AlreadyExists,
    Conflict,
    Expired,
    LengthRequired,
    RequestEntityTooLarge,
    UnsupportedMediaType,
    Invalid,
    InternalError,
    Timeout,
}

impl Reason {
    ghost use Rattle.api_errors.specs.Reasons.{code_of, reason_word, is_too_large};

    /// The HTTP status code of the failure.
    pub fn code(self) -> u16
        ensures { result ≡ code_of self }
    {
        match self {
            Reason::BadRequest => 400,
            Reason::Forbidden => 403,
            Reason::NotFound => 404,
            Reason::MethodNotAllowed => 405,
            Reason::AlreadyExists | Reason::Conflict => 409,
            Reason::Expired => 410,
            Reason::LengthRequired => 411,
            Reason::RequestEntityTooLarge => 413,
            Reason::UnsupportedMediaType => 415,
            Reason::Invalid => 422,
            Reason::InternalError => 500,
            Reason::Timeout => 504,
        }
    }

    /// The word itself, as `NotFound`.
    pub fn text(self) -> &'static str
        ensures { result.now ≡ reason_word self }
    {
        match self {
            Reason::BadRequest => "BadRequest",
            Reason::Forbidden => "Forbidden",
            Reason::NotFound => "NotFound",
            Reason::MethodNotAllowed => "MethodNotAllowed",
            Reason::AlreadyExists => "AlreadyExists",
            Reason::Conflict => "Conflict",
            Reason::Expired => "Expired",
            Reason::LengthRequired => "LengthRequired",
            Reason::RequestEntityTooLarge => "RequestEntityTooLarge",
            Reason::UnsupportedMediaType => "UnsupportedMediaType",
            Reason::Invalid => "Invalid",
            Reason::InternalError => "InternalError",
            Reason::Timeout => "Timeout",
        }
    }

    /// Whether the resource version that was asked for isn't reached yet, so that the client may ask
    /// again in a second.
    pub fn is_too_large(self) -> bool
        ensures { result ≡ is_too_large self }
    {
        self == Reason::Timeout
    }
}
