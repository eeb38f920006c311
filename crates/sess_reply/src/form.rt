//! The form in which a request wants objects.

ghost use Rattle.std.specs.Prelude.{◌≡◌};
ghost use Rattle.sess_reply.specs.Replies as spec;

use http_read::Req;
use meta_view::{Form, wants_metadata};

/// The form in which a request wants objects: whole, unless its first Accept field asks for metadata alone. Gets, lists
/// and watches heed it.
pub fn form_of(req: &Req) -> Form
    ensures { result ≡ spec.form_of req.now }
{
    match &req.accept {
        Some(accept) => form_where(wants_metadata(accept.as_str().as_bytes())),
        None => Form::Whole,
    }
}

fn form_where(metadata: bool) -> Form
    ensures { result ≡ spec.form_where metadata }
{
    if metadata {
        Form::Metadata
    } else {
        Form::Whole
    }
}
