//! Refusals of which the client is told, so that it can count them.

ghost use Rattle.std.specs.Prelude.{◌≡◌};

use client_api::Client;

/// Tells the client of a refusal that came before it was asked, where it has a code.
pub fn tell_refused<C: Client>(client: &mut C, method: &str, code: Option<u16>)
    ensures pass { C.pass client.new ≡ C.pass client.old }
    ensures facts { C.facts client.new ≡ C.facts client.old }
    ensures kept { C.whole client.old → C.whole client.new }
{
    if let Some(code) = code {
        client.refused(method, code);
    }
}
