//! The requests that are drawn.

ghost use Rattle.std.specs.Prelude.{◌≡◌, ◌++◌, OnOk, IfOk, codes};
ghost use Rattle.load_gen.specs.Draws.{next, drawn};
ghost use Rattle.load_gen.specs.Requests.{action_of, host, list_request, numbered, object_text, request_text, start, text_for, with_body};
ghost use Rattle.load_gen.specs.declared.requests.Action.TheVariants as action;

use crate::draws::Draws;
use itoa::Buffer;
use kube_meta::Memory;
use std::alloc::Global;

/// What a request is for.
#[derive(Clone, Copy, Debug, PartialEq, Eq)]
pub enum Action {
    /// To create an object.
    Create,
    /// To replace one.
    Replace,
    /// To remove one.
    Remove,
    /// To list the objects of a group.
    List,
}

/// A request that is drawn, with the number of its object and that of the group that labels it.
#[derive(Clone, Copy, Debug, PartialEq, Eq)]
pub struct LoadRequest {
    pub action: Action,
    pub object: u64,
    pub group: u64,
}

// What a draw among ten values is for.
fn action_of(draw: u64) -> Action
    ensures { result ≡ action_of draw }
{
    match draw {
        0..=4 => Action::Create,
        5..=7 => Action::Replace,
        8 => Action::Remove,
        _ => Action::List,
    }
}

impl LoadRequest {
    /// Draws the next request.
    pub(crate) fn drawn(draws: &mut Draws) -> LoadRequest
        ensures state { draws.new.state ≡ next (next (next draws.old.state)) }
        ensures action { result.action ≡ action_of (drawn (next draws.old.state) 10) }
        ensures object { result.object ≡ drawn (next (next draws.old.state)) 200 }
        ensures group { result.group ≡ drawn (next (next (next draws.old.state))) 4 }
    {
        let action = action_of(draws.draw(10));
        let object = draws.draw(200);
        let group = draws.draw(4);
        LoadRequest {
            action,
            object,
            group,
        }
    }

    /// The object that is created, or that replaces another.
    #[tactic(auto, unfolding(crate::specs::Requests::object_text))]
    fn object_text(&self, alloc: Global) -> Result<Vec<u8>, Memory>
        ensures { IfOk result (λ text. text.items ≡ object_text self.now) }
    {
        let mut text = Vec::new(alloc);
        put_numbered(
            &mut text,
            b"{\"metadata\":{\"labels\":{\"g\":\"",
            self.group,
        )?;
        put_numbered(&mut text, b"\"},\"name\":\"p-", self.object)?;
        text.extend_from_slice(b"\"}}")?;
        Ok(text)
    }

    /// Puts the request at the end of some bytes.
    #[tactic(auto, unfolding(crate::specs::Requests::request_text))]
    pub(crate) fn put(&self, alloc: Global, bytes: &mut Vec<u8>) -> Result<(), Memory>
        ensures { OnOk result (bytes.new.items ≡ bytes.old.items ++ request_text self.now) }
    {
        match self.action {
            Action::Create => {
                put_start(bytes, b"POST")?;
                self.put_object(alloc, bytes)
            }
            Action::Replace => {
                put_start(bytes, b"PUT")?;
                put_numbered(bytes, b"/p-", self.object)?;
                self.put_object(alloc, bytes)
            }
            Action::Remove => {
                put_start(bytes, b"DELETE")?;
                put_numbered(bytes, b"/p-", self.object)?;
                put_bare(bytes)
            }
            Action::List => self.put_query(bytes),
        }
    }

    // A list.
    fn put_query(&self, bytes: &mut Vec<u8>) -> Result<(), Memory>
        ensures { OnOk result (bytes.new.items ≡ bytes.old.items ++ text_for action.List self.now) }
    {
        put_start(bytes, b"GET")?;
        put_numbered(bytes, b"?labelSelector=g%3D", self.group)?;
        put_bare(bytes)
    }

    // The rest of a head, and the object.
    fn put_object(&self, alloc: Global, bytes: &mut Vec<u8>) -> Result<(), Memory>
        ensures { OnOk result (bytes.new.items ≡ bytes.old.items ++ (host ++ with_body (object_text self.now))) }
    {
        let object = self.object_text(alloc)?;
        put(bytes, b" HTTP/1.1\r\nHost: load\r\n")?;
        put_numbered(bytes, b"Content-Length: ", object.len() as u64)?;
        put(bytes, b"\r\n\r\n")?;
        put(bytes, object.as_slice())
    }
}

/// Puts the request that lists all.
pub(crate) fn put_list(bytes: &mut Vec<u8>) -> Result<(), Memory>
    ensures { OnOk result (bytes.new.items ≡ bytes.old.items ++ list_request) }
{
    put_start(bytes, b"GET")?;
    put_bare(bytes)
}

// Some bytes.
fn put(bytes: &mut Vec<u8>, text: &[u8]) -> Result<(), Memory>
    ensures { OnOk result (bytes.new.items ≡ bytes.old.items ++ text.now) }
{
    bytes.extend_from_slice(text)?;
    Ok(())
}

// A method, and the path of all pods of the namespace.
fn put_start(bytes: &mut Vec<u8>, method: &[u8]) -> Result<(), Memory>
    ensures { OnOk result (bytes.new.items ≡ bytes.old.items ++ start method.now) }
{
    bytes.extend_from_slice(method)?;
    bytes.extend_from_slice(b" /api/v1/namespaces/load/pods")?;
    Ok(())
}

// A text and a number.
fn put_numbered(bytes: &mut Vec<u8>, text: &[u8], number: u64) -> Result<(), Memory>
    ensures { OnOk result (bytes.new.items ≡ bytes.old.items ++ numbered text.now number) }
{
    let mut digits = Buffer::new();
    bytes.extend_from_slice(text)?;
    bytes.extend_from_slice(digits.format(number).as_bytes())?;
    Ok(())
}

// The rest of a head that has no body.
fn put_bare(bytes: &mut Vec<u8>) -> Result<(), Memory>
    ensures { OnOk result (bytes.new.items ≡ bytes.old.items ++ (host ++ codes "\r\n")) }
{
    bytes.extend_from_slice(b" HTTP/1.1\r\nHost: load\r\n\r\n")?;
    Ok(())
}
