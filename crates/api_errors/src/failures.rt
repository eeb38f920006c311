//! What a refusal is told, and the refusals that several calls share.

ghost use Rattle.std.specs.Prelude.{◌≡◌, ◌++◌, IfOk, Some, decimal};
ghost use Rattle.api_errors.specs.Failures as spec;

use crate::Reason;
use json_obj::Refusal;
use kube_meta::{Memory, Resource, Text};
use std::alloc::Global;

/// What a refusal is told.
#[derive(Debug, Drop)]
pub struct Failure {
    pub reason: Reason,
    pub message: Text,
}

impl Failure {
    ghost use Rattle.api_errors.specs.Failures.{failure_status};

    /// The same for a Status.
    pub fn into_refusal(self, alloc: Global) -> Result<Refusal, Memory>
        ensures { IfOk result (λ refusal. refusal ≡ failure_status self) }
    {
        Ok(Refusal {
            code: self.reason.code(),
            reason: Text::new(alloc, self.reason.text())?,
            message: self.message,
            too_large: self.reason.is_too_large(),
        })
    }
}

// A message that is told as it stands.
pub(crate) fn say(alloc: Global, reason: Reason, message: &str) -> Result<Option<Failure>, Memory>
    ensures { IfOk result (λ told. told ≡ spec.say reason message.now) }
{
    let message = Text::new(alloc, message)?;
    Ok(Some(Failure { reason, message }))
}

// A message that ends in a place or an item's number.
pub(crate) fn say_at(
    alloc: Global,
    reason: Reason,
    message: &str,
    at: u64,
) -> Result<Option<Failure>, Memory>
    ensures { IfOk result (λ told. told ≡ spec.say_at reason message.now at) }
{
    let message = Text::from_string(format!(in alloc; "{message}{at}")?);
    Ok(Some(Failure { reason, message }))
}

pub(crate) fn bad(alloc: Global, message: &str) -> Result<Option<Failure>, Memory>
    ensures { IfOk result (λ told. told ≡ spec.bad message.now) }
{
    say(alloc, Reason::BadRequest, message)
}

pub(crate) fn invalid(alloc: Global, message: &str) -> Result<Option<Failure>, Memory>
    ensures { IfOk result (λ told. told ≡ spec.invalid message.now) }
{
    say(alloc, Reason::Invalid, message)
}

pub(crate) fn bad_at(alloc: Global, message: &str, at: u64) -> Result<Option<Failure>, Memory>
    ensures { IfOk result (λ told. told ≡ spec.bad_at message.now at) }
{
    say_at(alloc, Reason::BadRequest, message, at)
}

/// An object that is there already.
pub fn already_exists(alloc: Global, resource: Resource, name: &str) -> Result<Failure, Memory>
    ensures { IfOk result (λ told. told ≡ spec.already_exists resource name.now) }
{
    let resource = resource.message_name();
    let message = format!(in alloc; "{resource} \"{name}\" already exists")?;
    Ok(Failure {
        reason: Reason::AlreadyExists,
        message: Text::from_string(message),
    })
}

/// An object that isn't there.
pub fn not_found(alloc: Global, resource: Resource, name: &str) -> Result<Failure, Memory>
    ensures { IfOk result (λ told. told ≡ spec.not_found resource name.now) }
{
    let resource = resource.message_name();
    let message = format!(in alloc; "{resource} \"{name}\" not found")?;
    Ok(Failure {
        reason: Reason::NotFound,
        message: Text::from_string(message),
    })
}

/// An object that was written since the given revision.
pub fn conflict(
    alloc: Global,
    resource: Resource,
    name: &str,
    present: u64,
    given: u64,
) -> Result<Failure, Memory>
    ensures { IfOk result (λ told. told ≡ spec.conflict resource name.now present given) }
{
    let resource = resource.message_name();
    let message = format!(in alloc;
        "{resource} \"{name}\" is at resourceVersion {present}, not {given}"
    )?;
    Ok(Failure {
        reason: Reason::Conflict,
        message: Text::from_string(message),
    })
}

/// A revision below which nothing is told any more.
pub fn expired(alloc: Global, asked: u64, floor: u64) -> Result<Failure, Memory>
    ensures { IfOk result (λ told. told ≡ spec.expired asked floor) }
{
    let message = format!(in alloc; "too old resource version: {asked} ({floor})")?;
    Ok(Failure {
        reason: Reason::Expired,
        message: Text::from_string(message),
    })
}

/// A revision that isn't reached yet.
pub fn too_large(alloc: Global, asked: u64, current: u64) -> Result<Failure, Memory>
    ensures { IfOk result (λ told. told ≡ spec.too_large asked current) }
{
    let message = format!(in alloc;
        "Timeout: Too large resource version: {asked}, current: {current}"
    )?;
    Ok(Failure {
        reason: Reason::Timeout,
        message: Text::from_string(message),
    })
}

/// No revision is left.
pub fn used_up(alloc: Global) -> Result<Failure, Memory>
    ensures { IfOk result (λ told. told ≡ spec.revisions_used_up) }
{
    plain(alloc, Reason::InternalError, "Revisions are used up")
}

/// A write to a mirror, which takes its changes from its peer alone.
pub fn read_only(alloc: Global) -> Result<Failure, Memory>
    ensures { IfOk result (λ told. told ≡ spec.read_only) }
{
    plain(alloc, Reason::MethodNotAllowed, "this server is a mirror")
}

/// A request to go on as a WebSocket that isn't one.
pub fn bad_upgrade(alloc: Global) -> Result<Failure, Memory>
    ensures { IfOk result (λ told. told ≡ spec.bad_upgrade) }
{
    plain(alloc, Reason::BadRequest, "websocket: BadUpgrade")
}

fn plain(alloc: Global, reason: Reason, message: &str) -> Result<Failure, Memory>
    ensures { IfOk result (λ told. Some told ≡ spec.say reason message.now) }
{
    let message = Text::new(alloc, message)?;
    Ok(Failure { reason, message })
}
