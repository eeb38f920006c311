//! The uid by which a cluster is told from others.

ghost use Rattle.std.specs.Prelude.{◌≡◌, ℕ, List, Some, None, option_map, MatchOption, MatchResult};
ghost use Rattle.serde_json.specs.View.{view};
ghost use Rattle.edge_io.specs.Sent.{sent_through};
ghost use Rattle.edge_io.specs.Told.{prepended};
ghost use Rattle.line_stream.specs.ClusterRequests.{namespace_request};
ghost use Rattle.cluster_link.specs.Counting.{CountsSource, IsRequested};
ghost use Rattle.cluster_link.specs.Uids.{AnswersUid, ReadsUid, TellsUid, uid_in};
ghost use Rattle.cluster_link.specs.Uids as uids;

use crate::ClusterNo;
use crate::readers::new_reader;
use crate::refusals::{reply_refusal, request_refusal};
use edge_io::{Sink, Source};
use kube_meta::Text;
use line_stream::{LineNo, ask_namespace};
use serde_json::Value;
use std::alloc::Global;

/// The most bytes of the reply.
const MOST_NAMESPACE: u64 = 16_777_216;

// Whether a code says that the namespace may not be read.
fn is_hidden(code: u16) -> bool
    ensures { result ≡ uids.is_hidden code }
{
    code == 401 || code == 403 || code == 404
}

// The uid in a value's metadata.
fn uid_of<'v>(value: &'v Value) -> Option<&'v str>
    ensures { option_map (λ uid. uid.now) result ≡ uid_in (view value.now) }
{
    match value.get("metadata") {
        Some(metadata) => metadata.get("uid").and_then(Value::as_str),
        None => None,
    }
}

// The uid that a value has.
fn kept_uid(alloc: Global, value: &Value) -> Result<Option<Text>, ClusterNo>
    ensures { MatchResult result
        (λ found. MatchOption found (uid_in (view value.now) ≡ None) (λ uid. uid_in (view value.now) ≡ Some uid))
        (λ why. why ≡ ClusterNo.Memory) }
{
    let Some(uid) = uid_of(value) else {
        return Ok(None);
    };
    match Text::new(alloc, uid) {
        Ok(uid) => Ok(Some(uid)),
        Err(_) => Err(ClusterNo::Memory),
    }
}

// The uid that a reply's text tells.
fn tell_uid(alloc: Global, text: &[u8]) -> Result<Option<Text>, ClusterNo>
    ensures { TellsUid text.now result }
{
    let value = match Value::from_slice(alloc, text) {
        Ok(value) => value,
        Err(error) if error.is_memory() => return Err(ClusterNo::Memory),
        Err(_) => return Err(ClusterNo::BadReply),
    };
    match kept_uid(alloc, &value) {
        Ok(Some(uid)) => Ok(Some(uid)),
        Ok(None) => Err(ClusterNo::BadReply),
        Err(why) => Err(why),
    }
}

// What is answered where there is no whole reply.
fn answer_without(fault: LineNo) -> Result<Option<Text>, ClusterNo>
    ensures { result ≡ uids.answer_without fault }
{
    match fault {
        LineNo::Refused { code } if is_hidden(code) => Ok(None),
        fault => Err(reply_refusal(fault)),
    }
}

// Reads the reply.
fn read_reply<S: Source>(alloc: Global, source: &mut S) -> Result<Option<Text>, ClusterNo>
    ensures reads { (taken : List ℕ) × (S.left source.old ≡ prepended taken (S.left source.new)) × ReadsUid taken (S.left source.new) result }
    ensures counted { CountsSource result (S.faults source.old) (S.faults source.new) }
{
    let mut reader = new_reader(alloc);
    let text = match reader.read_body(source, MOST_NAMESPACE) {
        Ok(text) => text,
        Err(fault) => return answer_without(fault),
    };
    tell_uid(alloc, text.as_slice())
}

/// Asks a cluster, over a new connection, for the uid of its namespace `kube-system`, and reads it. There is none
/// where the namespace may not be read: the reply's code is 401, 403 or 404.
pub fn read_uid<S: Source, K: Sink>(
    alloc: Global,
    source: &mut S,
    sink: &mut K,
) -> Result<Option<Text>, ClusterNo>
    ensures asks { IsRequested result namespace_request (sent_through K.written K.settled K.faults sink.old sink.new) }
    ensures reads { (taken : List ℕ) × (S.left source.old ≡ prepended taken (S.left source.new)) × AnswersUid taken (S.left source.new) result }
    ensures counted { CountsSource result (S.faults source.old) (S.faults source.new) }
{
    match ask_namespace(sink) {
        Ok(()) => read_reply(alloc, source),
        Err(fault) => Err(request_refusal(fault)),
    }
}
