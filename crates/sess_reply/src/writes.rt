//! Replies to writes, transactions and operations.

ghost use Rattle.std.specs.Prelude.{◌≡◌};
ghost use Rattle.edge_io.specs.Sent.{sent_through};
ghost use Rattle.meta_view.specs.declared.form.Form.TheVariants.{Whole};
ghost use Rattle.up_store.specs.Transacting.{answers_in};
ghost use Rattle.sess_reply.specs.Contents as contents;
ghost use Rattle.sess_reply.specs.Replies.{reply_text, content_text, wrote, transacted, operated, unoperated};
ghost use Rattle.sess_reply.specs.Sending.{Sends};

use crate::Broken;
use crate::body::send_pieces;
use crate::faults::{fault_told, transaction_told};
use crate::refusals::send_told;
use api_errors::{operation_told, read_only};
use edge_io::Sink;
use itoa::Buffer;
use json_obj::value_pieces;
use kube_meta::Row;
use meta_view::{Form, shown_pieces};
use std::alloc::Global;
use up_store::{OpNo, Operate, Transaction, TxWriteNo, WriteAsk, WriteNo, Written};

/// Replies to a write: with its object, or with why it is refused.
pub fn send_written<K: Sink>(
    alloc: Global,
    sink: &mut K,
    close: bool,
    ask: &WriteAsk,
    answer: &Result<Written, WriteNo>,
) -> Result<(), Broken>
    ensures { Sends result (reply_text Whole close (wrote ask.now answer.now)) (sent_through K.written K.settled K.faults sink.old sink.new) }
{
    match answer {
        Ok(written) => send_row(sink, close, ask, &written.row),
        Err(fault) => {
            let told = fault_told(alloc, ask, *fault)?;
            send_told(alloc, sink, close, told)
        }
    }
}

// A create is answered with 201 (Created), all else with 200.
fn accepted_code(ask: &WriteAsk) -> u16
    ensures { result ≡ contents.accepted_code ask.now }
{
    match ask {
        WriteAsk::Create { .. } => 201,
        WriteAsk::Replace { .. } | WriteAsk::Remove { .. } => 200,
    }
}

// Replies to an accepted write with its row's object, whole.
fn send_row<K: Sink>(sink: &mut K, close: bool, ask: &WriteAsk, row: &Row) -> Result<(), Broken>
    ensures { Sends result (content_text close (contents.said (contents.accepted_code ask.now) (contents.shown_row Whole row.now)))
        (sent_through K.written K.settled K.faults sink.old sink.new) }
{
    let mut digits = Buffer::new();
    let pieces = shown_pieces(Form::Whole, &row.obj, digits.format(row.rev).as_bytes());
    send_pieces(sink, accepted_code(ask), false, close, &pieces)
}

/// Replies to a transaction: with its revision, or with why it is refused.
pub fn send_transacted<K: Sink>(
    alloc: Global,
    sink: &mut K,
    close: bool,
    ask: &Transaction,
    answer: &Result<Vec<Written>, TxWriteNo>,
) -> Result<(), Broken>
    ensures { Sends result (reply_text Whole close (transacted ask.now (answers_in answer.now)))
        (sent_through K.written K.settled K.faults sink.old sink.new) }
{
    match answer {
        Ok(answers) => send_value(sink, close, revision_of(answers.as_slice())),
        Err(fault) => {
            let told = transaction_told(alloc, ask.items(), *fault)?;
            send_told(alloc, sink, close, told)
        }
    }
}

// The revision of a transaction, which each of its answers has.
fn revision_of(answers: &[Written]) -> u64
    ensures { result ≡ contents.written_revision answers.now }
{
    match answers.first() {
        Some(written) => written.rev,
        None => 0,
    }
}

/// Replies to an operation: with the number that it answers, or with why it is refused.
pub fn send_operated<K: Sink>(
    alloc: Global,
    sink: &mut K,
    close: bool,
    ask: Operate,
    answer: Result<u64, OpNo>,
) -> Result<(), Broken>
    ensures { Sends result (reply_text Whole close (operated ask answer)) (sent_through K.written K.settled K.faults sink.old sink.new) }
{
    let _ = ask;
    match answer {
        Ok(value) => send_value(sink, close, value),
        Err(fault) => {
            let told = operation_told(alloc, fault)?;
            send_told(alloc, sink, close, told)
        }
    }
}

/// Replies to an operation that isn't done, as the server takes none.
pub fn send_unoperated<K: Sink>(
    alloc: Global,
    sink: &mut K,
    close: bool,
    ask: Operate,
) -> Result<(), Broken>
    ensures { Sends result (reply_text Whole close (unoperated ask)) (sent_through K.written K.settled K.faults sink.old sink.new) }
{
    let _ = ask;
    let told = read_only(alloc)?;
    send_told(alloc, sink, close, Some(told))
}

// Replies with a number.
fn send_value<K: Sink>(sink: &mut K, close: bool, value: u64) -> Result<(), Broken>
    ensures { Sends result (content_text close (contents.number_content value)) (sent_through K.written K.settled K.faults sink.old sink.new) }
{
    let mut digits = Buffer::new();
    let pieces = value_pieces(digits.format(value).as_bytes());
    send_pieces(sink, 200, false, close, &pieces)
}
