//! Answers, and the counts to which they are added.

use crate::codes::{CREATED, OK, operation_code, read_code, transaction_code, write_code};
use crate::counts::Counts;
use client_api::{ListNo, Took};
use kube_meta::Resource;
use metrics::Verb;
use up_store::{OpNo, TxWriteNo, WriteAsk, WriteNo, Written};

impl Counts {
    /// A write was answered.
    pub fn wrote(&self, ask: &WriteAsk, answer: &Result<Written, WriteNo>) {
        let (verb, resource, done) = kind_of(ask);
        let code = match answer {
            Ok(_) => Some(done),
            Err(no) => write_code(*no),
        };
        self.note(verb, Some(resource), code);
    }

    /// A transaction was answered.
    pub fn transacted(&self, answer: &Result<Vec<Written>, TxWriteNo>) {
        let code = match answer {
            Ok(_) => Some(OK),
            Err(no) => transaction_code(*no),
        };
        self.note(Verb::Transact, None, code);
    }

    /// A get, a list or a watch was answered.
    pub fn read<A>(&self, verb: Verb, resource: Resource, answer: &Result<A, ListNo>) {
        let code = match answer {
            Ok(_) => Some(OK),
            Err(no) => read_code(no),
        };
        self.note(verb, Some(resource), code);
    }

    /// An operation was answered.
    pub fn operated(&self, answer: &Result<u64, OpNo>) {
        let code = match answer {
            Ok(_) => Some(OK),
            Err(no) => operation_code(*no),
        };
        self.note(Verb::Operate, None, code);
    }

    /// A request with this method, or bytes that are none, were refused by this code before a client was asked. No
    /// resource is told of it.
    pub fn refused(&self, method: &str, code: u16) {
        self.answered(verb_of(method), None, code);
    }

    /// A watch took what there was for it.
    pub fn took(&self, took: &Took) {
        if let Took::Events { lines, .. } = took {
            self.told(lines.len());
        }
    }

    // Counts an answer that has a code.
    fn note(&self, verb: Verb, resource: Option<Resource>, code: Option<u16>) {
        if let Some(code) = code {
            self.answered(verb, resource, code);
        }
    }
}

// What a request with this method asks for. One that isn't served is told among the operations, as bytes that are no
// request are.
fn verb_of(method: &str) -> Verb {
    match method {
        "GET" => Verb::Get,
        "POST" => Verb::Create,
        "PUT" => Verb::Replace,
        "DELETE" => Verb::Remove,
        _ => Verb::Operate,
    }
}

// What a write asks for, of what, and by which code it is answered where it is done.
fn kind_of(ask: &WriteAsk) -> (Verb, Resource, u16) {
    match ask {
        WriteAsk::Create { resource, .. } => (Verb::Create, *resource, CREATED),
        WriteAsk::Replace { resource, .. } => (Verb::Replace, *resource, OK),
        WriteAsk::Remove { resource, .. } => (Verb::Remove, *resource, OK),
    }
}
