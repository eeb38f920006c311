//! The reader of requests.

ghost use Rattle.std.specs.Prelude.{◌≡◌, ◌<◌, ◌≤◌, ◌++◌, ℕ, List, [], None, IfOk, IfSome, IsNone, OnErr, OnOk, length, vec_capacity};
ghost use Rattle.edge_io.specs.Counts.{Rose};
ghost use Rattle.edge_io.specs.Told.{prepended};
ghost use Rattle.http_read.specs.Answers.{AnswersNext, Repeats, ReadsNext, UnlessFault, kept_refusal};
ghost use Rattle.http_read.specs.Steps.{FillsBody, FindsHead, ReadsMore};
ghost use Rattle.httparse.specs.Grammar.{RequestHead};
ghost use Rattle.httparse.specs.Spans.{IsRequestAt};
ghost use Rattle.http_read.specs.Requests.{front, head_answer, request_of, IsUnfinished};

use crate::body::Body;
use crate::fields::body_length;
use crate::head::{MOST_FIELDS, front_of, make_request, read_head};
use crate::refusal::ReqNo;
use crate::request::Req;
use crate::unread::Unread;
use edge_io::{Failed, Source};
use httparse::spans::{EMPTY_HEADER_SPAN, HeaderSpan, RequestSpans};
use kube_meta::Memory;
use std::alloc::Global;
use std::marker::Model;

/// How many bytes of a body are read at a time, at most, behind those that came with its head.
const STEP: usize = 1024;

// Reads once behind the front of a body of `whole` bytes, and answers how many bytes came. The body's memory is
// reserved, so that none is asked for, and none is used before bytes come for it. Its step lies in a frame of its own:
// in those of its callers it would be held by whoever waits for a head, or serves what was read.
#[inline(never)]
fn read_more<S: Source>(source: &mut S, body: &mut Vec<u8>, whole: usize) -> Result<usize, Failed>
    requires open { length body.old.items < whole }
    requires reserved { whole ≤ vec_capacity body.old }
    ensures more { IfOk result (ReadsMore body.old.items body.new.items (S.left source.old) (S.left source.new)) }
    ensures within { OnOk result (length body.new.items ≤ whole) }
    ensures reserved { OnOk result (whole ≤ vec_capacity body.new) }
    ensures kept { OnErr result ((body.new ≡ body.old) × (S.left source.new ≡ S.left source.old)) }
    ensures quiet { OnOk result (S.faults source.new ≡ S.faults source.old) }
    ensures counted { OnErr result (Rose (S.faults source.old) (S.faults source.new)) }
{
    let mut step = [0u8; STEP];
    let most = STEP.min(whole - body.len());
    let n = source.read(&mut step[..most])?;
    match body.extend_from_slice(&step[..n]) {
        Ok(()) => Ok(n),
        Err(_) => unreachable!(),
    }
}

// Reads the rest of a body of `whole` bytes, of which the front came.
fn read_rest<S: Source>(source: &mut S, body: &mut Vec<u8>, whole: usize) -> Result<(), ReqNo>
    requires within { length body.old.items ≤ whole }
    requires reserved { whole ≤ vec_capacity body.old }
    ensures reads { (taken : List ℕ) × (S.left source.old ≡ prepended taken (S.left source.new))
        × FillsBody whole (body.old.items ++ taken) body.new.items [] (S.left source.new) (S.faults source.old) (S.faults source.new) result }
    ensures idle { length body.old.items ≡ whole → source.new ≡ source.old }
    ensures quiet { UnlessFault result (S.faults source.new ≡ S.faults source.old) }
{
    while body.len() < whole {
        match read_more(source, body, whole) {
            Ok(0) => return Err(ReqNo::CutShort),
            Ok(_) => {}
            Err(_) => return Err(ReqNo::ReadFault),
        }
    }
    Ok(())
}

// Gives the memory back in which no bytes are kept, where more of a body is to come: its client may be long in coming.
fn rest_before(kept: &mut Unread, is_whole: bool)
    ensures { kept.new ≡ kept.old }
{
    if !is_whole {
        kept.rest();
    }
}

// Reads a body of `whole` bytes, from the bytes that are kept and then from a source, into memory that is reserved.
fn read_body<S: Source>(
    kept: &mut Unread,
    source: &mut S,
    body: &mut Vec<u8>,
    whole: usize,
) -> Result<(), ReqNo>
    requires empty { body.old.items ≡ [] }
    requires reserved { whole ≤ vec_capacity body.old }
    ensures reads { (taken : List ℕ) × (S.left source.old ≡ prepended taken (S.left source.new))
        × FillsBody whole (kept.old ++ taken) body.new.items kept.new (S.left source.new) (S.faults source.old) (S.faults source.new) result
        × (whole ≤ length kept.old → taken ≡ []) }
    ensures idle { whole ≤ length kept.old → source.new ≡ source.old }
    ensures quiet { UnlessFault result (S.faults source.new ≡ S.faults source.old) }
{
    let n = kept.bytes().len().min(whole);
    match body.extend_from_slice(&kept.bytes()[..n]) {
        Ok(()) => {}
        Err(_) => unreachable!(),
    }
    kept.consume(n);
    rest_before(kept, n == whole);
    read_rest(source, body, whole)
}

/// Reads requests from a source, one after the other. Contracts see the bytes that it took beyond its last request,
/// and the refusal that it keeps.
#[derive(Debug, Drop)]
pub struct Reader {
    kept: Unread,
    refusal: Option<ReqNo>,
    // where the fields of the last head were, kept so that they needn't be cleared for each head; none at first, and
    // behind a head whose body was waited for
    spans: Vec<HeaderSpan>,
}

impl Model for Reader {
    ghost use Rattle.http_read.specs.Readers.{ReaderState};

    ghost Value = { ReaderState };

    ghost view = { λ reader. record { kept = reader.kept; refusal = reader.refusal } };
}

// Reads the body of a request whose head was found in the bytes that are kept. Memory is asked for before a byte is
// let go; that of the body is reserved, and used as its bytes come. Where these are still to come the memory of the
// places of fields is given back.
fn read_found<S: Source>(
    kept: &mut Unread,
    source: &mut S,
    spans: &mut Vec<HeaderSpan>,
    found: RequestSpans,
) -> Result<Option<Req>, ReqNo>
    requires { FindsHead kept.old spans.old.items found }
    ensures reads { (taken : List ℕ) × (S.left source.old ≡ prepended taken (S.left source.new))
        × ReadsNext (kept.old ++ taken) result kept.new (S.left source.new) (S.faults source.old) (S.faults source.new)
        × ((IsUnfinished kept.old → ⊥) → taken ≡ []) }
    ensures idle { (IsUnfinished kept.old → ⊥) → source.new ≡ source.old }
    ensures quiet { UnlessFault result (S.faults source.new ≡ S.faults source.old) }
{
    let alloc = kept.allocator();
    let length = match announced(kept.bytes(), spans.as_slice(), found) {
        Ok(length) => length,
        Err(why) => return Err(why),
    };
    let mut req = match request_in(alloc, kept.bytes(), spans.as_slice(), found) {
        Ok(req) => req,
        Err(_) => return Err(ReqNo::Memory),
    };
    let mut body = match Vec::with_capacity(alloc, length) {
        Ok(body) => body,
        Err(_) => return Err(ReqNo::Memory),
    };
    kept.consume(found.len);
    rest_spans(spans, length <= kept.bytes().len());
    match read_body(kept, source, &mut body, length) {
        Ok(()) => {
            req.body = Body::from_vec(body);
            Ok(Some(req))
        }
        Err(why) => Err(why),
    }
}

// Gives the memory of the places of fields back, where more of a body is to come.
fn rest_spans(spans: &mut Vec<HeaderSpan>, is_whole: bool) {
    if !is_whole {
        *spans = Vec::new(*spans.allocator());
    }
}

// What the head that was found says of the length of its body.
fn announced(bytes: &[u8], spans: &[HeaderSpan], found: RequestSpans) -> Result<usize, ReqNo>
    requires { FindsHead bytes.now spans.now found }
    ensures { (h : RequestHead) → IsRequestAt (front bytes.now) spans.now found h → result ≡ head_answer h }
{
    let front = front_of(bytes);
    let fields = &spans[..found.headers];
    let length = body_length(found.version, found.method.of(front), front, fields)?;
    Ok(length as usize)
}

// The request of the head that was found, with no body.
fn request_in(
    alloc: Global,
    bytes: &[u8],
    spans: &[HeaderSpan],
    found: RequestSpans,
) -> Result<Req, Memory>
    requires { FindsHead bytes.now spans.now found }
    ensures { IfOk result (λ req. (h : RequestHead) → IsRequestAt (front bytes.now) spans.now found h → req ≡ request_of h []) }
{
    let front = front_of(bytes);
    let fields = &spans[..found.headers];
    make_request(
        alloc,
        found.method.of(front),
        found.path.of(front),
        front,
        fields,
    )
}

// Reads the next request, behind the bytes that are kept.
fn read_next<S: Source>(
    kept: &mut Unread,
    source: &mut S,
    spans: &mut Vec<HeaderSpan>,
) -> Result<Option<Req>, ReqNo>
    ensures reads { (taken : List ℕ) × (S.left source.old ≡ prepended taken (S.left source.new))
        × ReadsNext (kept.old ++ taken) result kept.new (S.left source.new) (S.faults source.old) (S.faults source.new)
        × ((IsUnfinished kept.old → ⊥) → taken ≡ []) }
    ensures idle { (IsUnfinished kept.old → ⊥) → source.new ≡ source.old }
    ensures quiet { UnlessFault result (S.faults source.new ≡ S.faults source.old) }
{
    if spans.resize(MOST_FIELDS, EMPTY_HEADER_SPAN).is_err() {
        return Err(ReqNo::Memory);
    }
    match read_head(kept, source, spans.as_mut_slice()) {
        Ok(Some(found)) => read_found(kept, source, spans, found),
        Ok(None) => Ok(None),
        Err(why) => Err(why),
    }
}

// The refusal that a reader keeps after an answer.
fn refusal_of(answer: &Result<Option<Req>, ReqNo>) -> Option<ReqNo>
    ensures { result ≡ kept_refusal answer.now }
{
    match answer {
        Ok(_) => None,
        Err(ReqNo::Memory) => None,
        Err(why) => Some(*why),
    }
}

// Whether a request that asks for a watch was read. Its client mostly asks for nothing behind it.
fn asks_to_watch(answer: &Result<Option<Req>, ReqNo>) -> bool {
    match answer {
        Ok(Some(req)) => req.params.truth("watch") == Some(true),
        _ => false,
    }
}

impl Reader {
    /// A reader that took nothing yet. Its memory is asked for as it reads.
    pub fn new(alloc: Global) -> Result<Reader, Memory>
        ensures { IfOk result (λ reader. reader ≡ record { kept = []; refusal = None }) }
    {
        Ok(Reader {
            kept: Unread::new(alloc),
            refusal: None,
            spans: Vec::new(alloc),
        })
    }

    /// Reads the next request. `None` means that the input ended and no byte of a further request was there.
    ///
    /// Nothing is read where what the reader kept is a whole request, or is refused as it stands: a client that sends
    /// one request and waits is answered.
    ///
    /// After a refusal the reader has failed, and each later call answers that refusal again. After [`ReqNo::Memory`]
    /// what was taken is kept, and a later call goes on. Behind a request that asks for a watch the reader gives its
    /// memory back.
    pub fn next_request<S: Source>(&mut self, source: &mut S) -> Result<Option<Req>, ReqNo>
        ensures repeats { IfSome self.old.refusal (Repeats self.old self.new source.old source.new result) }
        ensures reads { IsNone self.old.refusal → AnswersNext self.old self.new (S.left source.old) (S.left source.new)
            (S.faults source.old) (S.faults source.new) result }
        ensures idle { (IsUnfinished self.old.kept → ⊥) → source.new ≡ source.old }
        ensures quiet { UnlessFault result (S.faults source.new ≡ S.faults source.old) }
    {
        if let Some(why) = self.refusal {
            return Err(why);
        }
        let answer = read_next(&mut self.kept, source, &mut self.spans);
        self.refusal = refusal_of(&answer);
        self.rest_behind(&answer);
        answer
    }

    // Gives the memory back in which no bytes are kept, behind a request that asks for a watch.
    fn rest_behind(&mut self, answer: &Result<Option<Req>, ReqNo>)
        ensures { self.new ≡ self.old }
    {
        if asks_to_watch(answer) {
            let alloc = self.kept.allocator();
            self.kept.rest();
            self.spans = Vec::new(alloc);
        }
    }
}
