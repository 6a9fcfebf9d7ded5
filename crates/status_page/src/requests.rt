//! What is asked for.
ghost use Rattle.std.specs.Prelude.{◌≡◌, ◌≤◌, ℕ, List, length};
ghost use Rattle.httparse.specs.Grammar.{HasNoRequest, MayBecomeRequest, ReadsRequest, RequestHead};
ghost use Rattle.status_page.specs.Requests.{request_of};

use httparse::Status;
use httparse::spans::{EMPTY_HEADER_SPAN, parse_request};

/// What a request asks for.
#[derive(Clone, Copy, PartialEq, Eq, Debug)]
pub enum Request {
    /// The page for a person: GET of `/`.
    Page,
    /// The metrics for Prometheus: GET of `/metrics`.
    Metrics,
    /// Something that isn't there.
    Absent,
    /// It is no GET.
    Unsuited,
}

/// What was heard so far.
#[derive(Clone, Copy, PartialEq, Eq, Debug)]
pub enum Heard {
    /// More has to come.
    More,
    /// It is no request.
    Fault,
    /// It asks for this.
    Asks { request: Request },
}

/// How many header fields a request may have.
const FIELDS: usize = 64;

/// What a method and a target ask for.
fn request_of(method: &[u8], target: &[u8]) -> Request
    ensures { result ≡ request_of method.now target.now }
{
    if method != b"GET".as_slice() {
        Request::Unsuited
    } else if target == b"/".as_slice() {
        Request::Page
    } else if target == b"/metrics".as_slice() {
        Request::Metrics
    } else {
        Request::Absent
    }
}

/// What the bytes that came so far ask for, by the grammar of RFC 9112. A request has at most 64 header fields.
pub fn hear(bytes: &[u8]) -> Heard
    ensures asks { (head : RequestHead) (rest : List ℕ) → ReadsRequest bytes.now head rest → length head.fields ≤ 64
        → result ≡ Heard.Asks (request_of head.method head.target) }
    ensures more { result ≡ Heard.More → HasNoRequest bytes.now × MayBecomeRequest bytes.now }
{
    let mut fields = [EMPTY_HEADER_SPAN; FIELDS];
    match parse_request(bytes, &mut fields) {
        Ok(Status::Complete(head)) => Heard::Asks {
            request: request_of(head.method.of(bytes), head.path.of(bytes)),
        },
        Ok(Status::Partial) => Heard::More,
        Err(_) => Heard::Fault,
    }
}
