//! The answers over HTTP/1.0.
ghost use Rattle.std.specs.Prelude.{◌≡◌, ◌++◌, IfOk, IsTrue};
ghost use Rattle.std.specs.List.{list_all};
ghost use Rattle.script_text.specs.Lines.{is_ascii};
ghost use Rattle.status_page.specs.Answers.{answer_of, answered, fault_answer, sentence_answer};

use crate::html::page;
use crate::prometheus::metrics;
use crate::records::Status;
use crate::requests::Request;
use cv_io::{Memory, Text};
use script_text::{say, say_number};
use std::alloc::Global;

/// An answer: its status, what its body is, and the body.
fn answer_with(alloc: Global, status: &str, kind: &str, body: &Text) -> Result<Text, Memory>
    requires status { IsTrue (list_all is_ascii status.now) }
    requires kind { IsTrue (list_all is_ascii kind.now) }
    ensures { IfOk result (λ text. text ≡ answered status.now kind.now body.now) }
{
    let mut text = Text::new(alloc);
    say(&mut text, "HTTP/1.0 ")?;
    say(&mut text, status)?;
    say(&mut text, "\r\nContent-Type: ")?;
    say(&mut text, kind)?;
    say(&mut text, "\r\nContent-Length: ")?;
    say_number(alloc, &mut text, body.len() as u64)?;
    say(
        &mut text,
        "\r\nCache-Control: no-store\r\nConnection: close\r\n\r\n",
    )?;
    text.push_text(body)?;
    Ok(text)
}

/// An answer whose body is a sentence.
fn answer_sentence(alloc: Global, status: &str, sentence: &str) -> Result<Text, Memory>
    requires status { IsTrue (list_all is_ascii status.now) }
    requires sentence { IsTrue (list_all is_ascii sentence.now) }
    ensures { IfOk result (λ text. text ≡ sentence_answer status.now sentence.now) }
{
    let mut body = Text::new(alloc);
    say(&mut body, sentence)?;
    answer_with(alloc, status, "text/plain; charset=utf-8", &body)
}

/// The answer to what isn't a request.
pub fn fault(alloc: Global) -> Result<Text, Memory>
    ensures { IfOk result (λ text. text ≡ fault_answer) }
{
    answer_sentence(alloc, "400 Bad Request", "This is no request of HTTP.\n")
}

/// The answer to a request.
pub fn answer(alloc: Global, request: Request, status: &Status) -> Result<Text, Memory>
    ensures { IfOk result (λ text. text ≡ answer_of request status.now) }
{
    match request {
        Request::Page => answer_with(
            alloc,
            "200 OK",
            "text/html; charset=utf-8",
            &page(alloc, status)?,
        ),
        Request::Metrics => answer_with(
            alloc,
            "200 OK",
            "text/plain; version=0.0.4; charset=utf-8",
            &metrics(alloc, status)?,
        ),
        Request::Absent => answer_sentence(
            alloc,
            "404 Not Found",
            "There are / and /metrics here.\n",
        ),
        Request::Unsuited => answer_sentence(
            alloc,
            "405 Method Not Allowed\r\nAllow: GET",
            "Only GET is answered here.\n",
        ),
    }
}
