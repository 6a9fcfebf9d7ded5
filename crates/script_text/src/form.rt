//! The forms of the program that read scripts, which differ in the lines that they know.
ghost use Rattle.std.specs.Prelude.{◌≡◌};
ghost use Rattle.std.specs.Str.{bytes_eq};
ghost use Rattle.script_text.specs.Verbs.{is_explain, is_sim, verb_in};

/// A form of the program that reads a script.
#[derive(Clone, Copy, PartialEq, Eq, Debug)]
pub enum Form {
    /// It knows neither `ask` nor `packet`.
    Replay,
    /// It knows `ask`.
    Explain,
    /// It knows `packet`; its switches are in memory, so they send no bytes and all match ARP addresses.
    Sim,
}

/// The first word of a line.
#[derive(Clone, Copy, PartialEq, Eq, Debug)]
pub enum Verb {
    Up,
    From,
    Gone,
    Tick,
    Expr,
    Ask,
    Packet,
}

impl Form {
    pub fn is_sim(self) -> bool
        ensures { result ≡ is_sim self }
    {
        matches!(self, Form::Sim)
    }

    pub fn is_explain(self) -> bool
        ensures { result ≡ is_explain self }
    {
        matches!(self, Form::Explain)
    }

    /// The first word that this is, where the form knows it.
    pub fn verb(self, word: &[u8]) -> Option<Verb>
        ensures { result ≡ verb_in self word.now }
    {
        if is_text(word, "up") {
            Some(Verb::Up)
        } else if is_text(word, "from") {
            Some(Verb::From)
        } else if is_text(word, "gone") {
            Some(Verb::Gone)
        } else if is_text(word, "tick") {
            Some(Verb::Tick)
        } else if is_text(word, "expr") {
            Some(Verb::Expr)
        } else if self.is_explain() && is_text(word, "ask") {
            Some(Verb::Ask)
        } else if self.is_sim() && is_text(word, "packet") {
            Some(Verb::Packet)
        } else {
            None
        }
    }
}

/// Whether a word is a text.
pub fn is_text(word: &[u8], text: &str) -> bool
    ensures { result ≡ bytes_eq word.now text.now }
{
    word == text.as_bytes()
}
