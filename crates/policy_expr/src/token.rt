/// A sign of a text: a name by its length in bytes, `+`, `>>`, `|>`, a parenthesis, or anything else.
#[derive(Clone, Copy)]
pub enum Token {
    Name { len: usize },
    Plus,
    Then,
    Else,
    Open,
    Close,
    Other,
}
