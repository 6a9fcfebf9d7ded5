//! The answers of posts, as sessions read them.
ghost use Rattle.std.specs.Prelude.{◌≡◌};
ghost use Rattle.lock_desk.specs.Answers.{hearing_of, taking_of};

use events::Reply;
use policy_lock::Receipt;
use sessions::{Heard, Taken};

/// What became of a frame, or of a going.
pub(crate) fn heard(receipt: Receipt<Reply>) -> Heard
    ensures { result ≡ hearing_of receipt.place receipt.reply }
{
    match receipt.reply {
        Reply::Closed => Heard::Closed { at: receipt.place },
        _ => Heard::Heard,
    }
}

/// What became of a taking.
pub(crate) fn taken(receipt: Receipt<Reply>) -> Taken
    ensures { result ≡ taking_of receipt.place receipt.reply }
{
    match receipt.reply {
        Reply::Taken { message } => Taken::Message(message),
        Reply::Empty => Taken::Empty { at: receipt.place },
        _ => Taken::Closed { at: receipt.place },
    }
}
