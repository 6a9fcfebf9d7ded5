//! Who sends the messages of a type.
ghost use Rattle.std.specs.Prelude.{◌≡◌, IfOk};
ghost use Rattle.of10_frames.specs.Frames.{IsFrame};
ghost use Rattle.of10_msgs.specs.Ranges.{IsMessage};
ghost use Rattle.of10_msgs.specs.Reading.{Gives};
ghost use Rattle.of10_msgs.specs.Senders.{is_of_switch as is_of_switch_of, reading_of_controller, sender_of};
ghost use Rattle.of10_msgs.specs.Spelling.{Spells};

use crate::fault::FormFault;
use crate::kind::Kind;
use crate::message::Message;
use crate::reading::read_message;
use of10_frames::VERSION;
use std::alloc::Global;

/// Who sends the messages of a type.
#[derive(Clone, Copy, PartialEq, Eq, Debug)]
pub enum Sender {
    Either,
    Controller,
    Switch,
}

impl Kind {
    /// Who sends messages of this type.
    pub fn sender(self) -> Sender
        ensures { result ≡ sender_of self }
    {
        match self {
            Kind::Hello | Kind::Error | Kind::EchoRequest | Kind::EchoReply | Kind::Vendor => {
                Sender::Either
            }
            Kind::FeaturesRequest
            | Kind::GetConfigRequest
            | Kind::SetConfig
            | Kind::PacketOut
            | Kind::FlowMod
            | Kind::PortMod
            | Kind::StatsRequest
            | Kind::BarrierRequest
            | Kind::QueueGetConfigRequest => Sender::Controller,
            Kind::FeaturesReply
            | Kind::GetConfigReply
            | Kind::PacketIn
            | Kind::FlowRemoved
            | Kind::PortStatus
            | Kind::StatsReply
            | Kind::BarrierReply
            | Kind::QueueGetConfigReply => Sender::Switch,
        }
    }
}

/// Whether only switches send messages of this type.
fn is_of_switch(kind: Option<Kind>) -> bool
    ensures { result ≡ is_of_switch_of kind }
{
    match kind {
        Some(kind) => matches!(kind.sender(), Sender::Switch),
        None => false,
    }
}

/// The message of a controller's frame, or the first fault. A type that only switches send is a bad
/// type, whatever the frame's length.
pub fn read_of_controller(alloc: Global, frame: &[u8]) -> Result<Message, FormFault>
    requires { IsFrame frame.now }
    ensures exact { Gives result (reading_of_controller frame.now) }
    ensures found { IfOk result (λ m. Spells m frame.now × IsMessage m) }
{
    if frame[0] == VERSION && is_of_switch(Kind::from_number(frame[1])) {
        return Err(FormFault::BadType { kind: frame[1] });
    }
    read_message(alloc, frame)
}
