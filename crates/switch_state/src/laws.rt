//! Laws of what switches are sent: each function's contract is the law.
ghost use Rattle.std.specs.Prelude.{◌<◌, ℕ, List, length};
ghost use Rattle.std.specs.List.{AllByRecursion};
ghost use Rattle.install_plan.specs.declared.written.Batch.{Batch};
ghost use Rattle.of10_msgs.specs.Ranges.{CanWrite};
ghost use Rattle.switch_state.specs.Fitting.{CanSend};
ghost use Rattle.switch_state.specs.Messages.{batch_messages, flow_request, installation, packet_out, port_request};
ghost use Rattle.switch_state.specs.Frames.{BatchIsSendable, OthersAreSendable, QuietChangesNothing, SentIsRead};
ghost use Rattle.switch_state.specs.Writing.{BatchIsWritten, InstallationIsWritten};

/// In whichever order a switch takes the messages between two barriers: those of a batch make the new table of the old
/// one, and those of an installation make it of whatever the switch had.
pub fn writing()
    ensures batch { BatchIsWritten }
    ensures installation { InstallationIsWritten }
{}

/// A switch reads what it is sent. What follows a batch, as polls and packets, makes no difference to its table.
pub fn reading()
    ensures sent { SentIsRead }
    ensures batch { BatchIsSendable }
    ensures others { OthersAreSendable }
    ensures quiet { QuietChangesNothing }
{}

/// What switches are sent can be written.
pub fn fitting()
    ensures batch { (b : Batch) → CanSend b → AllByRecursion CanWrite (batch_messages b) }
    ensures installation { AllByRecursion CanWrite installation }
    ensures flows { CanWrite flow_request }
    ensures ports { CanWrite port_request }
    ensures packets { (port : ℕ) (bytes : List ℕ) → length bytes < 65512 → CanWrite (packet_out port bytes) }
{}
