//! The grammar of messages, as the contract of a function that does nothing.
ghost use Rattle.std.specs.Prelude.{◌≡◌, ℕ, List};
ghost use Rattle.of10_actions.specs.Spelling.{IsBytes};
ghost use Rattle.of10_frames.specs.Frames.{IsFrame};
ghost use Rattle.of10_msgs.specs.declared.message.Message.{Message};
ghost use Rattle.of10_msgs.specs.Numbers as numbers;
ghost use Rattle.of10_msgs.specs.Ranges.{IsMessage};
ghost use Rattle.of10_msgs.specs.Reading.{reading};
ghost use Rattle.of10_msgs.specs.Spelling.{Spells, spelling};
ghost use Rattle.of10_msgs.specs.Worked.{FirstFaults, Tables};

use crate::number::{
    CHECK_OVERLAP, EMERG, HARD_TIMEOUT, IDLE_TIMEOUT, NO_BUFFER, PORT_ADDED, PORT_DELETED,
    PORT_MODIFIED, REMOVED, SEND_FLOW_REM,
};

/// The constants are the numbers of the standard.
pub fn numbers_meet()
    ensures send_flow_rem { SEND_FLOW_REM ≡ numbers.SEND_FLOW_REM }
    ensures check_overlap { CHECK_OVERLAP ≡ numbers.CHECK_OVERLAP }
    ensures emerg { EMERG ≡ numbers.EMERG }
    ensures no_buffer { NO_BUFFER ≡ numbers.NO_BUFFER }
    ensures idle_timeout { IDLE_TIMEOUT ≡ numbers.IDLE_TIMEOUT }
    ensures hard_timeout { HARD_TIMEOUT ≡ numbers.HARD_TIMEOUT }
    ensures removed { REMOVED ≡ numbers.REMOVED }
    ensures port_added { PORT_ADDED ≡ numbers.PORT_ADDED }
    ensures port_deleted { PORT_DELETED ≡ numbers.PORT_DELETED }
    ensures port_modified { PORT_MODIFIED ≡ numbers.PORT_MODIFIED }
{}

/// What is read is spelled so and can be written, whatever is spelled so is read, and so is what is
/// written.
pub fn grammar()
    ensures only_spellings { (frame : List ℕ) (m : Message) → IsBytes frame → IsFrame frame → reading frame ≡ Ok m
        → Spells m frame × IsMessage m }
    ensures all_spellings { (frame : List ℕ) (m : Message) → IsMessage m → Spells m frame → reading frame ≡ Ok m }
    ensures round_trip { (m : Message) → IsMessage m → reading (spelling m) ≡ Ok m }
{}

/// What the definitions give in examples.
pub fn worked_examples()
    ensures tables { Tables }
    ensures first_faults { FirstFaults }
{}
