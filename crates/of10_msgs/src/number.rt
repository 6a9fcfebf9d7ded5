//! Numbers of the standard.

/// A FLOW_MOD's flag for a FLOW_REMOVED once its entry is gone (OFPFF_SEND_FLOW_REM).
pub const SEND_FLOW_REM: u16 = 1;
/// A FLOW_MOD's flag for a test of overlaps (OFPFF_CHECK_OVERLAP).
pub const CHECK_OVERLAP: u16 = 2;
/// A FLOW_MOD's flag for an entry of the emergency table (OFPFF_EMERG).
pub const EMERG: u16 = 4;
/// The buffer_id of a packet that is not in a buffer.
pub const NO_BUFFER: u32 = 0xffff_ffff;
/// The reason of a FLOW_REMOVED whose entry was idle (OFPRR_IDLE_TIMEOUT).
pub const IDLE_TIMEOUT: u8 = 0;
/// The reason of a FLOW_REMOVED whose entry's time is over (OFPRR_HARD_TIMEOUT).
pub const HARD_TIMEOUT: u8 = 1;
/// The reason of a FLOW_REMOVED whose entry was deleted (OFPRR_DELETE).
pub const REMOVED: u8 = 2;
/// The reason of a PORT_STATUS of a new port (OFPPR_ADD).
pub const PORT_ADDED: u8 = 0;
/// The reason of a PORT_STATUS of a port that is gone (OFPPR_DELETE).
pub const PORT_DELETED: u8 = 1;
/// The reason of a PORT_STATUS of a port that changed (OFPPR_MODIFY).
pub const PORT_MODIFIED: u8 = 2;
