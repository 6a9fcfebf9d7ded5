//! The limits of connections.

/// How long a connection has to greet, in seconds, unless COVISOR_OPEN says otherwise.
pub const OPEN: u32 = 5;

/// How long a peer may be silent though it is asked, or take no byte, in seconds, unless COVISOR_DEAD says otherwise.
pub const DEAD: u32 = 15;

/// What a limit that the environment gives may be at most, in seconds.
pub const LONGEST: u32 = 3600;

/// How long the connecting to one address may take, in seconds.
pub const CONNECT: u64 = 5;

/// How many bytes are collected before they are sent.
pub const COLLECTED: usize = 65_536;

/// How long the sending of what was collected may take, in seconds, however much of it the peer takes meanwhile.
pub const PIECE: u64 = 60;

/// How many reads in a row may wait for their limit of time: the silence of a peer is cut into so many.
pub const WAITS: u32 = 3;

/// A connection that lasted so many seconds makes the next pause the shortest one.
pub const LASTING: u64 = 10;

/// The shortest pause between two tries of an address, in seconds.
pub const PAUSE: u64 = 1;

/// The longest one.
pub const LONGEST_PAUSE: u64 = 16;

/// How many seconds pass at least between two lines that tell of failed tries of an address.
pub const TOLD: u64 = 60;

/// How many refused peers are told in a second at most.
pub const REFUSALS: u32 = 10;

/// How long the accepting pauses where none can be had, as without a descriptor, in milliseconds.
pub const BREATH: u64 = 100;

/// How many connections are accepted at once.
pub const ACCEPTS: usize = 64;

/// How many bytes of a question for the status page are read, and a little more.
pub const ASKED: usize = 8192;

/// How many bytes of an answer are to find room in a socket.
pub const ANSWERED: u32 = 262_144;

/// How many bytes of a greeting are read at most.
pub const GREETING: usize = 131_072;

/// How many seconds after the last endpoint came each should be served.
pub const UNSERVED: u64 = 5;

/// How often the listening at an address is tried, one second after the other.
pub const BINDS: u32 = 10;
