//! Each function's contract is a law.
ghost use Rattle.member_state.specs.Changes.{RemovalsAreTimeless};
ghost use Rattle.member_state.specs.Sound.{GrantsAreKept, MemberTablesAreSound};
ghost use Rattle.member_state.specs.Sound.{MembersKeepToPorts, PlainGrantsGivePlainTables};

/// Entries stay within their grant: an accepted message keeps them so, and so does whatever goes or is touched.
pub fn grants_are_kept()
    ensures { GrantsAreKept }
{}

/// The leaf table of a sound state is as composition and agreement ask.
pub fn member_tables_are_sound()
    ensures { MemberTablesAreSound }
{}

/// Members name visible ports alone.
pub fn members_keep_to_ports()
    ensures { MembersKeepToPorts }
{}

/// Where outputs and CONTROLLER alone are granted, a member's entries set nothing and pass nothing on.
pub fn plain_grants_give_plain_tables()
    ensures { PlainGrantsGivePlainTables }
{}

/// What a message removes is the same at every moment.
pub fn removals_are_timeless()
    ensures { RemovalsAreTimeless }
{}
