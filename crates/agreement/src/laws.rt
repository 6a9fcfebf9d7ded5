//! The laws of entries and agreement: each function's contract is the law.
ghost use Rattle.agreement.specs.FreeOrder.{BatchIsTheSame, InstalledIsPermuted};
ghost use Rattle.agreement.specs.Followed.{OnePlacedEntry};
ghost use Rattle.agreement.specs.Law.{Agreement};
ghost use Rattle.agreement.specs.Lengths.{AddsFit, ListsAreShort};
ghost use Rattle.agreement.specs.Ranges.{ActionsAreInRange};
ghost use Rattle.agreement.specs.OneEntry.{NoTwins, OneEntryAKey};
ghost use Rattle.agreement.specs.Ways.{ShortestHopsAreWays};

/// Switches that have the entries of a setting do with each packet what its policy says: also where
/// virtual switches are linked, spread over several switches, or all of one.
pub fn agreement()
    ensures { Agreement }
{}

/// The list of actions of an entry is at most so long as members' entries, leaves and hops let it be; within the
/// limits of policies its ADD fits a message.
pub fn composed_lists_fit()
    ensures short { ListsAreShort }
    ensures adds { AddsFit }
{}

/// Where what members' entries set is in range, and so are the tags of ports, the actions of each entry are: so
/// they can be written.
pub fn actions_are_in_range()
    ensures { ActionsAreInRange }
{}

/// Where serials, members and ports are named once, no two entries of a switch have one match, priority and
/// ancestry: so what is installed has one entry for each key, and the law of batches speaks of it.
pub fn one_entry_a_key()
    ensures twins { NoTwins }
    ensures installed { OneEntryAKey }
{}

/// In whatever order entries are listed, the same ones are installed; and tables in other orders, with one entry a
/// key, give the same batch, message for message.
pub fn order_is_free()
    ensures installed { InstalledIsPermuted }
    ensures batch { BatchIsTheSame }
{}

/// Next hops that lie on shortest paths are ways between switches, as agreement asks for them: over no more cables
/// and switches than there are, and never back by the cable by which a packet came.
pub fn ways()
    ensures { ShortestHopsAreWays }
{}

/// A packet for which the entry of one rule is used is sent, and carried over cables, to where the rule's outs say.
pub fn one_placed_entry()
    ensures { OnePlacedEntry }
{}
