//! Laws of the bytes of statistics, each the contract of a function that does nothing.
ghost use Rattle.std.specs.Prelude.{◌≡◌, ◌≤◌, ℕ, List, [], ◌∷◌, ◌+◌, All, drop, length};
ghost use Rattle.std.specs.List.{flat_map};
ghost use Rattle.of10_actions.specs.Spelling.{IsBytes};
ghost use Rattle.of10_stats.specs.declared.reply.FlowStat.{FlowStat};
ghost use Rattle.of10_stats.specs.declared.reply.ReplyBody.{ReplyBody};
ghost use Rattle.of10_stats.specs.declared.reply.StatsReply.{StatsReply};
ghost use Rattle.of10_stats.specs.declared.request.StatsRequest.{StatsRequest};
ghost use Rattle.of10_stats.specs.Parts.{AreGreedy, parts, replies_of};
ghost use Rattle.of10_stats.specs.Ranges.{CanWriteBody, IsBody, IsRequest};
ghost use Rattle.of10_stats.specs.Reading.{reply_in, request_in};
ghost use Rattle.of10_stats.specs.Worked.{FaultsAreFirst, PollIsSpelled, TwoAndTwenty};
ghost use Rattle.of10_stats.specs.Spelling.{SpellsReply, SpellsRequest, reply_message, request_message};

/// What is read as a request is spelled so, whatever is spelled so is read, and so is the body of the
/// message that is written.
pub fn requests()
    ensures only_spellings { (bytes : List ℕ) (r : StatsRequest) → IsBytes bytes → 4 ≤ length bytes →
        request_in bytes ≡ Ok r → SpellsRequest r bytes × IsRequest r }
    ensures all_spellings { (bytes : List ℕ) (r : StatsRequest) → IsRequest r → SpellsRequest r bytes
        → request_in bytes ≡ Ok r }
    ensures round_trip { (xid : ℕ) (r : StatsRequest) → IsRequest r
        → request_in (drop 8 (request_message xid r)) ≡ Ok r }
{}

/// What is read as a reply is spelled so, whatever is spelled so is read, and so is the body of each
/// message that is written.
pub fn replies()
    ensures only_spellings { (bytes : List ℕ) (r : StatsReply) → IsBytes bytes → 4 ≤ length bytes →
        reply_in bytes ≡ Ok r → SpellsReply r bytes × IsBody r.body }
    ensures all_spellings { (bytes : List ℕ) (r : StatsReply) → IsBody r.body → SpellsReply r bytes
        → reply_in bytes ≡ Ok r }
    ensures round_trip { (xid : ℕ) (body : ReplyBody) → IsBody body →
        All (λ r. reply_in (drop 8 (reply_message xid r)) ≡ Ok r) (replies_of body) }
    // What is read of a message, which has 8 bytes before it, can be written.
    ensures writable { (bytes : List ℕ) (r : StatsReply) → IsBytes bytes → 4 ≤ length bytes → 8 + length bytes ≤ 65535 →
        reply_in bytes ≡ Ok r → CanWriteBody r.body }
{}

/// The parts' entries, in order, are those of the reply; each part fits or is one entry, and none could
/// have taken the entry behind it.
pub fn cutting()
    ensures whole { (entries : List FlowStat) → flat_map (λ part. part) (parts entries) ≡ entries }
    ensures greedy { (first : FlowStat) (others : List FlowStat) → AreGreedy (parts (first ∷ others)) }
    ensures empty { parts [] ≡ [] ∷ [] }
{}

/// The definitions give what is written by hand in these examples.
pub fn worked_examples()
    ensures poll { PollIsSpelled }
    ensures faults { FaultsAreFirst }
    ensures parts { TwoAndTwenty }
{}
