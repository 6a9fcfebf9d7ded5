//! Laws of matches. Each function does nothing; its clauses say what is proved of every match.
ghost use Rattle.std.specs.Prelude.{◌≡◌, ◌&&◌, Some, is_some, IsTrue, ◌↔◌};
ghost use Rattle.std.specs.Cmp.{IsTotalOrder};
ghost use Rattle.of10_match.specs.Fields.{HeaderOf, MatchOf};
ghost use Rattle.of10_match.specs.Matching.{both, covers, holds, meet, overlaps};
ghost use Rattle.of10_match.specs.Normal.{IsNormal};
ghost use Rattle.of10_match.specs.Numbers as numbers;
ghost use Rattle.of10_match.specs.Examples.{Everything, LearnedRule, Meets, OnePort, Ranks};
ghost use Rattle.of10_match.specs.OfpMatchFields.{FitsBytes, bytes_of, fields_in};
ghost use Rattle.of10_match.specs.declared.ofp_match.OfpMatch.{OfpMatch};
ghost use Rattle.of10_match.specs.Order.{by_bytes};
ghost use Rattle.of10_match.specs.Ranges.{IsMatch};
ghost use Rattle.of10_match.specs.Same.{same_match};
ghost use Rattle.of10_match.specs.Sets.{Covers, Overlap};
ghost use Rattle.of10_match.specs.Wildcards.{match_bytes, normal_of};

use crate::normal::{ARP, EXACT_RANK, ICMP, IPV4, TCP, UDP, UNTAGGED};
use std::cmp::Ordering;

/// The tests of matches say what they promise of headers.
pub fn test_laws()
    ensures overlaps { (m n : MatchOf) → IsMatch m → IsMatch n → IsTrue (overlaps m n) ↔ Overlap m n }
    ensures covers { (m n : MatchOf) → IsMatch m → IsMatch n → IsTrue (covers m n) ↔ Covers m n }
{}

/// The test of equality decides it.
pub fn equality_laws()
    ensures { (m n : MatchOf) → IsTrue (same_match m n) ↔ (m ≡ n) }
{}

/// The meet of two matches holds what both hold, and does not depend on their order.
pub fn meet_laws()
    ensures holds_both { (m n : MatchOf) (h : HeaderOf)
        → (holds (both m n) h && overlaps m n) ≡ (holds m h && holds n h) }
    ensures overlaps { (m n : MatchOf) → overlaps m n ≡ is_some (meet m n) }
    ensures idempotent { (m : MatchOf) → meet m m ≡ Some m }
    ensures commutative { (m n : MatchOf) → IsMatch m → IsMatch n → meet m n ≡ meet n m }
    ensures normal { (m n : MatchOf) → IsTrue (overlaps m n) → IsNormal m → IsNormal n
        → IsNormal (both m n) }
{}

/// The bytes of a match tell it from every other, and put all matches in one order.
pub fn byte_laws()
    ensures fields { (w : OfpMatch) → FitsBytes w → fields_in (bytes_of w) ≡ w }
    ensures reads_back { (m : MatchOf) → IsMatch m → IsNormal m → normal_of (match_bytes m) ≡ m }
    ensures injective { (m n : MatchOf) → IsMatch m → IsMatch n
        → match_bytes m ≡ match_bytes n → m ≡ n }
    ensures total_order { IsTotalOrder by_bytes }
    ensures equal { (m n : MatchOf) → IsMatch m → IsMatch n → by_bytes m n ≡ Ordering.Equal → m ≡ n }
{}

/// The constants are the numbers of the standard.
pub fn numbers_meet()
    ensures ipv4 { IPV4 ≡ numbers.IPV4 }
    ensures arp { ARP ≡ numbers.ARP }
    ensures untagged { UNTAGGED ≡ numbers.UNTAGGED }
    ensures icmp { ICMP ≡ numbers.ICMP }
    ensures tcp { TCP ≡ numbers.TCP }
    ensures udp { UDP ≡ numbers.UDP }
    ensures exact_rank { EXACT_RANK ≡ numbers.EXACT_RANK }
{}

/// What the definitions give at matches and bytes that are known.
pub fn worked_examples()
    ensures learned_rule { LearnedRule }
    ensures everything { Everything }
    ensures meets { Meets }
    ensures one_port { OnePort }
    ensures ranks { Ranks }
{}
