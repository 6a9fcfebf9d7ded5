//! Laws of counts: each function's contract is the law.
ghost use Rattle.stats_map.specs.Histories.{CountsAreOfAll, TwoCookiesAreCounted};
ghost use Rattle.stats_map.specs.Pending.{LastReportEnds, OldNumbersRestore};

/// Whatever is written, reported and forgotten, the count of a leaf that isn't to be forgotten is the sum over
/// all cookies that were ever written and name it, each once; it stands still at 2^64 - 1.
pub fn counting()
    ensures { CountsAreOfAll }
{}

/// A last report of the numbers that a cookie has ends it as it is.
pub fn last_report()
    ensures { LastReportEnds }
{}

/// A cookie that has other numbers and then its old ones again is as it was, and so are all counts.
pub fn old_numbers()
    ensures { OldNumbersRestore }
{}

/// An entry of one leaf twice is replaced: both cookies are counted, 7 and 3 packets are 10.
pub fn worked_counts()
    ensures { TwoCookiesAreCounted }
{}
