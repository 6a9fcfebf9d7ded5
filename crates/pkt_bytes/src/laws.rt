//! Laws of checksums, and worked examples. Each function does nothing; its clauses say what is proved.
ghost use Rattle.std.specs.Prelude.{◌≡◌, ◌<◌, ◌+◌, ◌^◌, ℕ};
ghost use Rattle.pkt_bytes.specs.Checksums.{IsRight, change, mended};
ghost use Rattle.pkt_bytes.specs.Worked.{CutShort, Mended, Redirected};

/// Mending word by word is mending at once, and of words with a right checksum one may change.
pub fn mending()
    ensures at_once { (checksum first second : ℕ)
        → mended (mended checksum first) second ≡ mended checksum (first + second) }
    ensures right { (rest old new checksum : ℕ) → 0 < rest → old < 2 ^ 16 → checksum < 2 ^ 16
        → IsRight (rest + old + checksum) → IsRight (rest + new + mended checksum (change old new)) }
{}

/// The definitions give what is written by hand in these examples.
pub fn worked_examples()
    ensures redirected { Redirected }
    ensures cut_short { CutShort }
    ensures mended { Mended }
{}
