ghost use Rattle.std.specs.Prelude.{◌≡◌, ◌↔◌, ◌+◌, ◌^◌, ◌<◌, ◌∷◌, ◌++◌, List, ℕ, length};
ghost use Rattle.ficus_log.specs.Log.{IsLog, IsRecord, Log, log_of, record_range};

/// The law that behind a gate there is one log, of whatever bytes; that what a keeper takes to be read there is exactly
/// this one; and that what an append writes behind an open gate is a record, with a closed gate behind it. It does
/// nothing when it runs.
pub fn one_log()
    ensures some { (last : ℕ) (bytes : List ℕ) → (log : Log) × IsLog last log bytes }
    ensures one { (last : ℕ) (one other : Log) (bytes : List ℕ) → IsLog last one bytes → IsLog last other bytes
        → one ≡ other }
    ensures read { (last : ℕ) (log : Log) (bytes : List ℕ) → log_of last bytes ≡ log ↔ IsLog last log bytes }
    ensures written { (last : ℕ) (body more : List ℕ) → last + 1 < 2 ^ 64 → length body < 2 ^ 32
        → IsRecord last body (0 ∷ more) (1 ∷ (record_range (last + 1) body ++ more)) }
{}
