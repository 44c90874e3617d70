//! That what is put into a log is read again.

ghost use Rattle.std.specs.Prelude.{◌≡◌, ◌++◌, ◌↔◌, ℕ, List, IsTrue, length, map};
ghost use Rattle.log_codec.specs.LogText.{Chunk, version_1, records_of, AreChunks, IsLog, IsLogOf, BeginsLog};
ghost use Rattle.log_codec.specs.Kept.{KeptLog, log_within, StandInFull, AreAll};
ghost use Rattle.log_codec.specs.Putting.{log_record, log_chunk, put_text};

/// A law: a head, chunks of any threads, and an end with the number of records, put one after the other, are the log text of
/// what a log has of these chunks; and each prefix of them begins a log text.
pub fn what_is_put_is_a_log()
    ensures whole { (cs : List Chunk) → AreChunks (map log_chunk cs) →
        IsLogOf (put_text cs) (map log_chunk cs) }
    ensures prefix { (cs : List Chunk) (bytes more : List ℕ) → AreChunks (map log_chunk cs) → bytes ++
        more ≡ put_text cs → BeginsLog bytes }
{}

/// A law: what `parse` keeps of it is what a log has of the records, in order, and it is whole; and of a prefix the records that
/// stand in it in full.
pub fn what_is_put_is_read_again()
    ensures records { (cs : List Chunk) (kept : KeptLog) → AreChunks (map log_chunk cs) →
        AreAll (put_text cs) kept.records → kept.records ≡ map log_record (records_of cs) }
    ensures whole { (cs : List Chunk) (kept : KeptLog) → AreChunks (map log_chunk cs) →
        (IsTrue kept.whole ↔ IsLog (put_text cs)) → IsTrue kept.whole }
    ensures prefix { (cs : List Chunk) (bytes more : List ℕ) (kept : KeptLog) →
        AreChunks (map log_chunk cs) → bytes ++ more ≡ put_text cs → StandInFull bytes kept.records →
        kept.records ≡ log_within version_1 (length bytes) (map log_chunk cs) }
{}
