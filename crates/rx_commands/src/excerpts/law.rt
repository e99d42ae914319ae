ghost use Rattle.std.specs.Prelude.{ℕ, List};
ghost use Rattle.rx_commands.specs.Excerpts.{AnswerAlike, AreAccepted, AreTexts, Disputed, IsDisputed};

/// The law of excerpts, for every job, every record of its batch, and every three texts that are an excerpt of it: a run on
/// the excerpt isn't refused, and it and one on the whole job, each with any stamp and any number of workers, answer the record
/// with one and the same reference and reply, byte for byte (docs/CLI.md, "excerpt").
pub fn law_of_excerpts()
    ensures accepted { (place : ℕ) → (d : Disputed) → (sheet books batch : List ℕ) → AreTexts place d sheet books batch
        → AreAccepted sheet books batch }
    ensures alike { (sheet books batch : List ℕ) → (place : ℕ) → (d : Disputed) → IsDisputed sheet books batch place d
        → (own_sheet own_books own_batch : List ℕ) → AreTexts place d own_sheet own_books own_batch
        → AnswerAlike sheet books batch own_sheet own_books own_batch place }
{}
