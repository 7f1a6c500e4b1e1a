//! What holds of the definitions, whatever the code.
ghost use Rattle.std.specs.Prelude.{◌≡◌, ℕ, List};
ghost use Rattle.proof_stream.specs.declared.record.Record.{Record};
ghost use Rattle.proof_stream.specs.Valid.{IsReading};

/// No text is that of two records.
pub fn texts_have_one_record()
    ensures { (text : List ℕ) (r s : Record) → IsReading text r → IsReading text s → r ≡ s }
{}
