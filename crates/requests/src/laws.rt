//! Round-trip laws of reading and writing, as contracts of functions: a call proves the law.
ghost use Rattle.std.specs.Prelude.{All, ◌≡◌, List};
ghost use Rattle.requests.specs.Batches.{batches, clean};
ghost use Rattle.requests.specs.BatchText.{IsReadBatch, batches_text};
ghost use Rattle.requests.specs.declared.request.Batch.{Batch};

/// Reading the text of batches within the limits gives the batches.
pub fn batches_read_back()
    ensures { (bs : List Batch) → All IsReadBatch bs → batches (batches_text bs) ≡ (bs, clean) }
{}
