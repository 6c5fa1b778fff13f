//! Laws of images: calling such a function gives its law.
ghost use Rattle.std.specs.Prelude.{◌≡◌, ℕ, List, Ok};
ghost use Rattle.tpcc_model.specs.Database.{Database};
ghost use Rattle.tpcc_model.specs.Soundness.{IsSound};
ghost use Rattle.loader.specs.Image.{image};

/// The database of every image is sound.
pub fn images_are_sound()
    ensures { (bytes : List ℕ) (db : Database) → image bytes ≡ Ok db → IsSound db }
{}
