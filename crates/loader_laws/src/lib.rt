//! A law of stored images, stated as the contract of a function.
#![tactic(auto)]

ghost use Rattle.std.specs.Prelude.{◌≡◌, Ok};
ghost use Rattle.tpcc_model.specs.Database.{Database};
ghost use Rattle.tpcc_model.specs.Soundness.{IsSound};
ghost use Rattle.loader.specs.Image.{image};
ghost use Rattle.stored_image.specs.StoredImage.{image_text};

/// Reading the image of a sound database gives that database.
pub fn image_read_back()
    ensures { (db : Database) → IsSound db → image (image_text db) ≡ Ok db }
{}
