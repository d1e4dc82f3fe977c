// The laws of the image behind a world.

ghost use Rattle.tdb_law.specs.Images.{ImageMapAnswers, TurnKeepsImage, ImageIsPlain, IdleIsAccepted};

/// The finite map of an image answers as `map_of` does. The law is over all images; the function does nothing.
pub fn image_map_answers()
    ensures law { ImageMapAnswers }
{}

/// A turn that keeps the image accepted with the opener's own hands, whatever the others' are, keeps it accepted
/// with the hands of all unfinished commands; between turns the image gives the committed map at each key whose
/// chain nobody holds for writing; and where every opener is idle the image is accepted with no hand out. The law
/// is over all worlds and images; the function does nothing.
pub fn image_stays_accepted()
    ensures turn { TurnKeepsImage }
    ensures plain { ImageIsPlain }
    ensures idle { IdleIsAccepted }
{}
