// What holds of all images.

ghost use Rattle.cyc_image.specs.Format.{HasOneMeaning, HasOneText};

/// A law, with nothing to run: an image has one text.
pub fn one_text()
    ensures { HasOneText }
{}

/// A law, with nothing to run: a text is an image of one thing.
pub fn one_meaning()
    ensures { HasOneMeaning }
{}
