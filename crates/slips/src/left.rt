// What is left of the slips of a bundle.
ghost use Rattle.std.specs.Prelude.{length};
ghost use Rattle.slips.specs.Inner.Inside.{AllInside};

use crate::bundle::Place;

// The slips of a bundle, beside the objects of a log. All stand in the bundle, so that it is not asked at each object.
#[derive(Clone, Copy)]
pub struct Slips<'a> {
    pub bundle: &'a [u8],
    pub places: [Place; Place::SLIPS],
    pub ghost inside: { AllInside (length bundle.now) places },
}
