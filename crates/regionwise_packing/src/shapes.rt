// Sizes, rectangles and sides, in samples.
ghost use Rattle.std.specs.Prelude.{◌≡◌, ◌&&◌, not};
ghost use Rattle.regionwise_packing.specs.Packing.{spacious};

// Of a picture.
#[derive(Clone, Copy, PartialEq, Eq, Debug)]
pub struct Size<T> {
    pub width: T,
    pub height: T,
}

// Of a region: its size, its first row and its first column.
#[derive(Clone, Copy, PartialEq, Eq, Debug)]
pub struct Rectangle<T> {
    pub width: T,
    pub height: T,
    pub top: T,
    pub left: T,
}

impl<T: Copy> Rectangle<T> {
    // Its width and its height.
    pub(crate) fn size(self) -> Size<T>
        ensures { (result.width ≡ self.width) × (result.height ≡ self.height) }
    {
        Size {
            width: self.width,
            height: self.height,
        }
    }
}

// One value for each side of a region.
#[derive(Clone, Copy, PartialEq, Eq, Debug)]
pub struct Sides<T> {
    pub left: T,
    pub right: T,
    pub top: T,
    pub bottom: T,
}

// Whether one of both has no area. It is the same test for two types of number: a method of `Size<T>` would need a trait for numbers with a zero.
pub(crate) fn lacks_area(projected: Size<u32>, packed: Size<u16>) -> bool
    ensures { result ≡ not (spacious projected && spacious packed) }
{
    projected.width == 0 || projected.height == 0 || packed.width == 0 || packed.height == 0
}
