// Recipes that are filled, changed and refused.
use crate::edits::Element;
use raster::Offsets;
use refusal::Refusal;

const WIDE: Offsets = Offsets {
    left: -255,
    right: 255,
    up: -255,
    down: 255,
};

const LOW: Offsets = Offsets { up: 255, ..WIDE };

#[test]
fn sixteen_places(rt: HostRuntime) {
    let mut element = Element::new();
    assert_eq!(rt; element.rectangles().len(), 0);
    assert_eq!(rt; element.replace(0, WIDE), Err(Refusal::NoPlace));
    for count in 1..17usize {
        assert_eq!(rt; element.add(WIDE), Ok(count));
    }
    assert_eq!(rt; element.add(LOW), Err(Refusal::NoPlace));
    assert_eq!(rt; element.replace(15, LOW), Ok(16));
    assert_eq!(rt; element.replace(16, LOW), Err(Refusal::NoPlace));
    assert_eq!(rt; element.rectangles().first().copied(), Some(WIDE));
    assert_eq!(rt; element.rectangles().last().copied(), Some(LOW));
}

// Turned offsets and those past 255 are refused before the places are looked at.
#[test]
fn offsets(rt: HostRuntime) {
    let mut element = Element::new();
    let refused = [
        Offsets { left: -256, ..WIDE },
        Offsets { right: 256, ..WIDE },
        Offsets { up: -256, ..WIDE },
        Offsets { down: 256, ..WIDE },
        Offsets {
            left: 1,
            right: 0,
            ..WIDE
        },
        Offsets {
            up: 1,
            down: 0,
            ..WIDE
        },
    ];
    for offsets in refused {
        assert_eq!(rt; element.add(offsets), Err(Refusal::Offsets));
        assert_eq!(rt; element.replace(0, offsets), Err(Refusal::Offsets));
    }
    assert_eq!(rt; element.rectangles().len(), 0);
}
