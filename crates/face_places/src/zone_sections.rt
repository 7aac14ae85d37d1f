// The sections of a zone of an accepted image.
ghost use Rattle.std.specs.Prelude.{◌≡◌, ◌&&◌, ◌<◌, eqb};
ghost use Rattle.model.specs.Image.{tree_of, node_count};
ghost use Rattle.model.specs.Given.{Accepted};
ghost use Rattle.model.specs.Containment.{section_of};
ghost use Rattle.model.specs.Elements.{element_type_of};
ghost use Rattle.index.specs.Index.{Index};
ghost use Rattle.face_places.specs.ZoneSections.{Section, Spans};

// The first and the last element of a section.
#[derive(Clone, Copy)]
pub struct Span {
    pub first: u64,
    pub last: u64,
}

// Is node s a section of node z, of element type e?
pub fn has_type(image: &[u8], index: &[u16], z: usize, s: usize, e: u64) -> bool
    requires { Accepted image.now × (Index image.now index.now × (s < node_count image.now)) }
    ensures { result ≡ (section_of (tree_of image.now) z s && eqb (element_type_of (tree_of image.now) s) e) }
{
    if !index::section_of(image, index, z, s) {
        return false;
    }
    types::whole(image, s, 0) == e
}

// The elements of section s.
pub fn span_of(image: &[u8], index: &[u16], s: usize) -> Span
    requires { Section image.now index.now s }
    ensures { Spans image.now s result }
{
    let range = sids::range_of(image, index, s).unwrap();
    Span {
        first: types::whole(image, range, 0),
        last: types::whole(image, range, 1),
    }
}
