// The cell sections of a zone: the references that they bring, and which element holds one.
ghost use Rattle.std.specs.Prelude.{◌≡◌, ◌+◌, ◌-◌, ◌<◌};
ghost use Rattle.model.specs.Image.{tree_of, node_count};
ghost use Rattle.model.specs.Given.{Accepted};
ghost use Rattle.model.specs.Values.{offsets_of};
ghost use Rattle.model.specs.FaceUsage.{element_holding};
ghost use Rattle.index.specs.Index.{Index};
ghost use Rattle.face_places.specs.ZoneSections.{Cells, Spans};
ghost use Rattle.face_uses.specs.Uses.{RowOf, References};

use element_types::NFACE;
use face_places::zone_sections::{Span, has_type, span_of};
use rows::Row;
use section_data::row_of;

// The references of node s, where it is a cell section of zone z; none where it is not.
pub fn references_of(image: &[u8], index: &[u16], z: usize, s: usize) -> Row
    requires { Accepted image.now × (Index image.now index.now × (s < node_count image.now)) }
    ensures { References image.now index.now z s result }
{
    if !has_type(image, index, z, s, NFACE) {
        return Row {
            at: 0,
            width: 4,
            n: 0,
        };
    }
    row_of(image, sids::connectivity_of(image, index, s).unwrap())
}

// The start offsets of cell section s, whose elements are the span.
pub fn cell_offsets(image: &[u8], index: &[u16], s: usize, span: Span) -> Row
    requires { Cells image.now index.now s × Spans image.now s span }
    ensures { RowOf image.now (offsets_of (tree_of image.now) s) (span.last - span.first + 2) result }
{
    let offsets = sids::offsets_of(image, index, s).unwrap();
    Row {
        at: records::data_start(image, offsets),
        width: records::width_at(image, offsets),
        n: (span.last - span.first) as usize + 2,
    }
}

// The element of cell section s whose entries hold entry k.
pub fn element_holding(image: &[u8], index: &[u16], s: usize, k: usize) -> u64
    requires { Cells image.now index.now s }
    ensures { result ≡ element_holding (tree_of image.now) s k }
{
    let span = span_of(image, index, s);
    let offsets = cell_offsets(image, index, s, span);
    span.first + rows::ends_after(image, offsets, k as u64) as u64
}
