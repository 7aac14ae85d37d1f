// Rules 38 and 34 of a MIXED section: each element begins with its own type, and its nodes follow.
ghost use Rattle.std.specs.Prelude.{◌≡◌, ◌+◌, ◌≤◌, ◌<◌};
ghost use Rattle.model.specs.Image.{tree_of};
ghost use Rattle.model.specs.Values.{connectivity_of};
ghost use Rattle.model.specs.Elements.{MIXED, element_type_of};
ghost use Rattle.model.specs.Rules.{check, passed};
ghost use Rattle.model.specs.Answers.{stage_tells};
ghost use Rattle.index.specs.Index.{Index};
ghost use Rattle.rows.specs.Rows.{Numbers};
ghost use Rattle.references.specs.Arrays.{is_within, Failing};
ghost use Rattle.section_data.specs.Given.{RowOf, SectionContext};
ghost use Rattle.references.specs.Groups.{shape_rules, connectivity_check};
ghost use Rattle.references.specs.Mixed.{fits_in, MixedRows};

use super::nodes::{is_within, vertex_size};
use element_types::fits_length;
use model::Rejection;
use rows::Row;
use section_data::row_of;
use sids::offsets_of;

// Does the element from `start` on and before `end` begin with a type of the fixed list that has as many nodes as follow?
fn type_fits(image: &[u8], connectivity: Row, start: usize, end: usize) -> bool
    requires numbers { Numbers image.now connectivity.at connectivity.width connectivity.n }
    requires start_lt_end { (start < end) × (end ≤ connectivity.n) }
    ensures { result ≡ fits_in image.now connectivity start end }
{
    let own_type = rows::number_at(image, connectivity, start);
    fits_length(own_type, (end - start) as u64)
}

// The place, counted from 1, of the first node outside 1 to limit, to the end of the element from `start` on and before `end`; 0 where there is none.
// `place` tells it of the elements before; where there is one nothing is read. It is no Option: with one the loop over the nodes
// takes 8 instructions in place of 7.
fn place_outside(
    image: &[u8],
    connectivity: Row,
    limit: u64,
    place: usize,
    start: usize,
    end: usize,
) -> usize
    requires numbers { Numbers image.now connectivity.at connectivity.width connectivity.n }
    requires start_lt_end { (start < end) × (end ≤ connectivity.n) }
    ensures { (0 < place → result ≡ place)
        × (place ≡ 0 → Failing (is_within image.now connectivity.at connectivity.width limit) connectivity.n (start + 1) end result) }
{
    if 0 < place {
        return place;
    }
    for k in start + 1..end {
        if !is_within(image, connectivity, limit, k) {
            return k + 1;
        }
    }
    0
}

// Rules 38 and 34 of section s by its two rows: one pass. A type that does not fit, anywhere, comes before a node outside 1 to limit.
fn rows_stage(
    image: &[u8],
    s: usize,
    offsets: Row,
    connectivity: Row,
    limit: u64,
) -> Result<(), Rejection>
    requires { MixedRows image.now s offsets connectivity limit }
    ensures { stage_tells result ≡ connectivity_check (tree_of image.now) s }
{
    let n = offsets.n - 1;
    let mut place: usize = 0;
    let mut start: usize = 0;
    for k in 0..n {
        let end = rows::number_at(image, offsets, k + 1) as usize;
        if !type_fits(image, connectivity, start, end) {
            return Err(Rejection::at(38, s as u64));
        }
        place = place_outside(image, connectivity, limit, place, start, end);
        start = end;
    }
    if place == 0 {
        return Ok(());
    }
    Err(Rejection::at_entry(34, s as u64, place as u64))
}

// Rules 38 and 34 at the MIXED section s, where rules 29 to 33 hold; its connectivity is the row.
pub fn mixed_stage(image: &[u8], index: &[u16], s: usize, row: Row) -> Result<(), Rejection>
    requires index { Index image.now index.now × SectionContext image.now s }
    requires row_of { RowOf image.now (connectivity_of (tree_of image.now) s) row × (element_type_of (tree_of image.now) s ≡ MIXED) }
    requires s_value { check s (shape_rules (tree_of image.now) s) ≡ passed }
    ensures { stage_tells result ≡ connectivity_check (tree_of image.now) s }
{
    let offsets = row_of(image, offsets_of(image, index, s).unwrap());
    let vertices = vertex_size(image, s);
    rows_stage(image, s, offsets, row, vertices)
}
