// Rules 29 to 33: the lengths and the start offsets of a section.
ghost use Rattle.std.specs.Prelude.{◌≡◌, true, ◌&&◌, ◌-◌, ◌≤◌, ◌<◌, T, leb};
ghost use Rattle.words.specs.Width.{is_width};
ghost use Rattle.model.specs.Lists.{every_from};
ghost use Rattle.model.specs.Bytes.{half, below};
ghost use Rattle.model.specs.Corner.{number_at};
ghost use Rattle.model.specs.Image.{tree_of};
ghost use Rattle.model.specs.Given.{Sound};
ghost use Rattle.model.specs.Elements.{has_offsets, element_type_of, element_count, connectivity_length, least_size};
ghost use Rattle.model.specs.Rules.{check};
ghost use Rattle.model.specs.Answers.{stage_tells};
ghost use Rattle.index.specs.Index.{Index};
ghost use Rattle.rows.specs.Rows.{Numbers};
ghost use Rattle.elements.specs.Arrays.{rises_by, offset_rules};
ghost use Rattle.section_data.specs.Given.{SectionContext};
ghost use Rattle.references.specs.Groups.{shape_rules};

use element_types::{NFACE, NGON, has_offsets, nodes_per};
use model::Rejection;
use rows::Row;
use section_data::{row_of, size_of};
use sids::offsets_of;

// Is y above x, and by at least `least`, of two numbers of a width of which x is not negative?
fn rises(x: u64, y: u64, width: usize, least: u64) -> bool
    requires { (T (is_width width) × (x < half width)) × (least ≤ 4) }
    ensures { result ≡ (below width x y && leb least (y - x)) }
{
    if rows::half_of(width) <= y {
        return false;
    }
    if least == 0 {
        return x < y;
    }
    x + least <= y
}

// Rules 31 and 33: is each of a row of start offsets above its predecessor, and by at least `least`? The first is 0.
fn all_rise(image: &[u8], row: Row, least: u64) -> bool
    requires numbers { Numbers image.now row.at row.width row.n × (0 < row.n) }
    requires width_value { (number_at image.now row.at row.width 0 ≡ 0) × (least ≤ 4) }
    ensures { result ≡ every_from (rises_by image.now row.at row.width least) (row.n - 1) 0 }
{
    let n = row.n - 1;
    let width = row.width;
    let mut last: u64 = 0;
    for k in 0..n {
        let next = rows::number_at(image, row, k + 1);
        if !rises(last, next, width, least) {
            return false;
        }
        last = next;
    }
    true
}

// Rules 30 to 33 of the start offsets of section s: the first is 0, each is above its predecessor, the last is the connectivity length, and no two
// neighbours are less than `least` apart. One pass over lawful ones; where it fails, another asks rule 31 alone.
fn offsets_stage(image: &[u8], s: usize, row: Row, length: u64, least: u64) -> Result<(), Rejection>
    requires { (Numbers image.now row.at row.width row.n × (0 < row.n)) × (least ≤ 4) }
    ensures { stage_tells result ≡ check s (offset_rules image.now row.at row.width (row.n - 1) length least) }
{
    let n = row.n - 1;
    if rows::number_at(image, row, 0) != 0 {
        return Err(Rejection::at(30, s as u64));
    }
    let ends = rows::number_at(image, row, n) == length;
    if all_rise(image, row, least) {
        if ends {
            return Ok(());
        }
        return Err(Rejection::at(32, s as u64));
    }
    if !all_rise(image, row, 0) {
        return Err(Rejection::at(31, s as u64));
    }
    if !ends {
        return Err(Rejection::at(32, s as u64));
    }
    Err(Rejection::at(33, s as u64))
}

// The least size of an element of section s; 0 where rule 33 asks nothing.
fn least_size(image: &[u8], s: usize, element_type: u64) -> u64
    requires sound { Sound image.now × SectionContext image.now s }
    requires element_type_value { element_type ≡ element_type_of (tree_of image.now) s }
    ensures { (result ≡ least_size (tree_of image.now) s) × (result ≤ 4) }
{
    let base = records::parent_of(image, records::parent_of(image, s));
    if types::whole(image, base, 0) != 3 {
        return 0;
    }
    if element_type == NGON {
        return 3;
    }
    if element_type == NFACE {
        return 4;
    }
    0
}

// Rules 29 to 33 at section s, whose n elements are found by start offsets.
fn offset_shape(
    image: &[u8],
    index: &[u16],
    s: usize,
    element_type: u64,
    n: u64,
    length: u64,
) -> Result<(), Rejection>
    requires index { Index image.now index.now × SectionContext image.now s }
    requires n_value { (n ≡ element_count (tree_of image.now) s) × (length ≡ connectivity_length (tree_of image.now) s) }
    requires element_type_value { (element_type ≡ element_type_of (tree_of image.now) s) × (has_offsets (element_type_of (tree_of image.now) s) ≡ true) }
    ensures { stage_tells result ≡ check s (shape_rules (tree_of image.now) s) }
{
    let offsets = offsets_of(image, index, s);
    if size_of(image, offsets) != n + 1 {
        return Err(Rejection::at(29, s as u64));
    }
    let least = least_size(image, s, element_type);
    offsets_stage(image, s, row_of(image, offsets.unwrap()), length, least)
}

// Rules 29 to 33 at section s, with n elements.
pub fn shape_stage(
    image: &[u8],
    index: &[u16],
    s: usize,
    element_type: u64,
    n: u64,
    length: u64,
) -> Result<(), Rejection>
    requires index { Index image.now index.now × SectionContext image.now s }
    requires n_value { (n ≡ element_count (tree_of image.now) s) × (length ≡ connectivity_length (tree_of image.now) s) }
    requires element_type_value { element_type ≡ element_type_of (tree_of image.now) s }
    ensures { stage_tells result ≡ check s (shape_rules (tree_of image.now) s) }
{
    if has_offsets(element_type) {
        return offset_shape(image, index, s, element_type, n, length);
    }
    if length == n * nodes_per(element_type) {
        return Ok(());
    }
    Err(Rejection::at(29, s as u64))
}
