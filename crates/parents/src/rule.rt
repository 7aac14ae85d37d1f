// Rule 39 at a section, and the first node that breaks it.
ghost use Rattle.std.specs.Prelude.{◌≡◌, true, ◌*◌, ◌≤◌, ◌<◌, length};
ghost use Rattle.model.specs.Found.{if_below};
ghost use Rattle.model.specs.Lists.{seek_from, every_from};
ghost use Rattle.model.specs.Image.{tree_of, node_count};
ghost use Rattle.model.specs.Given.{Sound};
ghost use Rattle.model.specs.Elements.{NGON, parents_of, parents_lawful};
ghost use Rattle.index.specs.Index.{Index};
ghost use Rattle.section_data.specs.Given.{Stores};
ghost use Rattle.section_data.specs.Ranges.{is_ranged, Cells};
ghost use Rattle.parents.specs.Parents.{pair_at, stores_parents, parents_broken, parents_if};

use super::columns::are_cells;
use element_types::NGON;
use labels::Role;
use records::data_types::{I4, I8};
use rows::Row;
use section_data::{element_count, range_if};
use sids::{parents_of, range_of};

// Do n faces have parents in zone z: is each of the first n numbers of node j a cell, and each of the n after them a cell or 0?
fn columns_lawful(
    image: &[u8],
    z: usize,
    j: usize,
    n: usize,
    firsts: &[u64],
    reach: &[u64],
    cells: usize,
) -> bool
    requires sound { (Sound image.now × Stores image.now j (n * 2)) × (z < 4096) }
    requires cells { Cells (tree_of image.now) firsts.now reach.now cells }
    ensures { result ≡ every_from (pair_at (tree_of image.now) z j n) n 0 }
{
    let at = records::data_start(image, j);
    let width = records::width_at(image, j);
    let first = Row { at, width, n };
    if !are_cells(image, z, first, false, firsts, reach, cells) {
        return false;
    }
    let second = Row {
        at: at + width * n,
        width,
        n,
    };
    are_cells(image, z, second, true, firsts, reach, cells)
}

// Are the parents that section s stores at node j lawful?
fn is_lawful(
    image: &[u8],
    index: &[u16],
    s: usize,
    j: usize,
    firsts: &[u64],
    reach: &[u64],
    cells: usize,
) -> bool
    requires index { (Index image.now index.now × (s < node_count image.now)) × (is_ranged (tree_of image.now) NGON s ≡ true) }
    requires j_value { (j ≡ parents_of (tree_of image.now) s) × (j < node_count image.now) }
    requires cells { Cells (tree_of image.now) firsts.now reach.now cells }
    ensures { result ≡ parents_lawful (tree_of image.now) s }
{
    let n = element_count(image, range_of(image, index, s).unwrap(), s);
    if !types::typed_either(image, j, I4, I8) {
        return false;
    }
    if !types::shaped(image, j, 2, [n, 2, 0]) {
        return false;
    }
    let z = records::parent_of(image, s);
    columns_lawful(image, z, j, n as usize, firsts, reach, cells)
}

// The ParentElements of node i where it is a section of faces whose own data and range count.
fn parents_if(image: &[u8], index: &[u16], i: usize) -> Option<usize>
    requires { Index image.now index.now × (i < node_count image.now) }
    ensures { result ≡ parents_if (tree_of image.now) i }
{
    if !index::validated_as(image, index, Role::Elements, i) {
        return None;
    }
    range_if(image, index, NGON, i)?;
    parents_of(image, index, i, NGON)
}

// Does node i break rule 39?
fn is_broken(
    image: &[u8],
    index: &[u16],
    i: usize,
    firsts: &[u64],
    reach: &[u64],
    cells: usize,
) -> bool
    requires index { Index image.now index.now × (i < node_count image.now) }
    requires cells { Cells (tree_of image.now) firsts.now reach.now cells }
    ensures { result ≡ parents_broken (tree_of image.now) i }
{
    let Some(j) = parents_if(image, index, i) else {
        return false;
    };
    !is_lawful(image, index, i, j, firsts, reach, cells)
}

// The first section of faces that stores parents.
fn first_stored(image: &[u8], index: &[u16]) -> Option<usize>
    requires { Index image.now index.now }
    ensures { result ≡ if_below (node_count image.now) (seek_from (stores_parents (tree_of image.now)) (node_count image.now) 0) }
{
    (0..labels::node_count(image)).find(|i| parents_if(image, index, *i).is_some())
}

// The first node that breaks rule 39, where none before node `start` stores parents.
fn first_broken_from(
    image: &[u8],
    index: &[u16],
    start: usize,
    firsts: &[u64],
    reach: &[u64],
    cells: usize,
) -> Option<usize>
    requires index { Index image.now index.now × Cells (tree_of image.now) firsts.now reach.now cells }
    requires start_value { start ≡ seek_from (stores_parents (tree_of image.now)) (node_count image.now) 0 }
    ensures { result ≡ if_below (node_count image.now) (seek_from (parents_broken (tree_of image.now)) (node_count image.now) 0) }
{
    (start..labels::node_count(image)).find(|i| is_broken(image, index, *i, firsts, reach, cells))
}

// The first node that breaks rule 39. Where no section stores parents the tables are left as they are.
pub fn first_broken(
    image: &[u8],
    index: &[u16],
    firsts: &mut [u64],
    reach: &mut [u64],
) -> Option<usize>
    requires index { Index image.now index.now }
    requires in_bounds { (2048 ≤ length firsts.old) × (2048 ≤ length reach.old) }
    ensures { result ≡ if_below (node_count image.now) (seek_from (parents_broken (tree_of image.now)) (node_count image.now) 0) }
{
    let start = first_stored(image, index)?;
    let cells = section_data::gather_cells(image, index, firsts, reach);
    first_broken_from(image, index, start, firsts, reach, cells)
}
