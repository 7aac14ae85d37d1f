// The sections of a zone, one after the other in node order.
ghost use Rattle.std.specs.Prelude.{◌≡◌, ◌+◌, ◌-◌, ◌≤◌, ◌<◌, length, get_or};
ghost use Rattle.model.specs.Found.{if_below};
ghost use Rattle.model.specs.Lists.{seek_from};
ghost use Rattle.model.specs.Image.{tree_of, node_count};
ghost use Rattle.model.specs.Containment.{section_of};
ghost use Rattle.index.specs.Index.{Index};
ghost use Rattle.model.specs.Sections.{section_nodes, entry};
ghost use Rattle.zone_sections.specs.After.{sections_after, Onward};

use super::entry::entry_of;
use model::Section;

// The first section of the zone after node i.
fn section_after(image: &[u8], index: &[u16], zone: usize, i: usize) -> Option<usize>
    requires { Index image.now index.now × (i < node_count image.now) }
    ensures { result ≡ if_below (node_count image.now) (seek_from (section_of (tree_of image.now) zone) (node_count image.now - (i + 1)) (i + 1)) }
{
    (i + 1..labels::node_count(image)).find(|j| index::section_of(image, index, zone, *j))
}

// The entry of the zone's first section after node i, where there is one.
pub fn entry_after(image: &[u8], index: &[u16], zone: u64, i: u64) -> Section
    requires { Onward image.now index.now zone i }
    ensures { result ≡ entry (tree_of image.now) (get_or (sections_after (tree_of image.now) zone i) 0 0) }
{
    let s = section_after(image, index, zone as usize, i as usize).unwrap();
    entry_of(image, index, s)
}

// How many sections the zone has. They have higher numbers than the zone.
pub fn section_count(image: &[u8], index: &[u16], zone: usize) -> usize
    requires { Index image.now index.now × (zone < node_count image.now) }
    ensures { (result ≡ length (section_nodes (tree_of image.now) zone)) × (result ≤ 4096) }
{
    let n = labels::node_count(image);
    let mut count = 0;
    for j in zone + 1..n {
        if index::section_of(image, index, zone, j) {
            count += 1;
        }
    }
    count
}
