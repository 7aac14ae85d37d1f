// The path of a node: the names from below the root, each after a slash.
#![tactic(auto)]

ghost use Rattle.std.specs.Prelude.{◌≡◌, ◌+◌, ◌≤◌, ◌<◌, length, take, drop};
ghost use Rattle.model.specs.Lists.{over, over_at};
ghost use Rattle.model.specs.Image.{tree_of, node_count, record_at, name};
ghost use Rattle.model.specs.Path.{trimmed, path_of, path_answer, path_memory};
ghost use Rattle.model.specs.Answers.{count_tells};
ghost use Rattle.model.specs.Bounds.{Laid};
ghost use Rattle.model.specs.Given.{Sound};
ghost use Rattle.paths.specs.Names.{step_of, names_of};

use model::Rejection;
use records::{Header, Record};

// The length of the 32 bytes from `at` without the blanks at their end.
fn text_length(image: &[u8], at: usize) -> usize
    requires { at + 32 ≤ length image.now }
    ensures { (trimmed (take 32 (drop at image.now)) ≡ take result (drop at image.now)) × (result ≤ 32) }
{
    for k in (0..Record::TEXT_SIZE).rev() {
        if image[at + k] != b' ' {
            return k + 1;
        }
    }
    0
}

// The length of the name of node i.
fn name_length(image: &[u8], i: usize) -> usize
    requires { Laid image.now × (i < node_count image.now) }
    ensures { (trimmed (name (tree_of image.now) i) ≡ take result (drop (record_at i) image.now)) × (result ≤ 32) }
{
    text_length(image, Record::at(i))
}

// Writes a slash and the name of node i to `out` from k on, and answers the index after them.
fn write_name(image: &[u8], i: usize, out: &mut [u8], k: usize) -> usize
    requires { (Laid image.now × (i < node_count image.now)) × (k + length (step_of (tree_of image.now) i) ≤ length out.old) }
    ensures { (result ≡ k + length (step_of (tree_of image.now) i))
        × (out.new ≡ over_at k out.old (step_of (tree_of image.now) i)) }
{
    let p = Record::at(i);
    let n = name_length(image, i);
    out[k] = b'/';
    words::put_bytes(out, k + 1, &image[p..p + n]);
    k + 1 + n
}

// Writes the names from below the root down to node i in front of `out`, the parent's first, and answers their length.
fn write_names(image: &[u8], i: usize, out: &mut [u8]) -> usize
    requires { (Sound image.now × (i < node_count image.now)) × (length (names_of (tree_of image.now) i) ≤ length out.old) }
    ensures { (result ≡ length (names_of (tree_of image.now) i))
        × (out.new ≡ over out.old (names_of (tree_of image.now) i)) }
{
    if i == 0 {
        return 0;
    }
    let p = records::parent_of(image, i);
    let k = write_names(image, p, out);
    write_name(image, i, out, k)
}

// The length of the names from below the root down to node i, each with its slash.
fn names_length(image: &[u8], i: usize) -> usize
    requires { Sound image.now × (i < node_count image.now) }
    ensures { result ≡ length (names_of (tree_of image.now) i) }
{
    let mut n: usize = 0;
    let mut j = i;
    while j != 0 {
        n += 1 + name_length(image, j);
        j = records::parent_of(image, j);
    }
    n
}

// The length of the path of node i; the root's is one slash.
fn path_length(image: &[u8], i: usize) -> usize
    requires { Sound image.now × (i < node_count image.now) }
    ensures { result ≡ length (path_of (tree_of image.now) i) }
{
    if i == 0 {
        return 1;
    }
    names_length(image, i)
}

// Writes the path of node i in front of `out`; the bytes beyond it stay.
fn write_path(image: &[u8], i: usize, out: &mut [u8])
    requires { (Sound image.now × (i < node_count image.now)) × (length (path_of (tree_of image.now) i) ≤ length out.old) }
    ensures { out.new ≡ over out.old (path_of (tree_of image.now) i) }
{
    if i == 0 {
        out[0] = b'/';
        return;
    }
    write_names(image, i, out);
}

// The path of a node of an image in which rules 1 to 18 hold: rule 40, then 46, then the path in front of `out` and its length.
fn sound_path(image: &[u8], node: u64, out: &mut [u8]) -> Result<u64, Rejection>
    requires { Sound image.now }
    ensures { (count_tells result ≡ path_answer image.now node (length out.old))
        × (out.new ≡ path_memory image.now node out.old) }
{
    let count = words::u32_at(image, Header::NODE_COUNT);
    if count <= node {
        return Err(Rejection::at(40, 0));
    }
    let i = node as usize;
    let n = path_length(image, i);
    if out.len() < n {
        return Err(Rejection::at(46, 0));
    }
    write_path(image, i, out);
    Ok(n as u64)
}

// The path of a node: rules 1 to 18, then 40, then 46; the path is written in front of `out`, its length answered, and the bytes beyond it stay.
// A rejection leaves `out` as it was.
pub fn path(image: &[u8], node: u64, out: &mut [u8]) -> Result<u64, Rejection>
    ensures { (count_tells result ≡ path_answer image.now node (length out.old))
        × (out.new ≡ path_memory image.now node out.old) }
{
    table::table_stage(image)?;
    sound_path(image, node, out)
}
