// Stored numbers.
ghost use Rattle.std.specs.Prelude.{◌≡◌, true, ◌&&◌, [], ◌∷◌, ◌<◌, leb};
ghost use Rattle.model.specs.Image.{tree_of, node_count, number, I4};
ghost use Rattle.model.specs.Given.{Sound};
ghost use Rattle.model.specs.Values.{typed, flat, not_negative, rind_value};
ghost use Rattle.types.specs.Given.{HasNumber};

// The greatest size, rind number and element number.
pub const MAX_NUMBER: u64 = 2147483647;

// Stored number k of node i, in the node's own width.
pub fn whole(image: &[u8], i: usize, k: usize) -> u64
    requires { Sound image.now × HasNumber image.now i k }
    ensures { result ≡ number (tree_of image.now) i k }
{
    records::number(image, i, k, records::width_at(image, i))
}

// Of two stored numbers the first is at least 1, the second no lower, and at most `most`.
pub fn pair_within(image: &[u8], i: usize, most: u64) -> bool
    requires { Sound image.now × HasNumber image.now i 1 }
    ensures { result ≡ (leb 1 (number (tree_of image.now) i 0)
        && leb (number (tree_of image.now) i 0) (number (tree_of image.now) i 1)
        && leb (number (tree_of image.now) i 1) most) }
{
    let first = whole(image, i, 0);
    let last = whole(image, i, 1);
    if first < 1 {
        return false;
    }
    if last < first {
        return false;
    }
    last <= most
}

// Stored number k of node i is not negative.
pub fn not_negative(image: &[u8], i: usize, k: usize) -> bool
    requires { Sound image.now × HasNumber image.now i k }
    ensures { result ≡ not_negative (tree_of image.now) i k }
{
    whole(image, i, k) <= MAX_NUMBER
}

// Rind_t: none of the numbers of a node with one dimension is negative.
pub fn rind_value(image: &[u8], i: usize) -> bool
    requires sound { Sound image.now × (i < node_count image.now) }
    requires i_value { (typed (tree_of image.now) i (I4 ∷ []) ≡ true) × (flat (tree_of image.now) i ≡ true) }
    ensures { result ≡ rind_value (tree_of image.now) i }
{
    let n = records::dimension(image, i, 0) as usize;
    for k in 0..n {
        if !not_negative(image, i, k) {
            return false;
        }
    }
    true
}
