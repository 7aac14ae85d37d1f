// Numbers of one class linked in a lent table: each with the one before it.
ghost use Rattle.std.specs.Prelude.{◌≡◌, ◌≤◌, ◌<◌, length};
ghost use Rattle.texts.specs.Links.{NoneLinked, with_link};

// Where the number before each number stands in the table; in front of it stands the last number of each class. Both are stored one
// higher, 0 for none.
pub const BEFORE: usize = 4096;

// How many numbers a class has at most.
const MOST: usize = 4096;

// Leaves no class with a number.
pub fn clear(links: &mut [u16])
    requires { 4096 ≤ length links.old }
    ensures { NoneLinked links.new }
{
    links[..BEFORE].fill(0);
}

// Makes number i the last of its class.
pub fn add(links: &mut [u16], i: usize, class: usize)
    requires { ((i < 4096) × (class < 4096)) × (8192 ≤ length links.old) }
    ensures { links.new ≡ with_link links.old i class }
{
    links[BEFORE + i] = links[class];
    links[class] = (i + 1) as u16;
}

// How many numbers of a class are linked; 4,096 where there are more.
pub fn class_size(links: &[u16], class: usize) -> usize
    requires { (class < 4096) × (8192 ≤ length links.now) }
    ensures { result ≤ 4096 }
{
    let mut j = links[class] as usize;
    for n in 0..MOST {
        if j == 0 || MOST < j {
            return n;
        }
        j = links[BEFORE + (j - 1)] as usize;
    }
    MOST
}
