// Corner reads with the entries of a flat list: one of them, and a list of them.
#![tactic(auto)]

ghost use Rattle.std.specs.Prelude.{◌≡◌, ◌<◌};
ghost use Rattle.model.specs.Answers.{corner_tells};
ghost use Rattle.model.specs.Reads.{EntryRead};
ghost use Rattle.model.specs.ReadList.{requests_in, answer_at, number_of, rule_of, ReadsAnswered};

use corners::corner;
use model::Rejection;

// One read with an entry of the list; 40 where there is no such entry. Image and entries stay as they are.
pub fn one_read(
    image: &[u8],
    entries: &[u64],
    which: u64,
    element: u64,
    corner_number: u64,
) -> Result<i64, Rejection>
    ensures { EntryRead image.now entries.now which element corner_number result image.now entries.now }
{
    let k = which as usize;
    if k < entries.len() / entries::ENTRY_LENGTH {
        return corner(
            image,
            entries::section_at(entries, k),
            element,
            corner_number,
        );
    }
    Err(Rejection::at(40, 0))
}

// An answer's number; 0 where it is a rejection.
fn number_of(c: Result<i64, Rejection>) -> i64
    ensures { result ≡ number_of (corner_tells c) }
{
    match c {
        Ok(n) => n,
        Err(_) => 0,
    }
}

// An answer's rule; 0 where it is a number.
fn rule_of(c: Result<i64, Rejection>) -> u64
    ensures { result ≡ rule_of (corner_tells c) }
{
    match c {
        Ok(_) => 0,
        Err(r) => r.rule,
    }
}

// The i-th read of a list, three numbers each: entry, element, corner.
fn answer_at(image: &[u8], entries: &[u64], reads: &[u64], i: usize) -> Result<i64, Rejection>
    requires { i < requests_in reads.now }
    ensures { corner_tells result ≡ answer_at image.now entries.now reads.now i }
{
    let j = 3 * i;
    one_read(image, entries, reads[j], reads[j + 1], reads[j + 2])
}

// Every read of a list, and how many they are. The i-th answer is a number and a rule, 0 for none, in the i-th place of the two lists; what lies beyond
// stays. Rule 46, and nothing is written, where one of them is too short. Image and entries stay as they are.
pub fn corner_reads(
    image: &[u8],
    entries: &[u64],
    reads: &[u64],
    numbers: &mut [i64],
    rules: &mut [u64],
) -> Result<u64, Rejection>
    ensures { ReadsAnswered image.now entries.now reads.now numbers.old rules.old
        result image.now entries.now numbers.new rules.new }
{
    let n = reads.len() / 3;
    if numbers.len() < n {
        return Err(Rejection::at(46, 0));
    }
    if rules.len() < n {
        return Err(Rejection::at(46, 0));
    }
    for i in 0..n {
        let a = answer_at(image, entries, reads, i);
        numbers[i] = number_of(a);
        rules[i] = rule_of(a);
    }
    Ok(n as u64)
}
