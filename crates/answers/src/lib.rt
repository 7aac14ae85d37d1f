// Answers for C: a rule and words, and words into lent bytes.
#![tactic(auto)]

ghost use Rattle.std.specs.Prelude.{◌≡◌, [], ◌∷◌, ◌*◌, ◌≤◌, length, take, Ok};
ghost use Rattle.std.specs.Int.{w64};
ghost use Rattle.std.proofs.Common.{of_z};
ghost use Rattle.model.specs.Lists.{over};
ghost use Rattle.model.specs.Bytes.{le_bytes, all_bytes};
ghost use Rattle.model.specs.ReadList.{rule_of};
ghost use Rattle.model.specs.Answers.{validation_tells, count_tells, usage_tells, parents_tells, agreement_tells, corner_tells, value_tells, data_size_tells, NanCase, NanCases};
ghost use Rattle.model.specs.Exports.{validation_words, count_words, usage_words, parent_words, agreement_words, value_words, size_words, number_bytes, count_word};

use model::{ArrayValue, DataSize, ParentPair, Rejection, Validation};

// A rule, 0 for none, and up to six words: the node, the entry, and the values.
#[derive(Clone, Copy)]
pub struct ExportAnswer {
    pub rule: u64,
    pub words: [u64; 6],
}

// Writes the first n words of an answer in front of lent bytes and answers its rule; the rest stays.
pub fn put_answer(out: &mut [u8], answer: ExportAnswer, n: usize) -> u64
    requires { (length (take n answer.words) ≡ n) × (8 * n ≤ length out.old) }
    ensures { (result ≡ answer.rule) × (out.new ≡ over out.old (all_bytes 8 (take n answer.words))) }
{
    let words = answer.words;
    words::put_words(out, 0, &words[..n]);
    answer.rule
}

// An answer with four values: no rule, no node, no entry.
fn answered(first: u64, second: u64, third: u64, fourth: u64) -> ExportAnswer
    ensures { (result.rule ≡ 0) × (result.words ≡ 0 ∷ 0 ∷ first ∷ second ∷ third ∷ fourth ∷ []) }
{
    let words = [0, 0, first, second, third, fourth];
    ExportAnswer { rule: 0, words }
}

// A rejection: its rule, its node, its entry, an element, and no more.
fn rejected(r: Rejection, element: u64) -> ExportAnswer
    ensures { (result.rule ≡ r.rule) × (result.words ≡ r.node ∷ r.entry ∷ element ∷ 0 ∷ 0 ∷ 0 ∷ []) }
{
    let rule = r.rule;
    let words = [r.node, r.entry, element, 0, 0, 0];
    ExportAnswer { rule, words }
}

// The two's complement of a whole number at 64 bits.
fn whole_bits(x: i64) -> u64
    ensures { result ≡ of_z w64 x }
{
    x.cast_unsigned()
}

// Validation: node, entry and the four counts.
pub fn validation_answer(v: Result<Validation, Rejection>) -> ExportAnswer
    ensures { (result.rule ≡ rule_of (validation_tells v)) × (take 6 result.words ≡ validation_words (validation_tells v)) }
{
    match v {
        Ok(v) => answered(v.validated, v.skipped, v.zones, v.sections),
        Err(r) => rejected(r, 0),
    }
}

// A count: node, entry, count.
pub fn count_answer(c: Result<u64, Rejection>) -> ExportAnswer
    ensures { (result.rule ≡ rule_of (count_tells c)) × (take 3 result.words ≡ count_words (count_tells c)) }
{
    match c {
        Ok(n) => answered(n, 0, 0, 0),
        Err(r) => rejected(r, 0),
    }
}

// Face usage: node, entry, element, count.
pub fn usage_answer(u: Result<u64, Rejection>) -> ExportAnswer
    ensures { (result.rule ≡ rule_of (usage_tells u)) × (take 4 result.words ≡ usage_words (usage_tells u)) }
{
    match u {
        Ok(n) => answered(0, n, 0, 0),
        Err(r) => rejected(r, r.element),
    }
}

// The parents of a face: node, entry, first, second.
pub fn parents_answer(p: Result<ParentPair, Rejection>) -> ExportAnswer
    ensures { (result.rule ≡ rule_of (parents_tells p)) × (take 4 result.words ≡ parent_words (parents_tells p)) }
{
    match p {
        Ok(p) => answered(p.first, p.second, 0, 0),
        Err(r) => rejected(r, 0),
    }
}

// Agreement: node, entry, element, then 1 where the parents agree and 0 where they do not.
pub fn agreement_answer(a: Result<bool, Rejection>) -> ExportAnswer
    ensures { (result.rule ≡ rule_of (agreement_tells a)) × (take 4 result.words ≡ agreement_words (agreement_tells a)) }
{
    match a {
        Ok(y) => answered(0, y as u64, 0, 0),
        Err(r) => rejected(r, r.element),
    }
}

// The bits of a single.
fn single_answer(bits: u32) -> ExportAnswer
    ensures { (result.rule ≡ 0) × (take 4 result.words ≡ 0 ∷ 0 ∷ 2 ∷ bits ∷ []) }
{
    answered(2, bits as u64, 0, 0)
}

// A stored value: kind, bits.
fn stored_answer(v: ArrayValue) -> ExportAnswer
    requires { NanCase v }
    ensures { (result.rule ≡ 0) × (take 4 result.words ≡ value_words (value_tells (Ok v))) }
{
    match v {
        ArrayValue::Whole(x) => answered(1, whole_bits(x), 0, 0),
        ArrayValue::Single(x) => single_answer(f32::to_bits(x)),
        ArrayValue::Double(x) => answered(3, f64::to_bits(x), 0, 0),
        ArrayValue::SingleNan(bits) => single_answer(bits),
        ArrayValue::DoubleNan(bits) => answered(3, bits, 0, 0),
    }
}

// An array value: node, entry, kind, bits.
pub fn value_answer(v: Result<ArrayValue, Rejection>) -> ExportAnswer
    requires { NanCases v }
    ensures { (result.rule ≡ rule_of (value_tells v)) × (take 4 result.words ≡ value_words (value_tells v)) }
{
    match v {
        Ok(v) => stored_answer(v),
        Err(r) => rejected(r, 0),
    }
}

// A DataSize: node, entry, directions and the size in each.
pub fn size_answer(d: Result<DataSize, Rejection>) -> ExportAnswer
    ensures { (result.rule ≡ rule_of (data_size_tells d)) × (take 6 result.words ≡ size_words (data_size_tells d)) }
{
    match d {
        Ok(d) => answered(d.directions, d.i, d.j, d.k),
        Err(r) => rejected(r, 0),
    }
}

// Writes a corner's number in front of lent bytes and answers 0; a refusal answers its rule and leaves the bytes as they were.
pub fn put_corner(c: Result<i64, Rejection>, number: &mut [u8]) -> u64
    requires { 8 ≤ length number.old }
    ensures { (result ≡ rule_of (corner_tells c)) × (number.new ≡ number_bytes (corner_tells c) number.old) }
{
    match c {
        Ok(n) => {
            words::put_word(number, 0, 8, whole_bits(n));
            0
        }
        Err(r) => r.rule,
    }
}

// Writes an element's size or type in front of lent bytes, 0 of a refusal, and answers the rule.
pub fn put_count(c: Result<u64, Rejection>, count: &mut [u8]) -> u64
    requires { 8 ≤ length count.old }
    ensures { (result ≡ rule_of (count_tells c)) × (count.new ≡ over count.old (le_bytes 8 (count_word (count_tells c)))) }
{
    match c {
        Ok(n) => {
            words::put_word(count, 0, 8, n);
            0
        }
        Err(r) => {
            words::put_word(count, 0, 8, 0);
            r.rule
        }
    }
}
