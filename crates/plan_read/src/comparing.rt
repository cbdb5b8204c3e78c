// Comparisons as a plan's text has them.
ghost use Rattle.std.specs.Prelude.{◌≡◌, ◌<◌, ◌≤◌, ◌^◌, cond, Some, None, IfOk, IfSome, length, map, option_map};
ghost use Rattle.plan_read.specs.Reading.{operand_read, test_read, next_test, more_tests, with_more, tests_read};

use crate::names::Names;
use crate::parts::{begins_var, read_quoted, read_sign};
use crate::variables::read_var;
use mix_tree::{Operand, Test};
use std::alloc::{AllocError, Global};

// What stands on the right of a comparison.
fn read_operand(alloc: Global, names: &Names, word: &[u8]) -> Result<Option<Operand>, AllocError>
    requires { length names.now < 2 ^ 32 }
    ensures { IfOk result (λ operand. operand ≡ operand_read names.now word.now) }
{
    if begins_var(word) {
        return match read_var(names, word) {
            Some(var) => Ok(Some(Operand::Var(var))),
            None => Ok(None),
        };
    }
    match read_quoted(alloc, word)? {
        Some(label) => Ok(Some(Operand::Text(label))),
        None => Ok(None),
    }
}

/// The comparison of three words; `None` where they are none.
pub fn read_test(
    alloc: Global,
    names: &Names,
    left: &[u8],
    sign: &[u8],
    right: &[u8],
) -> Result<Option<Test>, AllocError>
    requires { length names.now < 2 ^ 32 }
    ensures { IfOk result (λ test. test ≡ test_read names.now left.now sign.now right.now) }
{
    let Some(left) = read_var(names, left) else {
        return Ok(None);
    };
    let Some(op) = read_sign(sign) else {
        return Ok(None);
    };
    let Some(right) = read_operand(alloc, names, right)? else {
        return Ok(None);
    };
    Ok(Some(Test { left, op, right }))
}

// The comparison of the first words, after AND.
fn read_next(alloc: Global, names: &Names, words: &[&[u8]]) -> Result<Option<Test>, AllocError>
    requires { length names.now < 2 ^ 32 }
    ensures test { IfOk result (λ test. test ≡ next_test names.now (map (λ w. w.now) words.now)) }
    ensures long { IfOk result (λ test. IfSome test (λ _. 4 ≤ length words.now)) }
{
    match words {
        [and, left, sign, right, ..] if *and == b"AND".as_slice() => {
            read_test(alloc, names, left, sign, right)
        }
        _ => Ok(None),
    }
}

// Adds comparisons, each after AND; whether the words are such.
fn push_more(
    alloc: Global,
    names: &Names,
    tests: &mut Vec<Test>,
    words: &[&[u8]],
) -> Result<bool, AllocError>
    requires { length names.now < 2 ^ 32 }
    ensures { IfOk result (λ are. with_more tests.old.items (more_tests names.now (map (λ w. w.now) words.now)) ≡ cond are (Some tests.new.items) None) }
{
    let mut at = 0;
    while at < words.len() {
        let Some(test) = read_next(alloc, names, &words[at..])? else {
            return Ok(false);
        };
        tests.push(test)?;
        at += 4;
    }
    Ok(true)
}

/// Comparisons with AND between them, or none; `None` where the words are others.
pub fn read_tests(
    alloc: Global,
    names: &Names,
    words: &[&[u8]],
) -> Result<Option<Vec<Test>>, AllocError>
    requires { length names.now < 2 ^ 32 }
    ensures { IfOk result (λ tests. option_map (λ ts. ts.items) tests ≡ tests_read names.now (map (λ w. w.now) words.now)) }
{
    let mut tests = Vec::new(alloc);
    let (left, sign, right, more) = match words {
        [] => return Ok(Some(tests)),
        [left, sign, right, more @ ..] => (left, sign, right, more),
        _ => return Ok(None),
    };
    let Some(test) = read_test(alloc, names, left, sign, right)? else {
        return Ok(None);
    };
    tests.push(test)?;
    if push_more(alloc, names, &mut tests, more)? {
        return Ok(Some(tests));
    }
    Ok(None)
}
