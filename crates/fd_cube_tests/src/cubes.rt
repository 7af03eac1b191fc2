//! A full cube, and one that lacks a key.
ghost use Rattle.std.specs.Prelude.{◌≡◌, IfSome, IsTrue};
ghost use Rattle.fd_spelling.specs.Names.{is_value};
ghost use Rattle.fd_cube_tests.specs.Keys.{four, key, three};

use fd_cubes::{Cube, cubes, every_cube_reads_back, lines_of};
use fd_key::Key;
use std::alloc::Global;

/// A key of two names.
fn key_of(alloc: Global, first: &str, second: &str) -> Option<Key>
    requires first { IsTrue (is_value first.now) }
    requires second { IsTrue (is_value second.now) }
    ensures { IfSome result (λ k. k ≡ key first.now second.now) }
{
    let mut key = Key::new(alloc).ok()?;
    key.set(alloc, "a", first).ok()?;
    key.set(alloc, "b", second).ok()?;
    Some(key)
}

/// Three of the four keys of a cube.
fn three_keys(alloc: Global) -> Option<Vec<Key>>
    ensures { IfSome result (λ v. v.items ≡ three) }
{
    let mut keys = Vec::new(alloc);
    keys.push(key_of(alloc, "2", "x")?).ok()?;
    keys.push(key_of(alloc, "1", "y")?).ok()?;
    keys.push(key_of(alloc, "1", "x")?).ok()?;
    Some(keys)
}

/// All keys of a cube.
fn four_keys(alloc: Global) -> Option<Vec<Key>>
    ensures { IfSome result (λ v. v.items ≡ four) }
{
    let mut keys = three_keys(alloc)?;
    keys.push(key_of(alloc, "2", "y")?).ok()?;
    Some(keys)
}

/// The cubes of three keys.
fn cubes_of_three(alloc: Global) -> Option<Vec<Cube>> {
    let keys = three_keys(alloc)?;
    cubes(alloc, &keys).ok()
}

/// The cubes of four keys.
fn cubes_of_four(alloc: Global) -> Option<Vec<Cube>> {
    let keys = four_keys(alloc)?;
    cubes(alloc, &keys).ok()
}

/// The lines of cubes, each behind a blank.
fn text_of(alloc: Global, found: Option<Vec<Cube>>) -> Option<String> {
    let found = found?;
    let lines = lines_of(alloc, &found).ok()?;
    let mut text = String::new(alloc);
    for line in &lines {
        text.push(' ').ok()?;
        text.push_str(line.as_str()).ok()?;
    }
    Some(text)
}

/// For each cube the number of its keys and its text.
fn told_of(alloc: Global, found: Option<Vec<Cube>>) -> Option<String> {
    let found = found?;
    let mut text = String::new(alloc);
    for cube in &found {
        let request = cube.text(alloc).ok()?;
        let number = cube.count();
        write!(text, " {number} {request}").ok()?;
    }
    Some(text)
}

#[test]
fn a_full_cube_is_one_line(rt: HostRuntime) {
    let told = text_of(rt.alloc(), cubes_of_four(rt.alloc()));
    assert!(rt; told.is_some_and(|text| text.as_str() == " retrieve,a=1/2,b=x/y"));
}

#[test]
fn a_cube_that_lacks_a_key_is_two_lines(rt: HostRuntime) {
    let told = text_of(rt.alloc(), cubes_of_three(rt.alloc()));
    assert!(rt; told.is_some_and(|text| text.as_str() == " retrieve,a=1,b=x/y retrieve,a=2,b=x"));
}

#[test]
fn a_cube_tells_how_many_keys_it_has(rt: HostRuntime) {
    every_cube_reads_back();
    let told = told_of(rt.alloc(), cubes_of_four(rt.alloc()));
    assert!(rt; told.is_some_and(|text| text.as_str() == " 4 retrieve,a=1/2,b=x/y"));
}
