//! Words that ask for an application: four that stand together, each in its range.

use sj_apps::application::{Application, Problem};
use sj_words::read_words;
use std::alloc::{AllocError, Global};
use std::test::Fail;

// What such words ask for: None where they aren't accepted, and Some(None) where they ask for no application.
fn asked_for(alloc: Global, words: &[&str]) -> Result<Option<Option<Application>>, AllocError> {
    let mut list = Vec::new(alloc);
    for word in words {
        list.push(String::from_str(alloc, word)?)?;
    }
    Ok(match read_words(alloc, list.as_slice()) {
        Ok(options) => Some(options.application),
        Err(_) => None,
    })
}

// The words of a product, by its numbers.
fn of_product(alloc: Global, n: &str, tile: &str, seed: &str) -> Result<bool, AllocError> {
    let words = ["--app", "product", "--n", n, "--tile", tile, "--seed", seed];
    Ok(asked_for(alloc, words.as_slice())?.is_some())
}

#[test]
fn four_words_ask_for_an_application(rt: HostRuntime) -> Result<(), Fail> {
    let words = [
        "--seed=7",
        "--n",
        "96",
        "--summary",
        "--app",
        "paths",
        "--tile=020",
    ];
    let asked = asked_for(rt.alloc(), words.as_slice())?;
    let wanted = Application {
        problem: Problem::Paths,
        n: 96,
        tile: 20,
        seed: 7,
    };
    assert!(rt; asked == Some(Some(wanted)));
    assert!(rt; asked_for(rt.alloc(), &["--summary"])? == Some(None));
    Ok(())
}

#[test]
fn each_number_has_its_range(rt: HostRuntime) -> Result<(), Fail> {
    let alloc = rt.alloc();
    for (n, tile, seed) in [
        ("1", "1", "0"),
        ("2048", "43", "999999999"),
        ("2048", "2048", "1"),
        ("48", "1", "1"),
    ] {
        assert!(rt; of_product(alloc, n, tile, seed)?);
    }
    for (n, tile, seed) in [
        ("0", "1", "1"),
        ("2049", "2048", "1"),
        ("4", "0", "1"),
        ("4", "5", "1"),
        ("49", "1", "1"),
        ("2048", "42", "1"),
        ("4", "2", "1000000000"),
        ("4", "2", "x"),
    ] {
        assert!(rt; !of_product(alloc, n, tile, seed)?);
    }
    Ok(())
}

#[test]
fn they_stand_together_or_not_at_all(rt: HostRuntime) -> Result<(), Fail> {
    let alloc = rt.alloc();
    let all = ["--app=product", "--n=4", "--tile=2", "--seed=1"];
    assert!(rt; asked_for(alloc, all.as_slice())?.is_some());
    for left_out in 0..all.len() {
        let mut some = Vec::new(alloc);
        for (place, word) in all.iter().enumerate() {
            if place != left_out {
                some.push(*word)?;
            }
        }
        assert!(rt; asked_for(alloc, some.as_slice())?.is_none());
    }
    for word in all.as_slice() {
        assert!(rt; asked_for(alloc, &[*word])?.is_none());
    }
    assert!(rt; asked_for(alloc, &["--app=sum", "--n=4", "--tile=2", "--seed=1"])?.is_none());
    Ok(())
}
