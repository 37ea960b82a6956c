//! Words with known answers, read with ample memory.

use super::*;
use cp_logic::{Choice, Form, Opts, Rules};
use std::alloc::Global;
use std::process::Abort;
use std::test::Fail;

// The words of a text with single spaces.
fn words_of(alloc: Global, text: &str) -> Result<Vec<String>, Fail> {
    let mut words = Vec::new(alloc);
    for word in text.split(' ') {
        words.push(String::from_str(alloc, word)?)?;
    }
    Ok(words)
}

fn assert_simplify(
    rt: &impl Abort,
    alloc: Global,
    text: &str,
    want: Result<SimplifyOptions<'_>, WordsRefusal>,
) -> Result<(), Fail> {
    let words = words_of(alloc, text)?;
    assert_eq!(rt; read_simplify_words(alloc, &words), want, "at {text}");
    Ok(())
}

fn assert_extend(
    rt: &impl Abort,
    alloc: Global,
    text: &str,
    want: Result<ExtendOptions<'_>, WordsRefusal>,
) -> Result<(), Fail> {
    let words = words_of(alloc, text)?;
    assert_eq!(rt; read_extend_words(alloc, &words), want, "at {text}");
    Ok(())
}

fn assert_generate(
    rt: &impl Abort,
    alloc: Global,
    text: &str,
    want: Result<GenerateOptions<'_>, WordsRefusal>,
) -> Result<(), Fail> {
    let words = words_of(alloc, text)?;
    assert_eq!(rt; read_generate_words(alloc, &words), want, "at {text}");
    Ok(())
}

#[test]
fn simplify_has_defaults(rt: HostRuntime) -> Result<(), Fail> {
    let choice = Choice {
        t: true,
        s: true,
        x: true,
        b: true,
        e: true,
    };
    let options = SimplifyOptions {
        opts: Opts {
            rules: Rules {
                choice,
                bound: 0,
                budget: 0,
            },
            workers: 4,
            rounds: 2,
            hood: 512,
        },
        form: Form::Text,
        cnf: "std",
        reduced: "std",
        stack: "none",
        proof: "none",
        summary: "none",
    };
    assert_simplify(&rt, rt.alloc(), "simplify", Ok(options))
}

#[test]
fn simplify_takes_its_options(rt: HostRuntime) -> Result<(), Fail> {
    let text = "simplify --cnf a --reduced b --stack c --proof d --summary e --proof-form binary \
                --only bx --workers=2 --rounds 3 --hood 1 --bound 1000 --budget 1099511627776";
    let choice = Choice {
        t: false,
        s: false,
        x: true,
        b: true,
        e: false,
    };
    let options = SimplifyOptions {
        opts: Opts {
            rules: Rules {
                choice,
                bound: 1000,
                budget: 1099511627776,
            },
            workers: 2,
            rounds: 3,
            hood: 1,
        },
        form: Form::Binary,
        cnf: "a",
        reduced: "b",
        stack: "c",
        proof: "d",
        summary: "e",
    };
    assert_simplify(&rt, rt.alloc(), text, Ok(options))
}

#[test]
fn simplify_words_are_refused(rt: HostRuntime) -> Result<(), Fail> {
    let rows = [
        ("", UsageKind::Command),
        ("extend", UsageKind::Command),
        ("--workers 1 simplify", UsageKind::Command),
        ("simplify --workers 65", UsageKind::Words),
        ("simplify --hood 0", UsageKind::Words),
        ("simplify --budget 1099511627777", UsageKind::Words),
        ("simplify --rounds 1 --rounds 1", UsageKind::Words),
        ("simplify --bound", UsageKind::Words),
        ("simplify --fast 1", UsageKind::Words),
        ("simplify --help", UsageKind::Words),
        ("simplify file", UsageKind::Words),
        ("simplify --only tq --proof-form drat", UsageKind::Choice),
        ("simplify --only ", UsageKind::Choice),
        ("simplify --proof-form drat --cnf std", UsageKind::Form),
        ("simplify --cnf a --reduced a", UsageKind::Names),
        ("simplify --summary std", UsageKind::Names),
    ];
    for (text, kind) in rows {
        assert_simplify(&rt, rt.alloc(), text, Err(WordsRefusal::Usage { kind }))?;
    }
    Ok(())
}

#[test]
fn extend_words_are_read(rt: HostRuntime) -> Result<(), Fail> {
    let options = ExtendOptions {
        stack: "a",
        model: "std",
        full: "std",
    };
    assert_extend(&rt, rt.alloc(), "extend --stack a", Ok(options))?;
    let rows = [
        ("simplify", UsageKind::Command),
        ("extend", UsageKind::Words),
        ("extend --stack a --full a", UsageKind::Names),
    ];
    for (text, kind) in rows {
        assert_extend(&rt, rt.alloc(), text, Err(WordsRefusal::Usage { kind }))?;
    }
    Ok(())
}

fn assert_command(rt: &impl Abort, alloc: Global, name: &str, text: &str) -> Result<(), Fail> {
    let words = words_of(alloc, text)?;
    assert!(rt; is_command(name, &words));
    Ok(())
}

#[test]
fn generate_words_are_read(rt: HostRuntime) -> Result<(), Fail> {
    let text = "generate --vars 2000000";
    assert_command(&rt, rt.alloc(), "generate", text)?;
    let options = GenerateOptions {
        seed: 1,
        vars: 2000000,
        clauses: 3000,
        summary: "std",
    };
    assert_generate(&rt, rt.alloc(), text, Ok(options))?;
    let rows = [
        ("extend", UsageKind::Command),
        ("generate --seed 2147483648", UsageKind::Words),
        ("generate --vars 0", UsageKind::Words),
        ("generate --clauses 8000001", UsageKind::Words),
    ];
    for (text, kind) in rows {
        assert_generate(&rt, rt.alloc(), text, Err(WordsRefusal::Usage { kind }))?;
    }
    Ok(())
}
