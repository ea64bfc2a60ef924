// The tool on words and files of many kinds, one scenario after another: after a line with the words, what it prints and what it tells
// people. Every rule, refusal, stop and fault that a text can lead to is told (no text leads to 23 or 24).
#![tactic(auto)]

use std::rt::Files;

// Writes a word after a space, nothing for none.
fn show<R: Print>(rt: &R, word: &[u8]) {
    if word.len() != 0 {
        let _ = rt.write_all(b" ");
        let _ = rt.write_all(word);
    }
}

// Hands the tool so many words.
fn ask<R: Files + Print + Eprint>(rt: &R, count: usize, first: &[u8], second: &[u8], third: &[u8]) {
    let _ = rt.write_all(b"$ hudzmoke");
    show(rt, first);
    show(rt, second);
    show(rt, third);
    let _ = rt.write_all(b"\n");
    tool::obey(rt, count, first, second, third, rt);
}

// One word, and two.
fn one<R: Files + Print + Eprint>(rt: &R, word: &[u8]) {
    ask(rt, 1, word, b"", b"");
}

fn two<R: Files + Print + Eprint>(rt: &R, first: &[u8], second: &[u8]) {
    ask(rt, 2, first, second, b"");
}

// `check PANEL CLAIM`, and `step N PANEL`.
fn check<R: Files + Print + Eprint>(rt: &R, panel: &[u8], claim: &[u8]) {
    ask(rt, 3, b"check", panel, claim);
}

fn step<R: Files + Print + Eprint>(rt: &R, n: &[u8], panel: &[u8]) {
    ask(rt, 3, b"step", n, panel);
}

// A claim about the panel of all rules, a claim about the sample, and nine steps of a panel.
fn rule<R: Files + Print + Eprint>(rt: &R, claim: &[u8]) {
    check(rt, b"rules.panel", claim);
}

fn sample<R: Files + Print + Eprint>(rt: &R, claim: &[u8]) {
    check(rt, b"panel.txt", claim);
}

fn nine<R: Files + Print + Eprint>(rt: &R, panel: &[u8]) {
    step(rt, b"9", panel);
}

// An accepted claim, and one for each rule that breaks it; then claims that forget a class which an instruction raises itself: null at its
// handler, a division by zero and a failed cast among the exceptions that leave their methods.
fn rules<R: Files + Print + Eprint>(rt: &R) {
    rule(rt, b"rules.claim");
    rule(rt, b"rule0.claim");
    rule(rt, b"rule1.claim");
    rule(rt, b"rule2.claim");
    rule(rt, b"rule3.claim");
    rule(rt, b"rule4.claim");
    rule(rt, b"rule5.claim");
    rule(rt, b"rule6.claim");
    rule(rt, b"rule7.claim");
    rule(rt, b"rule8.claim");
    rule(rt, b"rule9.claim");
    rule(rt, b"rule10.claim");
    check(rt, b"null.panel", b"null.claim");
    check(rt, b"division.panel", b"division.claim");
    check(rt, b"cast.panel", b"cast.claim");
}

// Refusals 1 to 6 of a panel and 9 to 13 of a claim; a refused panel hides a refused claim. Of refusals 4 and 5 also a panel of four
// classes, and one whose class 3 is not directly below class 1. A folder opens, and cannot be read.
fn refusals<R: Files + Print + Eprint>(rt: &R) {
    check(rt, b"long.claim", b"claim.txt");
    check(rt, b"letter.txt", b"claim.txt");
    check(rt, b"claim.txt", b"panel.txt");
    check(rt, b"missing.panel", b"missing.claim");
    check(rt, b"no_method.panel", b"claim.txt");
    check(rt, b"falls.panel", b"letter.txt");
    check(rt, b"four_classes.panel", b"claim.txt");
    check(rt, b"superclass.panel", b"claim.txt");
    sample(rt, b"long.claim");
    sample(rt, b"letter.txt");
    sample(rt, b"panel.txt");
    sample(rt, b"missing.claim");
    sample(rt, b"bit.claim");
    nine(rt, b"falls.panel");
    nine(rt, b"missing.panel");
    check(rt, b".", b"claim.txt");
    sample(rt, b".");
    nine(rt, b".");
}

// A run that ends; stops 20 to 22, of these 20 at new-instance and at an instruction that raises; faults 2, 3, 5, 6 and 7. Then null that
// is raised, caught in its own method and read there; a division by zero that no handler takes; a failed cast that the caller catches.
fn runs<R: Files + Print + Eprint>(rt: &R) {
    two(rt, b"step", b"1000");
    step(rt, b"99999999999999999999999", b"uncaught.panel");
    step(rt, b"1000", b"full_store.panel");
    step(rt, b"1000", b"full_store_raised.panel");
    step(rt, b"1000", b"full_stack.panel");
    two(rt, b"step", b"2");
    nine(rt, b"fault2.panel");
    nine(rt, b"fault3.panel");
    nine(rt, b"fault5.panel");
    nine(rt, b"fault6.panel");
    nine(rt, b"fault7.panel");
    step(rt, b"1", b"null.panel");
    step(rt, b"3", b"null.panel");
    nine(rt, b"null.panel");
    nine(rt, b"division.panel");
    step(rt, b"4", b"cast.panel");
    nine(rt, b"cast.panel");
}

// Claims that are written, of the sample and of other panels, three of them with instructions that raise, and refusals of a panel.
fn claims<R: Files + Print + Eprint>(rt: &R) {
    one(rt, b"claim");
    two(rt, b"claim", b"rules.panel");
    two(rt, b"claim", b"example.panel");
    two(rt, b"claim", b"null.panel");
    two(rt, b"claim", b"division.panel");
    two(rt, b"claim", b"cast.panel");
    two(rt, b"claim", b"long.claim");
    two(rt, b"claim", b"falls.panel");
    two(rt, b"claim", b"missing.panel");
    two(rt, b"claim", b".");
    ask(rt, 3, b"claim", b"panel.txt", b"claim.txt");
}

// The example that docs/FORMATS.md explains line by line, with a claim that forgets the exception at its handler.
fn example<R: Files + Print + Eprint>(rt: &R) {
    check(rt, b"example.panel", b"example.claim");
    check(rt, b"example.panel", b"handler.claim");
    nine(rt, b"example.panel");
    step(rt, b"1000", b"example.panel");
}

// Words that ask for help, and words that ask nothing.
fn words<R: Files + Print + Eprint>(rt: &R) {
    one(rt, b"help");
    one(rt, b"--help");
    one(rt, b"-h");
    two(rt, b"help", b"step");
    two(rt, b"--help", b"step");
    two(rt, b"-h", b"step");
    one(rt, b"verify");
    one(rt, b"check");
    two(rt, b"check", b"panel.txt");
    one(rt, b"step");
    two(rt, b"step", b"12a");
    ask(rt, 3, b"step", b"panel.txt", b"2");
}

// Without words the tool reads panel.txt and claim.txt and tells nothing of the verdict; `check` tells it.
fn main(rt: HostRuntime) {
    ask(&rt, 0, b"", b"", b"");
    sample(&rt, b"claim.txt");
    rules(&rt);
    refusals(&rt);
    runs(&rt);
    claims(&rt);
    example(&rt);
    words(&rt);
}
