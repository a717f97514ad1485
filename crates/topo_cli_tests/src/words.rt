//! The words of a command line.

use std::alloc::Global;
use std::test::Fail;
use topo_cli::Verb;
use topo_cli::verbs::verb;

/// Words, and which command they ask for, if any.
const WORDS: &[(&[&str], Option<Verb>)] = &[
    (&["planar", "run"], Some(Verb::Run)),
    (&["planar", "run", "now"], None),
    (&["planar", "run", "--help"], None),
    (&["planar", "replay"], Some(Verb::Replay)),
    (&["planar", "replay", "now"], None),
    (&["planar", "replay", "--help"], None),
    (&["planar", "check"], Some(Verb::Check)),
    (&["planar", "check", "now"], None),
    (&["planar", "check", "--help"], None),
    (&["planar", "serve"], Some(Verb::Serve)),
    (&["planar", "serve", "now"], None),
    (&["planar", "serve", "--help"], None),
    (&["planar"], None),
    (&["planar", "walk"], None),
    (&["planar", "help"], None),
];

/// Which command the words ask for, if they are not refused.
fn asked_for(alloc: Global, words: &[&str]) -> Option<Verb> {
    match verb(alloc, words) {
        Ok(verb) => Some(verb),
        Err(error) => {
            drop(error);
            None
        }
    }
}

#[test]
fn words(rt: HostRuntime) -> Result<(), Fail> {
    for (words, wanted) in WORDS {
        assert!(rt; asked_for(rt.alloc(), *words) == *wanted, "{words:?}");
    }
    Ok(())
}
